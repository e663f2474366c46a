// A list of vectors from standard input: each line that is answered otherwise than it says is printed with what was got, and the last line
// counts them. The list may be of any size; it comes in chunks, and answers go out in chunks. The only errors are those of a read or a write
// that failed: the rest of the list is then not judged, and of what was to be printed the first part may be.
use crate::judge;
use arrayvec::ArrayVec;
use std::io;
use std::io::Read;
use test_lines::answer::Answer;
use test_lines::judged::NotJudged;
use test_run::report::{Report, is_comment};

// What is kept of a line: a byte more than a line may have, so that a longer line is seen.
const LINE: usize = 2201;

// What is read at a time takes as many bytes.
const CHUNK: usize = 65536;

// A run over a list: the line that is not finished, and what was said so far.
#[derive(Drop)]
struct Run<'a, R> {
    line: ArrayVec<u8, LINE>,
    report: Report<'a, R>,
}

impl<'a, R: Print> Run<'a, R> {
    fn replay(&mut self) -> io::Result<()> {
        let line = self.line.as_slice();
        let mut answer = Answer::new();
        match judge(line, &mut answer) {
            Ok(wanted) => self.report.settle(line, wanted, answer.as_bytes()),
            Err(NotJudged::Malformed) => self.report.malformed(line),
            Err(NotJudged::Unknown) => {
                self.report.skip();
                Ok(())
            }
        }
    }

    // The line is finished.
    fn end_line(&mut self) -> io::Result<()> {
        if is_comment(self.line.as_slice()) {
            self.report.title(self.line.as_slice())?;
        } else {
            self.replay()?;
        }
        self.line.clear();
        Ok(())
    }

    fn take(&mut self, byte: u8) -> io::Result<()> {
        if byte == b'\n' {
            return self.end_line();
        }
        let _ = self.line.try_push(byte);
        Ok(())
    }
}

// The whole list of standard input. With titles, each comment is the title of the line after it. A line feed need not end the last line.
pub fn judge_list(rt: &(impl Input + Print), titled: bool) -> io::Result<()> {
    let mut run = Run {
        line: ArrayVec::new(),
        report: Report::new(rt, titled),
    };
    let mut input = rt.reader();
    let mut chunk = [0u8; CHUNK];
    // A proved loop has to end, and nothing says that an input does: no run uses up so many turns.
    for _ in 0..u64::MAX {
        let n = input.read(&mut chunk)?;
        if n == 0 {
            break;
        }
        for &byte in &chunk[..n] {
            run.take(byte)?;
        }
    }
    run.end_line()?;
    run.report.finish()
}
