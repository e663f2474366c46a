// The log, chunk by chunk and line by line. A line that lies whole in a chunk is judged where it lies; of one that a chunk cuts, the first 1,026 bytes
// are kept, enough to see that it is too long, a carriage return and all.
use crate::judge::judge;
use audit_lines::print::{head, print};
use audit_lines::row::Line;
use audit_run::line::{Kept, without_return};
use audit_run::state::Run;
use audit_run::told::fail;
use audit_tally::kinds::change_of;
use std::io::{ErrorKind, Read};

// A whole line without its end. `text` is its start, and all of it where it is not too long.
fn take(run: &mut Run, text: &[u8], width: u64) {
    let verdict = judge(run.asked.goal as u32, text);
    let year = verdict.year_width(text);
    let change = change_of(run.year, year);
    let number = run.lines.wrapping_add(1);
    run.lines = number;
    run.year = year.or(run.year);
    run.counts.note(verdict.kind(), number);
    if let Some(change) = change {
        run.counts.note_change(number, change);
    }
    print(
        run,
        Line {
            number,
            width,
            text,
            verdict,
            change,
        },
    );
}

// The last part of a line, up to its line feed.
fn end(run: &mut Run, kept: &mut Kept, piece: &[u8]) {
    if kept.width == 0 {
        let line = without_return(piece);
        take(run, line, line.len() as u64);
    } else {
        kept.add(piece);
        take(
            run,
            without_return(kept.start.bytes()),
            kept.width_without_return(),
        );
        kept.clear();
    }
}

// One chunk.
fn feed(run: &mut Run, kept: &mut Kept, chunk: &[u8]) {
    for piece in chunk.split_inclusive(|&b| b == b'\n') {
        match piece.strip_suffix(b"\n") {
            Some(piece) => end(run, kept, piece),
            None => kept.add(piece),
        }
    }
}

// Every line of a log, judged, counted, and printed where it is asked for. A read that fails is told on `told`, which is standard error; one that a signal
// interrupted is made again. The last line may have no line feed: a carriage return at its end is a byte of it. A proved loop has to end, and nothing says
// that an input does: the turns come from a number that no run uses up.
pub fn read(log: &mut impl Read, told: &impl Print, run: &mut Run) {
    let mut chunk = [0u8; 65536];
    let mut kept = Kept::new();
    head(run);
    for _ in 0..u64::MAX {
        match log.read(&mut chunk) {
            Ok(0) => break,
            Ok(n) => feed(run, &mut kept, &chunk[..n]),
            Err(error) if error.kind() == ErrorKind::Interrupted => {}
            Err(error) => {
                fail(told, b"audit: the log", error);
                run.whole = false;
                break;
            }
        }
        if run.out.error.is_some() {
            break;
        }
    }
    if kept.width != 0 {
        take(run, kept.start.bytes(), kept.width);
    }
}
