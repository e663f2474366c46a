// What is printed of a list: each line that is answered otherwise than it says, with what was got, and the counts of all lines. What is
// printed waits in a buffer, as `output` says, and the only error is that of a write that failed. The buffer then holds what waited,
// perhaps with the first texts of what was to be put after it.
use crate::output::Output;
use std::io;
use test_lines::fields::MOST;

// How many lines are replayed, how many of these differ, and how many are skipped.
#[derive(Clone, Copy, Debug, PartialEq, Eq)]
struct Counts {
    replayed: u64,
    differ: u64,
    skipped: u64,
}

// Of a list with titles, each line is printed with its title.
#[derive(Drop)]
pub struct Report<'a, R> {
    titled: bool,
    counts: Counts,
    out: Output<'a, R>,
}

// Comments and empty lines are not counted.
pub fn is_comment(line: &[u8]) -> bool {
    line.is_empty() || line.starts_with(b"#")
}

impl<'a, R: Print> Report<'a, R> {
    pub fn new(rt: &'a R, titled: bool) -> Self {
        Report {
            titled,
            counts: Counts {
                replayed: 0,
                differ: 0,
                skipped: 0,
            },
            out: Output::new(rt),
        }
    }

    // A comment: in a list with titles, the title of the line after it.
    pub fn title(&mut self, line: &[u8]) -> io::Result<()> {
        if self.titled && !line.is_empty() {
            self.out.put_text(line.get(2..).unwrap_or(&[]))?;
            self.out.put_text(b": ")?;
        }
        Ok(())
    }

    // A line whose tag is not known.
    pub fn skip(&mut self) {
        self.counts.skipped = self.counts.skipped.wrapping_add(1);
    }

    // A line that does not read.
    pub fn malformed(&mut self, line: &[u8]) -> io::Result<()> {
        self.differs(line, b"malformed")
    }

    // A line of which is known what it wants and what was got.
    pub fn settle(&mut self, line: &[u8], wanted: &[u8], got: &[u8]) -> io::Result<()> {
        if wanted == got {
            self.agrees()
        } else {
            self.differs(line, got)
        }
    }

    fn agrees(&mut self) -> io::Result<()> {
        if self.titled {
            self.out.put_text(b"ok\n")?;
        }
        self.counts.replayed = self.counts.replayed.wrapping_add(1);
        Ok(())
    }

    // A line that differs, with what was got. One that is too long is cut.
    fn differs(&mut self, line: &[u8], got: &[u8]) -> io::Result<()> {
        self.out.put_text(line.get(..MOST).unwrap_or(line))?;
        self.out.put_text(b" got ")?;
        self.out.put_text(got)?;
        self.out.put_text(b"\n")?;
        self.counts.replayed = self.counts.replayed.wrapping_add(1);
        self.counts.differ = self.counts.differ.wrapping_add(1);
        Ok(())
    }

    // The last line of all.
    pub fn finish(&mut self) -> io::Result<()> {
        self.out.put_text(b"replayed ")?;
        self.out.put_number(self.counts.replayed)?;
        self.out.put_text(b", ")?;
        self.out.put_number(self.counts.differ)?;
        self.out.put_text(b" differ, ")?;
        self.out.put_number(self.counts.skipped)?;
        self.out.put_text(b" skipped\n")?;
        self.out.flush()
    }
}
