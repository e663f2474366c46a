// What the library answered, in the words of a vector line: fields, a blank between two of them.
use arrayvec::ArrayString;
use std::fmt;
use std::fmt::Write;

// What the library answers to a line takes fewer bytes than this.
const ANSWER: usize = 1024;

#[derive(Drop)]
pub struct Answer {
    fields: ArrayString<ANSWER>,
}

impl Answer {
    pub fn new() -> Self {
        Answer {
            fields: ArrayString::new(),
        }
    }

    pub fn as_bytes(&self) -> &[u8] {
        self.fields.as_str().as_bytes()
    }

    // One more field, or several at once. What does not fit is left out.
    pub fn add<T: fmt::Display + Drop>(&mut self, field: T) {
        let blank = if self.fields.is_empty() { "" } else { " " };
        let _ = write!(self.fields, "{blank}{field}");
    }
}

// A text of bytes, in hex.
#[derive(Clone, Copy)]
pub struct Hex<'a>(pub &'a [u8]);

impl fmt::Display for Hex<'_> {
    fn fmt<W: fmt::Write>(&self, f: &mut fmt::Formatter<W>) -> fmt::Result {
        if self.0.is_empty() {
            return write!(f, "-");
        }
        for byte in self.0 {
            write!(f, "{byte:02x}")?;
        }
        Ok(())
    }
}
