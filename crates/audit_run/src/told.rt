// What failed, told in the system's words.
use audit_words::row::Row;
use std::fmt;
use std::fmt::Write;
use std::io::Error;

// The words of an error, as many as there is room for.
#[derive(Drop)]
struct Words(Row<256>);

impl Write for Words {
    fn write_str(&mut self, s: &str) -> fmt::Result {
        self.0.put_some(s.as_bytes());
        Ok(())
    }
}

// The words without the number that is printed after them, as in ` (os error 2)`.
fn without_number(words: &[u8]) -> &[u8] {
    match words
        .windows(11)
        .position(|w| w == b" (os error ".as_slice())
    {
        Some(i) => &words[..i],
        None => words,
    }
}

// A line that says what failed, as the caller names it, and why. `to` is standard error.
pub fn fail(to: &impl Print, what: &[u8], error: Error) {
    let mut words = Words(Row::new());
    let _ = write!(words, "{error}");
    let _ = to.write_all(what);
    let _ = to.write_all(b": ");
    let _ = to.write_all(without_number(words.0.bytes()));
    let _ = to.write_all(b"\n");
}
