// Standard output by way of a fixed buffer: what waits is written out when the next text has no room, and at the end. A text is shorter
// than the buffer. The only error is that of a write that failed: what waited is then written in part or not at all, the buffer is as it
// was, and nothing more is printed.
ghost use Rattle.std.specs.Prelude.{◌≡◌, OnErr};

use arrayvec::ArrayVec;
use itoa::Buffer;
use std::io;
use std::io::Write;

// So many bytes may wait to be written.
const CHUNK: usize = 65536;

#[derive(Drop)]
pub struct Output<'a, R> {
    rt: &'a R,
    waiting: ArrayVec<u8, CHUNK>,
}

impl<'a, R: Print> Output<'a, R> {
    pub fn new(rt: &'a R) -> Self {
        Output {
            rt,
            waiting: ArrayVec::new(),
        }
    }

    pub fn flush(&mut self) -> io::Result<()>
        ensures { OnErr result (self.new ≡ self.old) }
    {
        self.rt.write_all(self.waiting.as_slice())?;
        self.waiting.clear();
        Ok(())
    }

    // Puts a text, or as much of it as there is room for.
    pub fn put_text(&mut self, text: &[u8]) -> io::Result<()>
        ensures { OnErr result (self.new ≡ self.old) }
    {
        if self.waiting.remaining_capacity() < text.len() {
            self.flush()?;
        }
        let _ = self.waiting.write(text);
        Ok(())
    }

    pub fn put_number(&mut self, number: u64) -> io::Result<()>
        ensures { OnErr result (self.new ≡ self.old) }
    {
        let mut digits = Buffer::new();
        self.put_text(digits.format(number).as_bytes())
    }
}
