// Standard output by way of a buffer: rows wait in it, and are written out when the next has no room, and at the end.
ghost use Rattle.std.specs.Prelude.{◌≡◌, ◌+◌, ◌<◌, ◌≤◌, [], length};

use audit_words::row::Row;
use std::io::{Error, Stdout};

// How many bytes may wait.
pub const SIZE: usize = 65536;

#[derive(Drop)]
pub struct Out {
    // What waits.
    pub waiting: Row<SIZE>,
    // Why the last write failed that did; nothing, if all was taken that was written out.
    pub error: Option<Error>,
    to: Stdout,
}

impl Out {
    pub fn new(to: Stdout) -> Self
        ensures { (result.waiting ≡ []) × (result.error ≡ None) }
    {
        Out {
            waiting: Row::new(),
            error: None,
            to,
        }
    }

    // Writes out what waits.
    pub fn flush(&mut self)
        ensures { self.new.waiting ≡ [] }
    {
        if let Err(error) = self.to.write_all(self.waiting.bytes()) {
            self.error = Some(error);
        }
        self.waiting.clear();
    }

    // Room for 1,024 bytes more, as no row and no line of the summary has; where it is missing, what waits is written out first.
    pub fn room(&mut self)
        ensures room { length self.new.waiting + 1024 ≤ 65536 }
        ensures waits { length self.old.waiting ≤ 64512 → self.new ≡ self.old }
        ensures written_out { 64512 < length self.old.waiting → self.new.waiting ≡ [] }
    {
        let n = self.waiting.bytes().len();
        if n <= 64512 {
            return;
        }
        self.flush();
    }
}
