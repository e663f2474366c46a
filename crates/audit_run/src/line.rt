// What is kept of a line that a chunk cuts, and the carriage return at a line's end.
ghost use Rattle.std.specs.Prelude.{◌≡◌, ◌≢◌, ◌⊎◌, ◌+◌, ◌-◌, ◌%◌, ◌^◌, List, ℕ, [], ◌∷◌, ◌++◌, length, take};

use audit_words::row::Row;

// The most that is kept of a line: enough to see that it is too long, a carriage return and all.
pub const MOST: usize = 1026;

// A line whose end is still to come.
#[derive(Drop)]
pub struct Kept {
    // Its first bytes.
    pub start: Row<MOST>,
    // How many bytes it has so far, and the last of them.
    pub width: u64,
    pub last: Option<u8>,
}

impl Kept {
    pub fn new() -> Self
        ensures { (result.start ≡ []) × (result.width ≡ 0) × (result.last ≡ None) }
    {
        Kept {
            start: Row::new(),
            width: 0,
            last: None,
        }
    }

    pub fn clear(&mut self)
        ensures { (self.new.start ≡ []) × (self.new.width ≡ 0) × (self.new.last ≡ None) }
    {
        self.start.clear();
        self.width = 0;
        self.last = None;
    }

    // A further part of the line.
    pub fn add(&mut self, piece: &[u8])
        ensures start { self.new.start ≡ self.old.start ++ take (1026 - length self.old.start) piece.now }
        ensures width { self.new.width ≡ (self.old.width + length piece.now) % 2 ^ 64 }
        ensures same_last { piece.now ≡ [] → self.new.last ≡ self.old.last }
        ensures last { (xs : List ℕ) (b : ℕ) → piece.now ≡ xs ++ b ∷ [] → self.new.last ≡ Some b }
    {
        self.start.put_some(piece);
        self.width = self.width.wrapping_add(piece.len() as u64);
        self.last = piece.last().copied().or(self.last);
    }

    // How wide the line is without the carriage return at its end.
    pub fn width_without_return(&self) -> u64
        ensures ended { self.now.last ≡ Some 13 → result ≡ self.now.width - 1 }
        ensures whole { self.now.last ≢ Some 13 → result ≡ self.now.width }
    {
        if self.last == Some(b'\r') {
            self.width.saturating_sub(1)
        } else {
            self.width
        }
    }
}

// A line without the carriage return at its end.
pub fn without_return(line: &[u8]) -> &[u8]
    ensures ended { (xs : List ℕ) → line.now ≡ xs ++ 13 ∷ [] → result.now ≡ xs }
    ensures whole { (result.now ≡ line.now) ⊎ (line.now ≡ result.now ++ 13 ∷ []) }
{
    match line {
        [start @ .., b'\r'] => start,
        _ => line,
    }
}
