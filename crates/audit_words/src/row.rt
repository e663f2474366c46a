// A row for a person to read, as it is put together: its bytes so far, in a buffer of N. Each piece asks for the room that it may use, so that nothing
// is cut and nothing runs over.
ghost use Rattle.std.specs.Prelude.{◌≡◌, ℕ, ◌+◌, ◌-◌, ◌≤◌, ◌<◌, List, [], ◌∷◌, ◌++◌, length, take, replicate};
ghost use Rattle.audit_words.specs.Within.{Within};
ghost use Rattle.text.specs.Digits.{number};

use std::marker::Model;

#[derive(Drop)]
pub struct Row<const N: usize> {
    bytes: [u8; N],
    len: usize,
}

// Clauses see the bytes that were put.
impl<const N: usize> Model for Row<N> {
    ghost Value = { List ℕ };

    ghost view = { λ r. take r.len r.bytes };

    ghost invariant = { λ r. r.len ≤ N };
}

impl<const N: usize> Row<N> {
    pub fn new() -> Self
        ensures { result ≡ [] }
    {
        Row {
            bytes: [0; N],
            len: 0,
        }
    }

    pub fn bytes(&self) -> &[u8]
        ensures { result.now ≡ self.now }
    {
        &self.bytes[..self.len]
    }

    pub fn clear(&mut self)
        ensures { self.new ≡ [] }
    {
        self.len = 0;
    }

    pub fn byte(&mut self, b: u8)
        requires { length self.old + 1 ≤ N }
        ensures { self.new ≡ self.old ++ b ∷ [] }
    {
        self.bytes[self.len] = b;
        self.len += 1;
    }

    pub fn put(&mut self, s: &[u8])
        requires { length self.old + length s.now ≤ N }
        ensures { self.new ≡ self.old ++ s.now }
    {
        let bytes = &mut self.bytes[..];
        bytes[self.len..self.len + s.len()].copy_from_slice(s);
        self.len += s.len();
    }

    pub fn text(&mut self, s: &str)
        requires { length self.old + length s.now ≤ N }
        ensures { self.new ≡ self.old ++ s.now }
    {
        self.put(s.as_bytes());
    }

    // As much of a text as there is room for.
    pub fn put_some(&mut self, s: &[u8])
        ensures { self.new ≡ self.old ++ take (N - length self.old) s.now }
    {
        let room = N - self.len;
        self.put(&s[..room.min(s.len())]);
    }

    pub fn blanks(&mut self, n: usize)
        requires { length self.old + n ≤ N }
        ensures { self.new ≡ self.old ++ replicate n 32 }
    {
        let bytes = &mut self.bytes[..];
        bytes[self.len..self.len + n].fill(b' ');
        self.len += n;
    }

    // A number in as many digits as it has.
    pub fn number(&mut self, n: u64)
        requires { length self.old + 20 ≤ N }
        ensures digits { self.new ≡ self.old ++ number n }
        ensures within { Within (length self.old) 20 (length self.new) }
    {
        let bytes = &mut self.bytes[..];
        self.len = text::put::put_number(bytes, self.len, n);
    }

    // A number at the right of a column; one that has more digits takes more.
    pub fn column(&mut self, column: usize, n: u64)
        requires { length self.old + column + 20 ≤ N }
        ensures digits { self.new ≡ self.old ++ replicate (column - length (number n)) 32 ++ number n }
        ensures within { Within (length self.old) (column + 20) (length self.new) }
    {
        self.blanks(column.saturating_sub(text::put::number_bytes(n)));
        self.number(n);
    }

    // `\x` and two digits.
    fn hex_byte(&mut self, b: u8)
        requires { length self.old + 4 ≤ N }
        ensures { length self.new ≡ length self.old + 4 }
    {
        self.text("\\x");
        self.byte(hex_digit(b / 16));
        self.byte(hex_digit(b % 16));
    }

    // A byte as it is where ASCII prints it, but the backslash; else in hexadecimal.
    fn shown_byte(&mut self, b: u8)
        requires { length self.old + 4 ≤ N }
        ensures { Within (length self.old) 4 (length self.new) }
    {
        if matches!(b, b' '..=b'~') && b != b'\\' {
            self.byte(b);
        } else {
            self.hex_byte(b);
        }
    }

    // The bytes of a text, up to the first that starts at place `end` or after it; whether there is none.
    fn run(&mut self, s: &[u8], end: usize) -> bool
        requires { (length self.old ≤ end) × (end + 3 ≤ N) }
        ensures { (length self.old ≤ length self.new) × (length self.new ≤ end + 3) }
    {
        for &b in s {
            if end <= self.bytes().len() {
                return false;
            }
            self.shown_byte(b);
        }
        true
    }

    // A text in so many columns, with dots after it where it is cut. The last byte shown may take three columns more.
    pub fn shown(&mut self, s: &[u8], columns: usize)
        requires { length self.old + columns + 6 ≤ N }
        ensures { Within (length self.old) (columns + 6) (length self.new) }
    {
        let end = self.bytes().len() + columns;
        if !self.run(s, end) {
            self.text("...");
        }
    }
}

fn hex_digit(n: u8) -> u8
    requires { n < 16 }
{
    if n < 10 { b'0' + n } else { b'A' - 10 + n }
}
