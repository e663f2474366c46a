// The fields of a vector line, separated by one blank each.
ghost use Rattle.std.specs.Prelude.{◌<◌, IfSome};

use arrayvec::ArrayVec;

// A line has at most so many bytes.
pub const MOST: usize = 2200;

// The texts of a line, decoded, take fewer bytes than this.
pub const LENT: usize = 1100;

// Texts of a line, one after the other.
pub type Text = ArrayVec<u8, LENT>;

// What is still to be read of a line. Each method takes the next field, and answers none where that does not read.
#[derive(Drop)]
pub struct Fields<'a> {
    rest: &'a [u8],
}

// A sign and a magnitude.
#[derive(Clone, Copy, Debug, PartialEq, Eq)]
pub struct Signed {
    pub negative: bool,
    pub magnitude: u64,
}

impl<'a> Fields<'a> {
    pub fn new(line: &'a [u8]) -> Self {
        Fields { rest: line }
    }

    // The fields that are left.
    pub fn rest(&self) -> &'a [u8] {
        self.rest
    }

    // An empty field does not read.
    pub fn word(&mut self) -> Option<&'a [u8]> {
        let line = self.rest;
        let end = line.iter().position(|&b| b == b' ').unwrap_or(line.len());
        self.rest = line.get(end + 1..).unwrap_or(&[]);
        if end == 0 { None } else { Some(&line[..end]) }
    }

    // A number without a sign.
    pub fn number<T: TryFrom<u64>>(&mut self) -> Option<T>
    where
        T::Error: Drop,
    {
        T::try_from(number_of(self.word()?)?).ok()
    }

    // A number with its sign apart.
    pub fn signed(&mut self) -> Option<Signed> {
        let word = self.word()?;
        let digits = word.strip_prefix(b"-");
        Some(Signed {
            negative: digits.is_some(),
            magnitude: number_of(digits.unwrap_or(word))?,
        })
    }

    // A number that may have a sign.
    pub fn integer<T: TryFrom<i64>>(&mut self) -> Option<T>
    where
        T::Error: Drop,
    {
        let n = self.signed()?;
        let value = if n.negative {
            0i64.checked_sub_unsigned(n.magnitude)?
        } else {
            0i64.checked_add_unsigned(n.magnitude)?
        };
        T::try_from(value).ok()
    }

    // 1 is yes, 0 is no.
    pub fn flag(&mut self) -> Option<bool> {
        match self.number::<u8>()? {
            0 => Some(false),
            1 => Some(true),
            _ => None,
        }
    }

    // A text of two hex digits for each byte, decoded to the end of what is there. `-` is the empty text.
    pub fn text_after(&mut self, texts: &mut Text) -> Option<()> {
        let word = self.word()?;
        if word == b"-".as_slice() {
            return Some(());
        }
        if word.len() % 2 != 0 {
            return None;
        }
        for pair in word.chunks_exact(2) {
            let byte = 16 * nibble(pair[0])? + nibble(pair[1])?;
            texts.try_push(byte).ok()?;
        }
        Some(())
    }

    pub fn text(&mut self) -> Option<Text> {
        let mut text = Text::new();
        self.text_after(&mut text)?;
        Some(text)
    }
}

// The number that a text of digits writes.
fn number_of(digits: &[u8]) -> Option<u64> {
    if digits.is_empty() {
        return None;
    }
    let mut number = 0u64;
    for &b in digits {
        let digit = char::from(b).to_digit(10)?;
        number = number.checked_mul(10)?.checked_add(digit.into())?;
    }
    Some(number)
}

// What a digit of a hex text is worth; a capital is none.
fn nibble(b: u8) -> Option<u8>
    ensures { IfSome result (λ n. n < 16) }
{
    match b {
        b'0'..=b'9' => Some(b - b'0'),
        b'a'..=b'f' => Some(b - b'a' + 10),
        _ => None,
    }
}
