// What a line is: its verdict, its kind, how many columns its year takes; and what is asked of a log's lines.
ghost use Rattle.std.specs.Prelude.{◌≡◌, ◌≢◌, ◌↔◌, IsTrue, IsOk, false};
ghost use Rattle.audit_tally.specs.Year.{written_width, year_width};

use record::{Goal, Reading};
use text::Refusal;

// The three kinds of lines.
#[derive(Clone, Copy, Debug, PartialEq, Eq)]
pub enum Kind {
    Refused(Refusal),
    // Read, and one of our own texts.
    Ours,
    // Read, and none of ours.
    Foreign,
}

// How many columns a year takes: four digits, or a sign and six.
#[derive(Clone, Copy, Debug, PartialEq, Eq)]
pub enum YearWidth {
    Four,
    Seven,
}

// What the library says of a line.
#[derive(Clone, Copy, Debug, PartialEq, Eq)]
pub struct Verdict {
    // What it is read as, for the goal.
    pub reading: Reading,
    // Whether it is a stamp with a date as the library writes it.
    pub ours: bool,
}

impl Verdict {
    pub fn kind(self) -> Kind
        ensures refused { (k : Refusal) → (result ≡ Kind.Refused k) ↔ (self.reading ≡ Err k) }
        ensures ours { (result ≡ Kind.Ours) ↔ (IsOk self.reading × IsTrue self.ours) }
    {
        match self.reading {
            Err(refusal) => Kind::Refused(refusal),
            Ok(_) if self.ours => Kind::Ours,
            Ok(_) => Kind::Foreign,
        }
    }

    // How many columns the year of the line takes, if one is written and the line is not refused.
    pub fn year_width(self, line: &[u8]) -> Option<YearWidth>
        ensures { result ≡ year_width self.reading line.now }
    {
        match self.reading {
            Ok(shown) if shown.date.is_some() => written_width(line),
            _ => None,
        }
    }
}

// The same of a text with a date. The texts that write no year, `MM-DD` and `--MM-DD`, have a hyphen in the second or the third place.
fn written_width(line: &[u8]) -> Option<YearWidth>
    ensures { result ≡ written_width line.now }
{
    match line {
        [first, second, third, ..] if second.is_ascii_digit() && third.is_ascii_digit() => {
            if first.is_ascii_digit() {
                Some(YearWidth::Four)
            } else {
                Some(YearWidth::Seven)
            }
        }
        _ => None,
    }
}

// What a line does to the width of the year before it.
#[derive(Clone, Copy, Debug, PartialEq, Eq)]
pub enum Change {
    Wider,
    Narrower,
}

// Lines without a year change nothing, and there is no change at the first line that has one.
pub fn change_of(before: Option<YearWidth>, width: Option<YearWidth>) -> Option<Change>
    ensures wider { (result ≡ Some Change.Wider) ↔ ((before ≡ Some YearWidth.Four) × (width ≡ Some YearWidth.Seven)) }
    ensures narrower { (result ≡ Some Change.Narrower) ↔ ((before ≡ Some YearWidth.Seven) × (width ≡ Some YearWidth.Four)) }
{
    match (before, width) {
        (Some(YearWidth::Four), Some(YearWidth::Seven)) => Some(Change::Wider),
        (Some(YearWidth::Seven), Some(YearWidth::Four)) => Some(Change::Narrower),
        _ => None,
    }
}

// Which lines are printed.
#[derive(Clone, Copy, Debug, PartialEq, Eq)]
pub enum Rows {
    All,
    NotOurs,
    Refused,
    Nothing,
}

impl Rows {
    pub fn shows(self, kind: Kind) -> bool
        ensures all { self ≡ Rows.All → IsTrue result }
        ensures not_ours { self ≡ Rows.NotOurs → (IsTrue result ↔ (kind ≢ Kind.Ours)) }
        ensures refused { self ≡ Rows.Refused → (IsTrue result ↔ ((k : Refusal) × (kind ≡ Kind.Refused k))) }
        ensures nothing { self ≡ Rows.Nothing → result ≡ false }
    {
        match self {
            Rows::All => true,
            Rows::NotOurs => kind != Kind::Ours,
            Rows::Refused => matches!(kind, Kind::Refused(_)),
            Rows::Nothing => false,
        }
    }
}

// What is asked of a log: the goal that its lines are read for, and which of them are printed.
#[derive(Clone, Copy, Debug, PartialEq, Eq)]
pub struct Asked {
    pub goal: Goal,
    pub rows: Rows,
}
