// Why a record or a text is refused: the cases of document 01, each with its number there; and the most bytes that a text may have.
ghost use Rattle.std.specs.Prelude.{◌≡◌};
ghost use Rattle.text.specs.Refusal.{number};

#[derive(Clone, Copy, Debug, PartialEq, Eq)]
pub enum Refusal {
    // The buffer is shorter than the exact length.
    NoRoom = 1,
    // A field out of its range, shown or hidden.
    BadField = 2,
    // A zone or calendar name not of its grammar, too long, or not inside the text lent with it.
    BadName = 3,
    // Parts that do not go together, or none to write.
    BadParts = 4,
    // A text over 1,024 bytes.
    TooLong = 5,
    // A text not of the grammar.
    BadText = 6,
    // A critical annotation other than `u-ca`.
    UnknownCritical = 7,
    // A fraction of more than nine digits.
    LongFraction = 8,
    // A calendar other than iso8601 on a year-month or month-day text.
    OtherCalendar = 9,
    // A second or later `u-ca` where it or the first is critical.
    CalendarClash = 10,
    // A day not in its month.
    BadDay = 11,
    // `Z` where the goal forbids it.
    ForbiddenZ = 12,
    // A zone, time or offset missing where the goal needs it.
    MissingPart = 13,
    // A duration's number too large.
    TooLarge = 14,
    // No such goal number.
    NoSuchGoal = 15,
}

impl From<Refusal> for u8 {
    ghost from_gives = { λ refusal n. n ≡ number refusal };

    fn from(refusal: Refusal) -> u8 {
        refusal as u8
    }
}

// The most bytes that a text may have.
pub const LONGEST: usize = 1024;
