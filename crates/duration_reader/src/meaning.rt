// What a text of the grammar says: refusals 8 and 14, and the numbers that an accepted text shows.
ghost use Rattle.std.specs.Prelude.{◌≡◌};
ghost use Rattle.duration_reader.specs.Meaning.{wide, narrow, fraction_of, all_zero, sign_of, shown_of, numbers, answer};

use duration_syntax::part::Part;
use duration_syntax::raw::{DurationRaw, TimeParts};
use record::Sign;
use text::Refusal;
use time_syntax::fraction::Fraction;

// The sign, seven numbers and nanoseconds; absent parts are 0.
#[derive(Clone, Copy, Debug, PartialEq, Eq)]
pub struct DurationShown {
    pub sign: Sign,
    pub years: u32,
    pub months: u32,
    pub weeks: u32,
    pub days: u64,
    pub hours: u64,
    pub minutes: u64,
    pub seconds: u64,
    pub nanoseconds: u32,
}

pub type DurationReading = Result<DurationShown, Refusal>;

// A part's number of at most 64 bits; 0 where there is no part.
fn wide(p: Option<Part>) -> Result<u64, Refusal>
    ensures { result ≡ wide p }
{
    p.map_or(Some(0), |p| p.number.value)
        .ok_or(Refusal::TooLarge)
}

// A part's number of at most 32 bits.
fn narrow(p: Option<Part>) -> Result<u32, Refusal>
    ensures { result ≡ narrow p }
{
    u32::try_from(wide(p)?).map_err(|_| Refusal::TooLarge)
}

// The fraction of a second.
fn fraction_of(t: Option<TimeParts>) -> Option<Fraction>
    ensures { result ≡ fraction_of t }
{
    t.and_then(|t| t.seconds).and_then(|p| p.fraction)
}

pub fn all_zero(d: DurationShown) -> bool
    ensures { result ≡ all_zero d }
{
    d.years == 0
        && d.months == 0
        && d.weeks == 0
        && d.days == 0
        && d.hours == 0
        && d.minutes == 0
        && d.seconds == 0
        && d.nanoseconds == 0
}

// The sign by its byte, where there is one.
pub fn sign_of(sign: Option<u8>) -> Sign
    ensures { result ≡ sign_of sign }
{
    match sign {
        Some(b'-') => Sign::Negative,
        _ => Sign::Positive,
    }
}

// What is shown: all zero has the sign Zero.
#[tactic(auto, unfolding(crate::specs::Meaning::shown_of))]
pub fn shown_of(d: DurationShown) -> DurationShown
    ensures { result ≡ shown_of d }
{
    if all_zero(d) {
        DurationShown {
            sign: Sign::Zero,
            ..d
        }
    } else {
        d
    }
}

// The sign and the numbers of a text of the grammar.
#[tactic(auto, unfolding(crate::specs::Meaning::numbers))]
fn numbers(d: DurationRaw) -> DurationReading
    ensures { result ≡ numbers d }
{
    Ok(DurationShown {
        sign: sign_of(d.sign),
        years: narrow(d.date.years)?,
        months: narrow(d.date.months)?,
        weeks: narrow(d.date.weeks)?,
        days: wide(d.date.days)?,
        hours: wide(d.time.and_then(|t| t.hours))?,
        minutes: wide(d.time.and_then(|t| t.minutes))?,
        seconds: wide(d.time.and_then(|t| t.seconds))?,
        nanoseconds: fraction_of(d.time).map_or(0, |f| f.nanos),
    })
}

// A text of the grammar: a fraction that is too long comes before a number that is too large.
#[tactic(auto, unfolding(crate::specs::Meaning::answer))]
pub fn answer_raw(d: DurationRaw) -> DurationReading
    ensures { result ≡ answer d }
{
    if 9 < fraction_of(d.time).map_or(0, |f| f.digits) {
        return Err(Refusal::LongFraction);
    }
    Ok(shown_of(numbers(d)?))
}
