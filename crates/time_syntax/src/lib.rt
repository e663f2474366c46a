// A time of day at the front of a text, and what says how it stands to UTC: the parts of document 01's reading grammar that are a time.
#![tactic(auto)]

ghost use Rattle.std.specs.Prelude.{◌≡◌};
ghost use Rattle.time_syntax.specs.Read.{minute_at, seconds_at, past_seconds, time, second_in, fraction_in, nanos_in, digits_in, past, offset_if, utc, past_utc};

pub mod fraction;

use fraction::Fraction;

// What follows the minute: a second, and its fraction where it has one.
#[derive(Clone, Copy, Debug, PartialEq, Eq)]
pub struct Seconds {
    pub second: u8,
    pub fraction: Option<Fraction>,
}

// A time that was read.
#[derive(Clone, Copy, Debug, PartialEq, Eq)]
pub struct TimeRead {
    pub hour: u8,
    pub minute: u8,
    pub seconds: Option<Seconds>,
}

// An offset that was read: its sign, and a time.
#[derive(Clone, Copy, Debug, PartialEq, Eq)]
pub struct OffsetRead {
    pub negative: bool,
    pub time: TimeRead,
}

// How a time stands to UTC: `Z` in either case, or an offset.
#[derive(Clone, Copy, Debug, PartialEq, Eq)]
pub enum UtcRead {
    Z(u8),
    Offset(OffsetRead),
}

// `:MM`.
#[tactic(auto, unfolding(crate::specs::Read::minute_at))]
fn minute_at(t: &[u8]) -> Option<u8>
    ensures { result ≡ minute_at t.now }
{
    match t {
        [b':', minute @ ..] => names::field::two(minute, 0, 59),
        _ => None,
    }
}

// What may follow the minute: nothing, or `:SS` and perhaps a fraction. None of the grammar where no second follows `:`, or no digit a point.
#[tactic(auto, unfolding(crate::specs::Read::seconds_at))]
fn seconds_at(t: &[u8]) -> Option<Option<Seconds>>
    ensures { result ≡ seconds_at t.now }
{
    let [b':', seconds @ ..] = t else {
        return Some(None);
    };
    let second = names::field::two(seconds, 0, 60)?;
    let fraction = fraction::fraction_at(text::walk::rest(seconds, 2));
    if fraction::has_digits(fraction) {
        Some(Some(Seconds { second, fraction }))
    } else {
        None
    }
}

// The time at the front.
#[tactic(auto, unfolding(crate::specs::Read::time))]
pub fn read_time(t: &[u8]) -> Option<TimeRead>
    ensures { result ≡ time t.now }
{
    let hour = names::field::two(t, 0, 23)?;
    let minute = minute_at(text::walk::rest(t, 2))?;
    let Some(seconds) = seconds_at(text::walk::rest(t, 5)) else {
        return None;
    };
    Some(TimeRead {
        hour,
        minute,
        seconds,
    })
}

impl TimeRead {
    // The second; 0 where there is none.
    pub fn second(self) -> u8
        ensures { result ≡ second_in self.seconds }
    {
        self.seconds.map_or(0, |s| s.second)
    }

    // The fraction of its second.
    pub fn fraction(self) -> Option<Fraction>
        ensures { result ≡ fraction_in self.seconds }
    {
        self.seconds.and_then(|s| s.fraction)
    }

    // The nanoseconds of the fraction; 0 where there is none.
    pub fn nanos(self) -> u32
        ensures { result ≡ nanos_in (fraction_in self.seconds) }
    {
        self.fraction().map_or(0, |f| f.nanos)
    }

    // How many digits the fraction has.
    pub fn digits(self) -> usize
        ensures { result ≡ digits_in (fraction_in self.seconds) }
    {
        self.fraction().map_or(0, |f| f.digits)
    }

    // What follows the time in a text that it stands at the front of.
    #[tactic(auto, unfolding(crate::specs::Read::past))]
    pub fn past(self, t: &[u8]) -> &[u8]
        ensures { result.now ≡ past self t.now }
    {
        past_seconds(text::walk::rest(t, 5), self.seconds)
    }
}

// What follows a second and its fraction, where they stand.
fn past_seconds(t: &[u8], s: Option<Seconds>) -> &[u8]
    ensures { result.now ≡ past_seconds s t.now }
{
    match s {
        Some(s) => fraction::past_fraction(text::walk::rest(t, 3), s.fraction),
        None => t,
    }
}

// An offset from its sign and the time after it, if there is one. Its second is at most 59.
pub fn offset_of(negative: bool, time: Option<TimeRead>) -> Option<OffsetRead>
    ensures { result ≡ offset_if negative time }
{
    let Some(time) = time else {
        return None;
    };
    if time.second() < 60 {
        Some(OffsetRead { negative, time })
    } else {
        None
    }
}

// What may follow a time: nothing, `Z`, or an offset. None of the grammar where a sign has no offset. It is kept out of its callers, which would
// carry each part of an offset through three answers.
#[inline(never)]
#[tactic(auto, unfolding(crate::specs::Read::utc))]
pub fn read_utc(t: &[u8]) -> Option<Option<UtcRead>>
    ensures { result ≡ utc t.now }
{
    match t {
        [b @ (b'Z' | b'z'), ..] => Some(Some(UtcRead::Z(*b))),
        [b @ (b'+' | b'-'), time @ ..] => {
            let Some(offset) = offset_of(*b == b'-', read_time(time)) else {
                return None;
            };
            Some(Some(UtcRead::Offset(offset)))
        }
        _ => Some(None),
    }
}

// What follows that; the whole text where there is nothing.
pub fn past_utc(t: &[u8], u: Option<UtcRead>) -> &[u8]
    ensures { result.now ≡ past_utc u t.now }
{
    match u {
        Some(UtcRead::Z(_)) => text::walk::rest(t, 1),
        Some(UtcRead::Offset(o)) => o.time.past(text::walk::rest(t, 1)),
        None => t,
    }
}
