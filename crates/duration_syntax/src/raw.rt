// A whole text of document 01's duration grammar, with what it says of each part.
ghost use Rattle.std.specs.Prelude.{◌≡◌};
ghost use Rattle.duration_syntax.specs.Read.{date_at, after_date, time_at, after_time, sign_at, after_sign, in_date, in_time, duration_fits, duration};

use crate::part::{Part, part_at};

#[derive(Clone, Copy, Debug, PartialEq, Eq)]
pub struct DateParts {
    pub years: Option<Part>,
    pub months: Option<Part>,
    pub weeks: Option<Part>,
    pub days: Option<Part>,
}

// The byte of `T`, and the parts after it.
#[derive(Clone, Copy, Debug, PartialEq, Eq)]
pub struct TimeParts {
    pub mark: u8,
    pub hours: Option<Part>,
    pub minutes: Option<Part>,
    pub seconds: Option<Part>,
}

// The byte of the sign and that of `P`; the parts.
#[derive(Clone, Copy, Debug, PartialEq, Eq)]
pub struct DurationRaw {
    pub sign: Option<u8>,
    pub start: u8,
    pub date: DateParts,
    pub time: Option<TimeParts>,
}

// Years, months, weeks and days, each where its turn is, and what follows them.
#[tactic(auto, unfolding(crate::specs::Read::date_at, crate::specs::Read::after_date))]
pub fn date_at(t: &[u8]) -> (DateParts, &[u8])
    ensures date { result.0 ≡ date_at t.now }
    ensures rest { result.1.now ≡ after_date (date_at t.now) t.now }
{
    let (years, after_years) = part_at(t, b'Y', false);
    let (months, after_months) = part_at(after_years, b'M', false);
    let (weeks, after_weeks) = part_at(after_months, b'W', false);
    let (days, after_days) = part_at(after_weeks, b'D', false);
    let date = DateParts {
        years,
        months,
        weeks,
        days,
    };
    (date, after_days)
}

// `T`, hours, minutes and seconds, and what follows them: the whole text where there is no `T`.
#[tactic(auto, unfolding(crate::specs::Read::time_at, crate::specs::Read::time_parts_at))]
pub fn time_at(t: &[u8]) -> (Option<TimeParts>, &[u8])
    ensures time { result.0 ≡ time_at t.now }
    ensures rest { result.1.now ≡ after_time (time_at t.now) t.now }
{
    let [mark @ (b'T' | b't'), parts @ ..] = t else {
        return (None, t);
    };
    let (hours, after_hours) = part_at(parts, b'H', false);
    let (minutes, after_minutes) = part_at(after_hours, b'M', false);
    let (seconds, after_seconds) = part_at(after_minutes, b'S', true);
    let time = TimeParts {
        mark: *mark,
        hours,
        minutes,
        seconds,
    };
    (Some(time), after_seconds)
}

// The byte of a sign at the front, and what follows it.
#[tactic(auto, unfolding(crate::specs::Read::sign_at))]
pub fn sign_at(t: &[u8]) -> (Option<u8>, &[u8])
    ensures sign { result.0 ≡ sign_at t.now }
    ensures rest { result.1.now ≡ after_sign (sign_at t.now) t.now }
{
    match t {
        [sign @ (b'+' | b'-'), unsigned @ ..] => (Some(*sign), unsigned),
        _ => (None, t),
    }
}

pub fn in_date(d: DateParts) -> bool
    ensures { result ≡ in_date d }
{
    d.years.is_some() || d.months.is_some() || d.weeks.is_some() || d.days.is_some()
}

pub fn in_time(t: TimeParts) -> bool
    ensures { result ≡ in_time t }
{
    t.hours.is_some() || t.minutes.is_some() || t.seconds.is_some()
}

// `P`, at least one part, at least one after `T`, and no byte left.
#[tactic(auto, unfolding(crate::specs::Read::duration_fits))]
pub fn duration_fits(d: DurationRaw, left: usize) -> bool
    ensures { result ≡ duration_fits d left }
{
    d.start.to_ascii_uppercase() == b'P'
        && (in_date(d.date) || d.time.is_some_and(in_time))
        && d.time.is_none_or(in_time)
        && left == 0
}

// The whole text.
#[tactic(auto, unfolding(crate::specs::Read::duration, crate::specs::Read::duration_from, crate::specs::Read::duration_of, crate::specs::Read::duration_fits))]
pub fn duration(t: &[u8]) -> Option<DurationRaw>
    ensures { result ≡ duration t.now }
{
    let (sign, unsigned) = sign_at(t);
    let [start, parts @ ..] = unsigned else {
        return None;
    };
    let (date, after_date) = date_at(parts);
    let (time, after_time) = time_at(after_date);
    let raw = DurationRaw {
        sign,
        start: *start,
        date,
        time,
    };
    if duration_fits(raw, after_time.len()) {
        Some(raw)
    } else {
        None
    }
}
