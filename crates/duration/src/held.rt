// What a duration holds: its numbers, where an absent part counts as 0, its settings, and the tests that it has to pass.
ghost use Rattle.std.specs.Prelude.{true, ◌≡◌};
ghost use Rattle.duration.specs.Duration.{date_numbers, time_numbers, in_seconds, negative, minute, digit, any_date, any_time, time_shown, seconds_shown, duration_ok, duration_parts_ok};

use record::{DateDuration, Duration, Precision, Sign, TimeDuration};

// The numbers of a time, whatever its largest unit; the fraction is in nanoseconds.
#[derive(Clone, Copy, Debug, PartialEq, Eq)]
pub struct TimeNumbers {
    pub hours: u64,
    pub minutes: u64,
    pub seconds: u64,
    pub fraction: u32,
}

const NO_DATE: DateDuration = DateDuration {
    years: 0,
    months: 0,
    weeks: 0,
    days: 0,
};

const NO_TIME: TimeNumbers = TimeNumbers {
    hours: 0,
    minutes: 0,
    seconds: 0,
    fraction: 0,
};

pub fn date_numbers(date: Option<DateDuration>) -> DateDuration
    ensures { result ≡ date_numbers date }
{
    date.unwrap_or(NO_DATE)
}

pub fn time_numbers(time: Option<TimeDuration>) -> TimeNumbers
    ensures { result ≡ time_numbers time }
{
    match time {
        None => NO_TIME,
        Some(TimeDuration::Hours { hours, fraction }) => TimeNumbers {
            hours,
            fraction,
            ..NO_TIME
        },
        Some(
            TimeDuration::Minutes {
                hours,
                minutes,
                fraction,
            },
        ) => TimeNumbers {
            hours,
            minutes,
            fraction,
            ..NO_TIME
        },
        Some(
            TimeDuration::Seconds {
                hours,
                minutes,
                seconds,
                fraction,
            },
        ) => TimeNumbers {
            hours,
            minutes,
            seconds,
            fraction,
        },
    }
}

fn in_seconds(time: Option<TimeDuration>) -> bool
    ensures { result ≡ in_seconds time }
{
    matches!(time, Some(TimeDuration::Seconds { .. }))
}

pub fn negative(sign: Sign) -> bool
    ensures { result ≡ negative sign }
{
    sign == Sign::Negative
}

fn minute(p: Precision) -> bool
    ensures { result ≡ minute p }
{
    p == Precision::Minute
}

fn digit(p: Precision) -> bool
    ensures { result ≡ digit p }
{
    matches!(p, Precision::Digit(_))
}

fn any_date(n: DateDuration) -> bool
    ensures { result ≡ any_date n }
{
    n != NO_DATE
}

fn any_time(n: TimeNumbers) -> bool
    ensures { result ≡ any_time n }
{
    n != NO_TIME
}

// The seconds are written.
#[tactic(auto, using(crate::proofs::DurationLaws::absent), unfolding(crate::specs::Duration::seconds_shown))]
pub fn seconds_shown(d: Duration) -> bool
    ensures { result ≡ seconds_shown d }
{
    let n = time_numbers(d.time);
    let alone = d.date.is_none() & (n.hours == 0) & (n.minutes == 0);
    in_seconds(d.time) & ((n.seconds != 0) | (n.fraction != 0) | alone | digit(d.precision))
}

// A unit of the time is written, given whether the seconds are.
pub fn time_shown(shown: bool, n: TimeNumbers) -> bool
    ensures { result ≡ time_shown shown n }
{
    (n.hours != 0) | (n.minutes != 0) | shown
}

// The time of a duration as its text shows it: its numbers, whether the seconds are written, and their precision.
#[derive(Clone, Copy, Debug, PartialEq, Eq)]
pub struct ShownTime {
    pub numbers: TimeNumbers,
    pub seconds: bool,
    pub precision: Precision,
}

pub fn shown_time(d: Duration) -> ShownTime
    ensures numbers { result.numbers ≡ time_numbers d.time }
    ensures seconds { result.seconds ≡ seconds_shown d }
    ensures precision { result.precision ≡ d.precision }
{
    ShownTime {
        numbers: time_numbers(d.time),
        seconds: seconds_shown(d),
        precision: d.precision,
    }
}

// Each field is in its range.
#[tactic(auto, unfolding(crate::specs::Duration::duration_ok))]
pub fn duration_ok(d: Duration) -> bool
    ensures { result ≡ duration_ok d }
{
    let n = time_numbers(d.time);
    (n.fraction <= 999_999_999)
        & precision::precision_ok(d.precision)
        & !(minute(d.precision) & in_seconds(d.time))
}

// The parts go together, and there is one to write.
#[tactic(auto, using(crate::proofs::DurationLaws::some_parts), unfolding(crate::specs::Duration::duration_parts_ok))]
pub fn duration_parts_ok(d: Duration) -> bool
    ensures { result ≡ duration_parts_ok d }
{
    let t = time_numbers(d.time);
    let any = any_date(date_numbers(d.date));
    (any | time_shown(seconds_shown(d), t))
        & (!negative(d.sign) | any | any_time(t))
        & (in_seconds(d.time) | (t.fraction == 0))
}
