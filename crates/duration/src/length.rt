// How many bytes a duration's text has.
ghost use Rattle.std.specs.Prelude.{cond, [], ◌≡◌, ℕ, ◌≤◌, length};
ghost use Rattle.text.specs.Put.{Count};
ghost use Rattle.duration.specs.Duration.{unit, date_units, seconds_text, time_units, designated, duration_text};

use crate::held::ShownTime;
use record::{DateDuration, Duration};

// A unit, whatever its letter.
#[tactic(auto, using(text::proofs::OutLaws::stepwise, crate::proofs::DurationLaws::unit_some, crate::proofs::DurationLaws::unit_none))]
fn unit_bytes(n: u64) -> usize
    ensures { (result ≤ 21) × ((letter : ℕ) → result ≡ length (unit n letter)) }
{
    if n == 0 {
        0
    } else {
        text::put::number_bytes(n) + 1
    }
}

fn date_bytes(n: DateDuration) -> usize
    ensures { Count (date_units n) 54 result }
{
    unit_bytes(n.years as u64)
        + unit_bytes(n.months as u64)
        + unit_bytes(n.weeks as u64)
        + unit_bytes(n.days)
}

#[tactic(auto, using(text::proofs::OutLaws::stepwise), unfolding(crate::specs::Duration::seconds_text))]
fn seconds_bytes(t: ShownTime) -> usize
    ensures { Count (cond t.seconds (seconds_text t.precision t.numbers) []) 31 result }
{
    if t.seconds {
        text::put::number_bytes(t.numbers.seconds)
            + precision::sub_second_bytes(t.precision, t.numbers.fraction)
            + 1
    } else {
        0
    }
}

#[tactic(auto, using(text::proofs::OutLaws::stepwise, crate::proofs::DurationLaws::time_as))]
fn time_bytes(t: ShownTime) -> usize
    ensures { Count (designated (time_units t.precision t.seconds t.numbers)) 74 result }
{
    let any = crate::held::time_shown(t.seconds, t.numbers);
    text::put::mark_bytes(any, b'T')
        + unit_bytes(t.numbers.hours)
        + unit_bytes(t.numbers.minutes)
        + seconds_bytes(t)
}

// 130 is the longest.
#[tactic(auto, using(text::proofs::OutLaws::stepwise), unfolding(crate::specs::Duration::duration_text, crate::specs::Duration::parts_text))]
pub fn duration_bytes(d: Duration) -> usize
    ensures { Count (duration_text d) 130 result }
{
    let minus = crate::held::negative(d.sign);
    let date = crate::held::date_numbers(d.date);
    let time = crate::held::shown_time(d);
    text::put::mark_bytes(minus, b'-') + 1 + date_bytes(date) + time_bytes(time)
}
