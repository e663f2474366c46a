// Times of day: hour and minute, the second unless Minute, the fraction as the precision asks.
ghost use Rattle.std.specs.Prelude.{◌≡◌};
ghost use Rattle.text.specs.Put.{Count};
ghost use Rattle.text.specs.Out.{Fits, Puts};
ghost use Rattle.text.specs.Answer.{length_of, Wrote};
ghost use Rattle.time_writer.specs.Time.{seconds, unless_minute, time_text, clock_ok, time_ok, time_judged};

use record::{Clock, Precision, Time};
use text::Refusal;
use text::out::Out;

#[tactic(auto, using(text::proofs::OutLaws::stepwise), unfolding(crate::specs::Time::seconds))]
fn put_seconds(out: &mut Out<'_>, t: Time)
    requires { Fits out.old (seconds t) }
    ensures { Puts out.old (seconds t) out.new }
{
    out.mark(t.include_sep, b':');
    out.pair(t.clock.second as u32);
    precision::put_sub_second(out, t.precision, t.clock.nanosecond);
}

fn put_unless_minute(out: &mut Out<'_>, t: Time)
    requires { Fits out.old (unless_minute t.precision (seconds t)) }
    ensures { Puts out.old (unless_minute t.precision (seconds t)) out.new }
{
    match t.precision {
        Precision::Minute => {}
        Precision::Auto | Precision::Digit(_) => put_seconds(out, t),
    }
}

#[tactic(auto, using(text::proofs::OutLaws::stepwise), unfolding(crate::specs::Time::time_text))]
pub fn put_time(out: &mut Out<'_>, t: Time)
    requires { Fits out.old (time_text t) }
    ensures { Puts out.old (time_text t) out.new }
{
    out.pair(t.clock.hour as u32);
    out.mark(t.include_sep, b':');
    out.pair(t.clock.minute as u32);
    put_unless_minute(out, t);
}

#[tactic(auto, using(text::proofs::OutLaws::stepwise), unfolding(crate::specs::Time::seconds))]
fn seconds_bytes(t: Time) -> usize
    ensures { Count (seconds t) 13 result }
{
    text::put::mark_bytes(t.include_sep, b':')
        + 2
        + precision::sub_second_bytes(t.precision, t.clock.nanosecond)
}

fn unless_minute_bytes(t: Time) -> usize
    ensures { Count (unless_minute t.precision (seconds t)) 13 result }
{
    match t.precision {
        Precision::Minute => 0,
        Precision::Auto | Precision::Digit(_) => seconds_bytes(t),
    }
}

#[tactic(auto, using(text::proofs::OutLaws::stepwise), unfolding(crate::specs::Time::time_text))]
pub fn time_bytes(t: Time) -> usize
    ensures { Count (time_text t) 18 result }
{
    2 + text::put::mark_bytes(t.include_sep, b':') + 2 + unless_minute_bytes(t)
}

#[tactic(auto, unfolding(crate::specs::Time::clock_ok))]
fn clock_ok(c: Clock) -> bool
    ensures { result ≡ clock_ok c }
{
    (c.hour <= 23) & (c.minute <= 59) & (c.second <= 59) & (c.nanosecond <= 999_999_999)
}

#[tactic(auto, unfolding(crate::specs::Time::time_ok))]
pub fn time_ok(t: Time) -> bool
    ensures { result ≡ time_ok t }
{
    clock_ok(t.clock) & precision::precision_ok(t.precision)
}

// The exact length of a time's text; 2 for a field out of its range, shown or hidden.
#[tactic(auto, unfolding(crate::specs::Time::time_judged))]
pub fn time_length(t: Time) -> Result<usize, Refusal>
    ensures { result ≡ length_of (time_judged t) }
{
    text::check(time_ok(t), Refusal::BadField)?;
    Ok(time_bytes(t))
}

// Writes a time's text to the front of a buffer; refusals 2, then 1.
#[tactic(auto, using(text::proofs::OutLaws::at_front), unfolding(crate::specs::Time::time_judged))]
pub fn write_time(buf: &mut [u8], t: Time) -> Result<usize, Refusal>
    ensures { Wrote (time_judged t) buf.old buf.new result }
{
    text::write_with(buf, time_length(t), |out| put_time(out, t))
}
