// Inner writers of a duration's text.
ghost use Rattle.std.specs.Prelude.{cond, []};
ghost use Rattle.text.specs.Out.{Fits, Puts};
ghost use Rattle.duration.specs.Duration.{unit, date_units, seconds_text, time_units, designated, duration_text};

use crate::held::ShownTime;
use record::{DateDuration, Duration};
use text::out::Out;

// A number and the letter of its unit; nothing for 0.
#[tactic(auto, using(text::proofs::OutLaws::stepwise, crate::proofs::DurationLaws::unit_some, crate::proofs::DurationLaws::unit_none))]
fn put_unit(out: &mut Out<'_>, n: u64, letter: u8)
    requires { Fits out.old (unit n letter) }
    ensures { Puts out.old (unit n letter) out.new }
{
    if n != 0 {
        out.number(n);
        out.byte(letter);
    }
}

#[tactic(auto, using(text::proofs::OutLaws::stepwise), unfolding(crate::specs::Duration::date_units))]
fn put_date(out: &mut Out<'_>, n: DateDuration)
    requires { Fits out.old (date_units n) }
    ensures { Puts out.old (date_units n) out.new }
{
    put_unit(out, n.years as u64, b'Y');
    put_unit(out, n.months as u64, b'M');
    put_unit(out, n.weeks as u64, b'W');
    put_unit(out, n.days, b'D');
}

// The seconds with their fraction, if they are written.
#[tactic(auto, using(text::proofs::OutLaws::stepwise), unfolding(crate::specs::Duration::seconds_text))]
fn put_seconds(out: &mut Out<'_>, t: ShownTime)
    requires { Fits out.old (cond t.seconds (seconds_text t.precision t.numbers) []) }
    ensures { Puts out.old (cond t.seconds (seconds_text t.precision t.numbers) []) out.new }
{
    if t.seconds {
        out.number(t.numbers.seconds);
        precision::put_sub_second(out, t.precision, t.numbers.fraction);
        out.byte(b'S');
    }
}

#[tactic(auto, using(text::proofs::OutLaws::stepwise, crate::proofs::DurationLaws::time_as))]
fn put_time(out: &mut Out<'_>, t: ShownTime)
    requires { Fits out.old (designated (time_units t.precision t.seconds t.numbers)) }
    ensures { Puts out.old (designated (time_units t.precision t.seconds t.numbers)) out.new }
{
    out.mark(crate::held::time_shown(t.seconds, t.numbers), b'T');
    put_unit(out, t.numbers.hours, b'H');
    put_unit(out, t.numbers.minutes, b'M');
    put_seconds(out, t);
}

#[tactic(auto, using(text::proofs::OutLaws::stepwise), unfolding(crate::specs::Duration::duration_text, crate::specs::Duration::parts_text))]
pub fn put_duration(out: &mut Out<'_>, d: Duration)
    requires { Fits out.old (duration_text d) }
    ensures { Puts out.old (duration_text d) out.new }
{
    out.mark(crate::held::negative(d.sign), b'-');
    out.byte(b'P');
    put_date(out, crate::held::date_numbers(d.date));
    put_time(out, crate::held::shown_time(d));
}
