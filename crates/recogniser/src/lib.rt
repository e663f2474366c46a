// The recogniser: whether a text is one that the writer of stamps writes, for some record with a date, separators on, under some settings. What is
// read of the text is tested to be in the writer's one form; a text longer than any stamp is answered at once.
#![tactic(auto)]

ghost use Rattle.std.specs.Prelude.{◌≡◌};
ghost use Rattle.meaning.specs.Shown.{Small};
ghost use Rattle.recogniser.specs.Plain.{plain_date, plain_fraction, plain_time, plain_utc, plain_clock, plain_name, plain_notes, plain_tail, plain};
ghost use Rattle.recogniser.specs.Recognised.{Recognised};

use date_syntax::DateRead;
use grammar::{ClockRead, StampRead};
use meaning::shown::shown_date;
use meaning::verdict::late_date;
use tail_syntax::{NameRead, Notes, Tail};
use time_syntax::fraction::Fraction;
use time_syntax::{TimeRead, UtcRead};

// The most bytes of a stamp, and of a name.
const LONGEST_STAMP: usize = 190;

const LONGEST_NAME: usize = 64;

// A year of four digits where they suffice.
fn plain_date(d: DateRead) -> bool
    ensures { result ≡ plain_date d }
{
    !d.wide | d.negative | (10000 <= d.year)
}

// A fraction with `.` and at most nine digits.
fn plain_fraction(f: Fraction) -> bool
    ensures { result ≡ plain_fraction f }
{
    (f.point == b'.') & (f.digits <= 9)
}

fn plain_time(t: TimeRead) -> bool
    ensures { result ≡ plain_time t }
{
    (t.second() <= 59) & t.fraction().is_none_or(plain_fraction)
}

fn plain_utc(u: UtcRead) -> bool
    ensures { result ≡ plain_utc u }
{
    match u {
        UtcRead::Z(b) => b == b'Z',
        UtcRead::Offset(o) => o.time.fraction().is_none_or(plain_fraction),
    }
}

// `T`, a time and how it stands to UTC.
#[tactic(auto, unfolding(crate::specs::Plain::plain_clock))]
fn plain_clock(c: ClockRead) -> bool
    ensures { result ≡ plain_clock c }
{
    matches!(c.lead, Some(b'T')) & plain_time(c.time) & c.utc.is_none_or(plain_utc)
}

fn plain_name(n: NameRead) -> bool
    ensures { result ≡ plain_name n }
{
    n.size <= LONGEST_NAME
}

// No annotation besides one calendar.
fn plain_notes(n: Notes) -> bool
    ensures { result ≡ plain_notes n }
{
    !n.more & n.calendar.is_none_or(plain_name)
}

fn plain_tail(t: Tail) -> bool
    ensures { result ≡ plain_tail t }
{
    t.zone.is_none_or(plain_name) & plain_notes(t.notes)
}

#[tactic(auto, unfolding(crate::specs::Plain::plain))]
fn plain_stamp(w: StampRead) -> bool
    requires { Small w.date }
    ensures { result ≡ plain w }
{
    plain_date(w.date)
        & !late_date(shown_date(w.date))
        & w.clock.is_none_or(plain_clock)
        & plain_tail(w.tail)
}

// Yes exactly if some accepted stamp with a date, separators on, writes the text under some settings.
pub fn recognise(t: &[u8]) -> bool
    ensures { Recognised t.now result }
{
    (t.len() <= LONGEST_STAMP) && grammar::whole_stamp(t).is_some_and(plain_stamp)
}
