// What is read of a text: the parts that it shows.
ghost use Rattle.std.specs.Prelude.{◌≡◌};
ghost use Rattle.meaning.specs.Shown.{Small, shown_date, shown_month_day, second, clock_of, shown_time, shown_utc, marked_name, shown};

use super::Parts;
use date_syntax::{DateRead, MonthDayRead};
use record::{Clock, Date, MarkedName, Name, Shown, ShownOffset, SignedClock};
use tail_syntax::NameRead;
use time_syntax::{TimeRead, UtcRead};

// A date of a text has at most six digits of its year.
pub fn shown_date(d: DateRead) -> Date
    requires { Small d }
    ensures { result ≡ shown_date d }
{
    let year = d.year as i32;
    Date {
        year: if d.negative { -year } else { year },
        month: d.month,
        day: d.day,
    }
}

// A month-day text has the year 1972.
pub fn shown_month_day(d: MonthDayRead) -> Date
    ensures { result ≡ shown_month_day d }
{
    Date {
        year: 1972,
        month: d.month,
        day: d.day,
    }
}

// Second 60 is read as 59.
pub fn second_of(s: u8) -> u8
    ensures { result ≡ second s }
{
    s.min(59)
}

// A time as it stands; absent seconds and fractions are 0.
fn clock_of(t: TimeRead) -> Clock
    ensures { result ≡ clock_of t }
{
    Clock {
        hour: t.hour,
        minute: t.minute,
        second: t.second(),
        nanosecond: t.nanos(),
    }
}

pub fn shown_time(t: TimeRead) -> Clock
    ensures { result ≡ shown_time t }
{
    Clock {
        second: second_of(t.second()),
        ..clock_of(t)
    }
}

pub fn shown_utc(u: UtcRead) -> ShownOffset
    ensures { result ≡ shown_utc u }
{
    match u {
        UtcRead::Z(_) => ShownOffset::Z,
        UtcRead::Offset(o) => ShownOffset::At(SignedClock {
            negative: o.negative,
            clock: clock_of(o.time),
        }),
    }
}

// A name as a place and a length in the text of n bytes that it was read of.
fn marked_name(n: usize, name: NameRead) -> MarkedName
    ensures { result ≡ marked_name n name }
{
    MarkedName {
        name: Name {
            at: n.saturating_sub(name.left),
            len: name.size,
        },
        critical: name.critical,
    }
}

impl Parts {
    // The whole, of a text of n bytes.
    #[tactic(auto, unfolding(crate::specs::Shown::shown))]
    pub fn shown(self, n: usize) -> Shown
        ensures { result ≡ shown n self }
    {
        Shown {
            date: self.date,
            time: self.clock.map(|c| shown_time(c.time)),
            offset: self.clock.and_then(|c| c.utc).map(shown_utc),
            zone: self.tail.zone.map(|z| marked_name(n, z)),
            calendar: self.tail.notes.calendar.map(|c| marked_name(n, c)),
        }
    }
}
