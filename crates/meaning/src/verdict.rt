// Why a text of the grammar is refused: refusals 7 to 11 in document 01's order.
ghost use Rattle.std.specs.Prelude.{◌≡◌, map};
ghost use Rattle.std.specs.Char.{to_ascii_lowercase};
ghost use Rattle.text.specs.Walk.{same_bytes};
ghost use Rattle.names.specs.Name.{iso8601};
ghost use Rattle.meaning.specs.Verdict.{verdict, utc_digits, clock_long, long_fraction, other_calendar, late_date, late_part, faults_of, answer};

use super::{Faults, Parts};
use grammar::ClockRead;
use record::{Date, Reading};
use tail_syntax::NameRead;
use text::Refusal;
use time_syntax::UtcRead;

impl Faults {
    // The order of the refusals.
    #[tactic(auto, unfolding(crate::specs::Verdict::verdict))]
    pub fn verdict(self) -> Result<(), Refusal>
        ensures { result ≡ verdict self }
    {
        if self.unknown {
            Err(Refusal::UnknownCritical)
        } else if self.fraction {
            Err(Refusal::LongFraction)
        } else if self.calendar {
            Err(Refusal::OtherCalendar)
        } else if self.clash {
            Err(Refusal::CalendarClash)
        } else if self.day {
            Err(Refusal::BadDay)
        } else {
            Ok(())
        }
    }
}

fn utc_digits(u: UtcRead) -> usize
    ensures { result ≡ utc_digits u }
{
    match u {
        UtcRead::Z(_) => 0,
        UtcRead::Offset(o) => o.time.digits(),
    }
}

// More than nine digits, in a time or in an offset.
fn clock_long(c: ClockRead) -> bool
    ensures { result ≡ clock_long c }
{
    (9 < c.time.digits()) | c.utc.is_some_and(|u| 9 < utc_digits(u))
}

// `iso8601`, ASCII case ignored.
fn is_iso_in_any_case(t: &[u8]) -> bool
    ensures { result ≡ same_bytes (map to_ascii_lowercase t.now) iso8601 }
{
    t.eq_ignore_ascii_case(b"iso8601".as_slice())
}

// There is a `u-ca`, and the first is another calendar than iso8601.
#[tactic(auto, unfolding(crate::specs::Verdict::other_calendar))]
pub fn other_calendar(calendar: Option<NameRead>, t: &[u8]) -> bool
    ensures { result ≡ other_calendar calendar t.now }
{
    calendar.is_some() & !is_iso_in_any_case(tail_syntax::part_of(t, calendar))
}

// The day is not in its month.
pub fn late_date(d: Date) -> bool
    ensures { result ≡ late_date d }
{
    !iso::is_valid_date(d.year, d.month, d.day)
}

impl Parts {
    // `calendar` says that its calendar is one that such a text may not have.
    #[tactic(auto, unfolding(crate::specs::Verdict::faults_of))]
    fn faults(self, calendar: bool) -> Faults
        ensures { result ≡ faults_of calendar self }
    {
        Faults {
            unknown: self.tail.notes.unknown,
            fraction: self.clock.is_some_and(clock_long),
            calendar,
            clash: self.tail.notes.clash,
            day: self.date.is_some_and(late_date),
        }
    }

    // What a text of n bytes is read as, of which these are the parts.
    pub fn read(self, n: usize, calendar: bool) -> Reading
        ensures { result ≡ answer calendar n self }
    {
        self.faults(calendar).verdict()?;
        Ok(self.shown(n))
    }
}
