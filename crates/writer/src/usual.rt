// Stamps as most are: a date of a four-digit year and a time to the second or finer with its separators, in UTC or with nothing said of that, and no
// names. Their fields are taken out of the record once, and nothing is asked twice.
ghost use Rattle.std.specs.Prelude.{◌≡◌, IfSome};
ghost use Rattle.text.specs.Out.{Fits, Puts};
ghost use Rattle.text.specs.Digits.{decimal};
ghost use Rattle.date_writer.specs.Date.{year_text, date_text};
ghost use Rattle.writer.specs.Usual.{zulu_of, shows_seconds, clock_text, usual_text, UsualParts, Kept};

use record::{Date, DisplayOffset, Offset, Precision, Stamp, Time, UtcOffset};
use text::out::Out;

// What is kept of such a stamp, its year as a number of four digits.
#[derive(Clone, Copy)]
pub struct Usual {
    pub year: u32,
    pub date: Date,
    pub time: Time,
    pub zulu: bool,
    ghost parts: { UsualParts year date time },
}

// Whether `Z` is shown; None where there is any other offset.
fn zulu_of(p: Option<Offset>) -> Option<bool>
    ensures { result ≡ zulu_of p }
{
    match p {
        None => Some(false),
        Some(
            Offset {
                show: DisplayOffset::Auto,
                offset: UtcOffset::Z,
            },
        ) => Some(true),
        Some(_) => None,
    }
}

fn shows_seconds(p: Precision) -> bool
    ensures { result ≡ shows_seconds p }
{
    !matches!(p, Precision::Minute)
}

// The number of a year of four digits.
#[tactic(auto, using(date_writer::proofs::DateLaws::years))]
fn short_year(year: i32) -> Option<u32>
    ensures { IfSome result (λ n. year_text year ≡ decimal 4 n) }
{
    let n = iso::magnitude(year);
    if year < 0 {
        None
    } else if n < 10000 {
        Some(n)
    } else {
        None
    }
}

pub fn usual_of(s: Stamp) -> Option<Usual>
    ensures { IfSome result (λ u. Kept s u.date u.time u.zulu) }
{
    let (Some(date), Some(time), None, None) = (s.date, s.time, s.zone, s.calendar) else {
        return None;
    };
    let year = short_year(date.year)?;
    let zulu = zulu_of(s.offset)?;
    if date_writer::date::date_ok(date)
        & time_writer::time::time_ok(time)
        & shows_seconds(time.precision)
        & time.include_sep
    {
        Some(Usual {
            year,
            date,
            time,
            zulu,
        })
    } else {
        None
    }
}

impl Usual {
    // `YYYY-MM-DD`
    #[tactic(auto, using(text::proofs::OutLaws::stepwise, date_writer::proofs::DateLaws::date_in), unfolding(date_writer::specs::Date::date_text))]
    fn put_day(self, out: &mut Out<'_>)
        requires { Fits out.old (date_text self.date) }
        ensures { Puts out.old (date_text self.date) out.new }
    {
        out.four(self.year);
        out.byte(b'-');
        out.two(self.date.month);
        out.byte(b'-');
        out.two(self.date.day);
    }

    // `HH:MM:SS`
    #[tactic(auto, using(text::proofs::OutLaws::stepwise, crate::proofs::UsualLaws::clock_in), unfolding(crate::specs::Usual::clock_text))]
    fn put_clock(self, out: &mut Out<'_>)
        requires { Fits out.old (clock_text self.time.clock) }
        ensures { Puts out.old (clock_text self.time.clock) out.new }
    {
        out.two(self.time.clock.hour);
        out.byte(b':');
        out.two(self.time.clock.minute);
        out.byte(b':');
        out.two(self.time.clock.second);
    }

    // The whole.
    #[tactic(auto, using(text::proofs::OutLaws::stepwise, crate::proofs::UsualLaws::usual_time), unfolding(crate::specs::Usual::usual_text))]
    pub fn put(self, out: &mut Out<'_>)
        requires { Fits out.old (usual_text self.date self.time self.zulu) }
        ensures { Puts out.old (usual_text self.date self.time self.zulu) out.new }
    {
        self.put_day(out);
        out.byte(b'T');
        self.put_clock(out);
        precision::put_sub_second(out, self.time.precision, self.time.clock.nanosecond);
        out.mark(self.zulu, b'Z');
    }
}
