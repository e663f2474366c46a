// What was read, in the words of a vector line: the refusal's number; or 0 and what was read, where the fields of an absent part are 0.
use duration_reader::DurationShown;
use record::{Clock, Date, MarkedName, Shown, ShownOffset, Sign};
use std::fmt;
use text::Refusal;

// A value in these words.
#[derive(Clone, Copy)]
pub struct Words<T>(pub T);

// hasdate year month day
impl fmt::Display for Words<Option<Date>> {
    fn fmt<W: fmt::Write>(&self, f: &mut fmt::Formatter<W>) -> fmt::Result {
        match self.0 {
            Some(Date { year, month, day }) => write!(f, "1 {year} {month} {day}"),
            None => write!(f, "0 0 0 0"),
        }
    }
}

// hour min sec nano
impl fmt::Display for Words<Clock> {
    fn fmt<W: fmt::Write>(&self, f: &mut fmt::Formatter<W>) -> fmt::Result {
        let Clock {
            hour,
            minute,
            second,
            nanosecond,
        } = self.0;
        write!(f, "{hour} {minute} {second} {nanosecond}")
    }
}

// hastime hour min sec nano
impl fmt::Display for Words<Option<Clock>> {
    fn fmt<W: fmt::Write>(&self, f: &mut fmt::Formatter<W>) -> fmt::Result {
        match self.0 {
            Some(clock) => write!(f, "1 {}", Words(clock)),
            None => write!(f, "0 0 0 0 0"),
        }
    }
}

// okind osign ohour omin osec onano
impl fmt::Display for Words<Option<ShownOffset>> {
    fn fmt<W: fmt::Write>(&self, f: &mut fmt::Formatter<W>) -> fmt::Result {
        match self.0 {
            Some(ShownOffset::At(offset)) => {
                let sign = if offset.negative { "-1" } else { "1" };
                write!(f, "2 {sign} {}", Words(offset.clock))
            }
            Some(ShownOffset::Z) => write!(f, "1 0 0 0 0 0"),
            None => write!(f, "0 0 0 0 0 0"),
        }
    }
}

// place len critical
impl fmt::Display for Words<Option<MarkedName>> {
    fn fmt<W: fmt::Write>(&self, f: &mut fmt::Formatter<W>) -> fmt::Result {
        match self.0 {
            Some(MarkedName { name, critical }) => {
                write!(f, "{} {} {}", name.at, name.len, u8::from(critical))
            }
            None => write!(f, "0 0 0"),
        }
    }
}

// READ
impl fmt::Display for Words<Shown> {
    fn fmt<W: fmt::Write>(&self, f: &mut fmt::Formatter<W>) -> fmt::Result {
        let shown = self.0;
        write!(
            f,
            "{} {} {} {} {}",
            Words(shown.date),
            Words(shown.time),
            Words(shown.offset),
            Words(shown.zone),
            Words(shown.calendar)
        )
    }
}

// sign
impl fmt::Display for Words<Sign> {
    fn fmt<W: fmt::Write>(&self, f: &mut fmt::Formatter<W>) -> fmt::Result {
        match self.0 {
            Sign::Negative => write!(f, "-1"),
            Sign::Zero => write!(f, "0"),
            Sign::Positive => write!(f, "1"),
        }
    }
}

// sign years months weeks days hours minutes seconds nanos
impl fmt::Display for Words<DurationShown> {
    fn fmt<W: fmt::Write>(&self, f: &mut fmt::Formatter<W>) -> fmt::Result {
        let shown = self.0;
        write!(
            f,
            "{} {} {} {} {} {} {} {} {}",
            Words(shown.sign),
            shown.years,
            shown.months,
            shown.weeks,
            shown.days,
            shown.hours,
            shown.minutes,
            shown.seconds,
            shown.nanoseconds
        )
    }
}

// What was read, or the refusal's number.
impl<T: Copy> fmt::Display for Words<Result<T, Refusal>>
where
    Words<T>: fmt::Display,
{
    fn fmt<W: fmt::Write>(&self, f: &mut fmt::Formatter<W>) -> fmt::Result {
        match self.0 {
            Ok(shown) => write!(f, "0 {}", Words(shown)),
            Err(refusal) => write!(f, "{}", u8::from(refusal)),
        }
    }
}
