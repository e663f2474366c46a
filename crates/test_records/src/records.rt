// The records of vector lines: runs of fields. A record is none where a field of it does not read. The names of a line are decoded into
// one text, which has room for every text of a line.
use record::{
    Calendar, Clock, Date, DateDuration, DisplayCalendar, DisplayOffset, DisplayTimeZone, Duration,
    Name, Offset, Precision, Sign, SignedTime, Stamp, Time, TimeDuration, UtcOffset, Zone,
};
use test_lines::fields::{Fields, Text};

// A flag that says whether the part is there, and the fields of the part, which read even where it is not.
fn part<'a, T: Drop, F: FnOnce(&mut Fields<'a>) -> Option<T>>(
    fields: &mut Fields<'a>,
    read: F,
) -> Option<Option<T>>
    requires { F.IsAlwaysCallable read }
{
    let there = fields.flag()?;
    let value = read(fields)?;
    Some(there.then_some(value))
}

// year month day
pub fn date(fields: &mut Fields) -> Option<Date> {
    Some(Date {
        year: fields.integer()?,
        month: fields.number()?,
        day: fields.number()?,
    })
}

// prec: -1 Auto, -2 Minute, d from 0 on Digit(d)
pub fn precision(fields: &mut Fields) -> Option<Precision> {
    let n = fields.signed()?;
    match (n.negative, n.magnitude) {
        (true, 1) => Some(Precision::Auto),
        (true, 2) => Some(Precision::Minute),
        (true, _) => None,
        (false, digits) => Some(Precision::Digit(u8::try_from(digits).ok()?)),
    }
}

// sign: 1 Positive, 0 Zero, -1 Negative
pub fn sign(fields: &mut Fields) -> Option<Sign> {
    let n = fields.signed()?;
    match (n.negative, n.magnitude) {
        (_, 0) => Some(Sign::Zero),
        (false, 1) => Some(Sign::Positive),
        (true, 1) => Some(Sign::Negative),
        _ => None,
    }
}

// hour min sec nano
fn clock(fields: &mut Fields) -> Option<Clock> {
    Some(Clock {
        hour: fields.number()?,
        minute: fields.number()?,
        second: fields.number()?,
        nanosecond: fields.number()?,
    })
}

// hour min sec nano prec sep
pub fn time(fields: &mut Fields) -> Option<Time> {
    Some(Time {
        clock: clock(fields)?,
        precision: precision(fields)?,
        include_sep: fields.flag()?,
    })
}

// sign hour min sec nano prec sep
fn signed_time(fields: &mut Fields) -> Option<SignedTime> {
    Some(SignedTime {
        sign: sign(fields)?,
        time: time(fields)?,
    })
}

// show: 0 Never, 1 Auto, 2 Always (calendar only), 3 Critical (not an offset)
fn zone_show(fields: &mut Fields) -> Option<DisplayTimeZone> {
    match fields.number::<u8>()? {
        0 => Some(DisplayTimeZone::Never),
        1 => Some(DisplayTimeZone::Auto),
        3 => Some(DisplayTimeZone::Critical),
        _ => None,
    }
}

fn calendar_show(fields: &mut Fields) -> Option<DisplayCalendar> {
    match fields.number::<u8>()? {
        0 => Some(DisplayCalendar::Never),
        1 => Some(DisplayCalendar::Auto),
        2 => Some(DisplayCalendar::Always),
        3 => Some(DisplayCalendar::Critical),
        _ => None,
    }
}

fn offset_show(fields: &mut Fields) -> Option<DisplayOffset> {
    match fields.number::<u8>()? {
        0 => Some(DisplayOffset::Never),
        1 => Some(DisplayOffset::Auto),
        _ => None,
    }
}

// show z sign hour min sec nano prec sep; where z is 1, the rest plays no part
pub fn offset(fields: &mut Fields) -> Option<Offset> {
    let show = offset_show(fields)?;
    let z = fields.flag()?;
    let signed = signed_time(fields)?;
    let offset = if z {
        UtcOffset::Z
    } else {
        UtcOffset::Offset(signed)
    };
    Some(Offset { show, offset })
}

// TEXT PLACE LEN: place and length are as they stand.
pub fn name(fields: &mut Fields, text: &mut Text) -> Option<Name> {
    fields.text_after(text)?;
    Some(Name {
        at: fields.number()?,
        len: fields.number()?,
    })
}

// A name among several in one text, as a place in all of it. One that does not lie in its own text gets a place past every text.
fn shared_name(fields: &mut Fields, texts: &mut Text) -> Option<Name> {
    let start = texts.len();
    let Name { at, len } = name(fields, texts)?;
    let place = start.saturating_add(at);
    let lies_inside = place.saturating_add(len) <= texts.len();
    Some(Name {
        at: if lies_inside { place } else { usize::MAX },
        len,
    })
}

// show NAME, the only name of its line
pub fn zone(fields: &mut Fields, text: &mut Text) -> Option<Zone> {
    Some(Zone {
        show: zone_show(fields)?,
        name: name(fields, text)?,
    })
}

pub fn calendar(fields: &mut Fields, text: &mut Text) -> Option<Calendar> {
    Some(Calendar {
        show: calendar_show(fields)?,
        name: name(fields, text)?,
    })
}

// The fields of a stamp, up to the calendar's name. Both names become places in the one text.
pub fn stamp(fields: &mut Fields, texts: &mut Text) -> Option<Stamp> {
    Some(Stamp {
        date: part(fields, date)?,
        time: part(fields, time)?,
        offset: part(fields, offset)?,
        zone: part(fields, |fields| {
            Some(Zone {
                show: zone_show(fields)?,
                name: shared_name(fields, texts)?,
            })
        })?,
        calendar: part(fields, |fields| {
            Some(Calendar {
                show: calendar_show(fields)?,
                name: shared_name(fields, texts)?,
            })
        })?,
    })
}

// years months weeks days
fn date_duration(fields: &mut Fields) -> Option<DateDuration> {
    Some(DateDuration {
        years: fields.number()?,
        months: fields.number()?,
        weeks: fields.number()?,
        days: fields.number()?,
    })
}

// form hours minutes seconds hasfraction fraction, where form is 0 none, 1 Hours, 2 Minutes, 3 Seconds; an absent fraction is 0
fn time_duration(fields: &mut Fields) -> Option<Option<TimeDuration>> {
    let form = fields.number::<u8>()?;
    let hours = fields.number()?;
    let minutes = fields.number()?;
    let seconds = fields.number()?;
    let fraction = part(fields, |fields| fields.number())?.unwrap_or(0);
    match form {
        0 => Some(None),
        1 => Some(Some(TimeDuration::Hours { hours, fraction })),
        2 => Some(Some(TimeDuration::Minutes {
            hours,
            minutes,
            fraction,
        })),
        3 => Some(Some(TimeDuration::Seconds {
            hours,
            minutes,
            seconds,
            fraction,
        })),
        _ => None,
    }
}

// prec sign, then the date and the time
pub fn duration(fields: &mut Fields) -> Option<Duration> {
    Some(Duration {
        precision: precision(fields)?,
        sign: sign(fields)?,
        date: part(fields, date_duration)?,
        time: time_duration(fields)?,
    })
}
