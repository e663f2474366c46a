// Records made of numbers.
use stamp::{
    Calendar, Clock, Date, DateDuration, DisplayCalendar, DisplayOffset, DisplayTimeZone, Duration,
    Name, Offset, Precision, Sign, SignedTime, Stamp, Time, TimeDuration, UtcOffset, Zone,
};

// A stamp is a year and so many words.
pub const WORDS: usize = 24;

// The words in the order of bench/fields.h. A name's word is a place, and then a length.
#[derive(Clone, Copy, Debug, PartialEq, Eq)]
enum Field {
    Dated,
    Month,
    Day,
    Timed,
    Hour,
    Minute,
    Second,
    Nanosecond,
    Precision,
    Offset,
    OffsetHour,
    OffsetMinute,
    OffsetSecond,
    OffsetNanosecond,
    OffsetPrecision,
    Zone,
    ZoneAt,
    ZoneLength,
    Calendar,
    CalendarAt,
    CalendarLength,
    Compact,
    OffsetCompact,
}

// A number of a list; 0 where it is not there.
fn number<T: Copy + Default>(numbers: &[T], at: usize) -> T {
    numbers.get(at).copied().unwrap_or_default()
}

// The number of a precision: 10 Auto, 11 Minute, any other number that count of digits.
pub fn precision_of(n: u8) -> Precision {
    match n {
        10 => Precision::Auto,
        11 => Precision::Minute,
        _ => Precision::Digit(n),
    }
}

// A date and a time beside it.
pub fn moment_of(date: Date, clock: Clock, precision: Precision) -> Stamp {
    let time = Time {
        clock,
        precision,
        include_sep: true,
    };
    Stamp {
        date: Some(date),
        time: Some(time),
        ..Stamp::empty()
    }
}

#[derive(Clone, Copy, Debug, PartialEq, Eq)]
pub struct Words<'a>(pub &'a [u32]);

impl Words<'_> {
    fn word(self, field: Field) -> u32 {
        number(self.0, field as usize)
    }

    fn byte(self, field: Field) -> u8 {
        (self.word(field) & 0xff) as u8
    }

    fn size(self, field: Field) -> usize {
        self.word(field) as usize
    }

    // Whether the part of that word is there.
    fn has(self, field: Field) -> bool {
        self.word(field) != 0
    }

    pub fn date(self, year: i32) -> Date {
        Date {
            year,
            month: self.byte(Field::Month),
            day: self.byte(Field::Day),
        }
    }

    // A time by its fields: hour, minute, second, nanosecond, precision, and whether it is compact.
    fn time_of(self, fields: [Field; 6]) -> Time {
        let [hour, minute, second, nanosecond, precision, compact] = fields;
        Time {
            clock: Clock {
                hour: self.byte(hour),
                minute: self.byte(minute),
                second: self.byte(second),
                nanosecond: self.word(nanosecond),
            },
            precision: precision_of(self.byte(precision)),
            include_sep: !self.has(compact),
        }
    }

    pub fn time(self) -> Time {
        self.time_of([
            Field::Hour,
            Field::Minute,
            Field::Second,
            Field::Nanosecond,
            Field::Precision,
            Field::Compact,
        ])
    }

    fn signed_time(self, sign: Sign) -> UtcOffset {
        let time = self.time_of([
            Field::OffsetHour,
            Field::OffsetMinute,
            Field::OffsetSecond,
            Field::OffsetNanosecond,
            Field::OffsetPrecision,
            Field::OffsetCompact,
        ]);
        UtcOffset::Offset(SignedTime { sign, time })
    }

    // 1 `Z`, 2 a positive offset, any other number a negative one
    pub fn offset(self) -> Offset {
        let offset = match self.word(Field::Offset) {
            1 => UtcOffset::Z,
            2 => self.signed_time(Sign::Positive),
            _ => self.signed_time(Sign::Negative),
        };
        Offset {
            show: DisplayOffset::Auto,
            offset,
        }
    }

    // 1 Auto, 2 Critical, any other number Never
    pub fn zone(self) -> Zone {
        let show = match self.word(Field::Zone) {
            1 => DisplayTimeZone::Auto,
            2 => DisplayTimeZone::Critical,
            _ => DisplayTimeZone::Never,
        };
        Zone {
            show,
            name: Name {
                at: self.size(Field::ZoneAt),
                len: self.size(Field::ZoneLength),
            },
        }
    }

    // 1 Auto, 2 Critical, 3 Always, any other number Never
    pub fn calendar(self) -> Calendar {
        let show = match self.word(Field::Calendar) {
            1 => DisplayCalendar::Auto,
            2 => DisplayCalendar::Critical,
            3 => DisplayCalendar::Always,
            _ => DisplayCalendar::Never,
        };
        Calendar {
            show,
            name: Name {
                at: self.size(Field::CalendarAt),
                len: self.size(Field::CalendarLength),
            },
        }
    }

    pub fn stamp(self, year: i32) -> Stamp {
        Stamp {
            date: self.has(Field::Dated).then(|| self.date(year)),
            time: self.has(Field::Timed).then(|| self.time()),
            offset: self.has(Field::Offset).then(|| self.offset()),
            zone: self.has(Field::Zone).then(|| self.zone()),
            calendar: self.has(Field::Calendar).then(|| self.calendar()),
        }
    }
}

// 0 no time, 1 hours, 2 minutes, any other number seconds
fn time_duration(form: u32, fraction: u32, large: &[u64]) -> Option<TimeDuration> {
    let hours = number(large, 1);
    let minutes = number(large, 2);
    match form {
        0 => None,
        1 => Some(TimeDuration::Hours { hours, fraction }),
        2 => Some(TimeDuration::Minutes {
            hours,
            minutes,
            fraction,
        }),
        _ => Some(TimeDuration::Seconds {
            hours,
            minutes,
            seconds: number(large, 3),
            fraction,
        }),
    }
}

fn sign_of(n: u32) -> Sign {
    match n {
        0 => Sign::Zero,
        1 => Sign::Positive,
        _ => Sign::Negative,
    }
}

// words: precision, sign, years, months, weeks, form of the time, fraction; large: days, hours, minutes, seconds
pub fn duration_of(words: &[u32], large: &[u64]) -> Duration {
    let date = DateDuration {
        years: number(words, 2),
        months: number(words, 3),
        weeks: number(words, 4),
        days: number(large, 0),
    };
    Duration {
        precision: precision_of((number(words, 0) & 0xff) as u8),
        sign: sign_of(number(words, 1)),
        date: Some(date),
        time: time_duration(number(words, 5), number(words, 6), large),
    }
}
