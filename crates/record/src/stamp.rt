// Stamps: their parts with the settings of each, and the steps that set a part.
ghost use Rattle.std.specs.Prelude.{◌≡◌};
ghost use Rattle.record.specs.Steps.{nanosecond_of, no_parts, with_date, with_time, with_offset, with_minute_offset, with_z, with_timezone, with_calendar};

#[derive(Clone, Copy, Debug, PartialEq, Eq)]
pub struct Date {
    pub year: i32,
    pub month: u8,
    pub day: u8,
}

// A time of day without settings.
#[derive(Clone, Copy, Debug, PartialEq, Eq)]
pub struct Clock {
    pub hour: u8,
    pub minute: u8,
    pub second: u8,
    pub nanosecond: u32,
}

#[derive(Clone, Copy, Debug, PartialEq, Eq)]
pub enum Precision {
    Auto,
    Minute,
    Digit(u8),
}

#[derive(Clone, Copy, Debug, PartialEq, Eq)]
pub struct Time {
    pub clock: Clock,
    pub precision: Precision,
    pub include_sep: bool,
}

#[derive(Clone, Copy, Debug, PartialEq, Eq)]
pub enum Sign {
    Negative,
    Zero,
    Positive,
}

#[derive(Clone, Copy, Debug, PartialEq, Eq)]
pub struct SignedTime {
    pub sign: Sign,
    pub time: Time,
}

#[derive(Clone, Copy, Debug, PartialEq, Eq)]
pub enum UtcOffset {
    Z,
    Offset(SignedTime),
}

#[derive(Clone, Copy, Debug, PartialEq, Eq)]
pub enum DisplayOffset {
    Auto,
    Never,
}

#[derive(Clone, Copy, Debug, PartialEq, Eq)]
pub struct Offset {
    pub show: DisplayOffset,
    pub offset: UtcOffset,
}

// A place and a length in the text that is lent beside the record.
#[derive(Clone, Copy, Debug, PartialEq, Eq)]
pub struct Name {
    pub at: usize,
    pub len: usize,
}

#[derive(Clone, Copy, Debug, PartialEq, Eq)]
pub enum DisplayTimeZone {
    Auto,
    Never,
    Critical,
}

#[derive(Clone, Copy, Debug, PartialEq, Eq)]
pub struct Zone {
    pub show: DisplayTimeZone,
    pub name: Name,
}

#[derive(Clone, Copy, Debug, PartialEq, Eq)]
pub enum DisplayCalendar {
    Auto,
    Always,
    Never,
    Critical,
}

#[derive(Clone, Copy, Debug, PartialEq, Eq)]
pub struct Calendar {
    pub show: DisplayCalendar,
    pub name: Name,
}

#[derive(Clone, Copy, Debug, PartialEq, Eq)]
pub struct Stamp {
    pub date: Option<Date>,
    pub time: Option<Time>,
    pub offset: Option<Offset>,
    pub zone: Option<Zone>,
    pub calendar: Option<Calendar>,
}

// The nanoseconds of three sub-second fields; over 999,999,999, which no writer takes, if a field is over 999.
pub fn joined_nanosecond(millisecond: u16, microsecond: u16, nanosecond: u16) -> u32
    ensures { result ≡ nanosecond_of millisecond microsecond nanosecond }
{
    if (millisecond <= 999) & (microsecond <= 999) & (nanosecond <= 999) {
        millisecond as u32 * 1_000_000 + microsecond as u32 * 1_000 + nanosecond as u32
    } else {
        1_000_000_000
    }
}

// Each step sets one part, whole, and keeps the others.
impl Stamp {
    pub fn empty() -> Stamp
        ensures { result ≡ no_parts }
    {
        Stamp {
            date: None,
            time: None,
            offset: None,
            zone: None,
            calendar: None,
        }
    }

    pub fn with_date(self, date: Date) -> Stamp
        ensures { result ≡ with_date self date }
    {
        Stamp {
            date: Some(date),
            ..self
        }
    }

    pub fn with_time(
        self,
        hour: u8,
        minute: u8,
        second: u8,
        millisecond: u16,
        microsecond: u16,
        nanosecond: u16,
        precision: Precision,
    ) -> Stamp
        ensures { result ≡ with_time self hour minute second (nanosecond_of millisecond microsecond nanosecond) precision }
    {
        let clock = Clock {
            hour,
            minute,
            second,
            nanosecond: joined_nanosecond(millisecond, microsecond, nanosecond),
        };
        let time = Time {
            clock,
            precision,
            include_sep: true,
        };
        Stamp {
            time: Some(time),
            ..self
        }
    }

    fn with_offset(self, show: DisplayOffset, offset: UtcOffset) -> Stamp
        ensures { result ≡ with_offset self show offset }
    {
        Stamp {
            offset: Some(Offset { show, offset }),
            ..self
        }
    }

    // An offset of hours and minutes, shown as such.
    pub fn with_minute_offset(self, sign: Sign, hour: u8, minute: u8, show: DisplayOffset) -> Stamp
        ensures { result ≡ with_minute_offset self sign hour minute show }
    {
        let clock = Clock {
            hour,
            minute,
            second: 0,
            nanosecond: 0,
        };
        let time = Time {
            clock,
            precision: Precision::Minute,
            include_sep: true,
        };
        self.with_offset(show, UtcOffset::Offset(SignedTime { sign, time }))
    }

    pub fn with_z(self, show: DisplayOffset) -> Stamp
        ensures { result ≡ with_z self show }
    {
        self.with_offset(show, UtcOffset::Z)
    }

    pub fn with_timezone(self, name: Name, show: DisplayTimeZone) -> Stamp
        ensures { result ≡ with_timezone self name show }
    {
        Stamp {
            zone: Some(Zone { show, name }),
            ..self
        }
    }

    pub fn with_calendar(self, name: Name, show: DisplayCalendar) -> Stamp
        ensures { result ≡ with_calendar self name show }
    {
        Stamp {
            calendar: Some(Calendar { show, name }),
            ..self
        }
    }
}
