// Durations, with the settings of their text.
use crate::stamp::{Precision, Sign};

#[derive(Clone, Copy, Debug, PartialEq, Eq)]
pub struct DateDuration {
    pub years: u32,
    pub months: u32,
    pub weeks: u32,
    pub days: u64,
}

// The largest unit that is kept; a fraction is in nanoseconds, 0 where there is none.
#[derive(Clone, Copy, Debug, PartialEq, Eq)]
pub enum TimeDuration {
    Hours {
        hours: u64,
        fraction: u32,
    },
    Minutes {
        hours: u64,
        minutes: u64,
        fraction: u32,
    },
    Seconds {
        hours: u64,
        minutes: u64,
        seconds: u64,
        fraction: u32,
    },
}

#[derive(Clone, Copy, Debug, PartialEq, Eq)]
pub struct Duration {
    pub precision: Precision,
    pub sign: Sign,
    pub date: Option<DateDuration>,
    pub time: Option<TimeDuration>,
}
