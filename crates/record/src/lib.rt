// The records of stamps and durations, by value, with the settings that shape their texts, and what a reading gives. A name is a place and a length
// in one text that is lent beside the record.
#![tactic(auto)]

pub mod duration;
pub mod goal;
pub mod shown;
pub mod stamp;

pub use duration::{DateDuration, Duration, TimeDuration};
pub use goal::Goal;
pub use shown::{
    MarkedName, Reading, Shown, ShownOffset, SignedClock, reading_refusal, refusal_number,
};
pub use stamp::{
    Calendar, Clock, Date, DisplayCalendar, DisplayOffset, DisplayTimeZone, Name, Offset,
    Precision, Sign, SignedTime, Stamp, Time, UtcOffset, Zone, joined_nanosecond,
};
