// The face of the library: every public type and call, and the two functions that firmware calls from C by way of `stamp_c`. Nothing is decided here.
#![tactic(auto)]

ghost use Rattle.std.specs.Prelude.{◌≡◌};
ghost use Rattle.reader.specs.Parts.{checked};
ghost use Rattle.stamp.specs.Export.{Answered};

// Why a record or a text is refused; what a write and a length answer is Ok of a count of bytes, or Err of that.
pub use text::{Refusal, refusal};

// Records, by value, with the settings that shape their texts, and the steps that set a part of a stamp.
pub use record::{
    Calendar, Clock, Date, DateDuration, DisplayCalendar, DisplayOffset, DisplayTimeZone, Duration,
    Name, Offset, Precision, Sign, SignedTime, Stamp, Time, TimeDuration, UtcOffset, Zone,
};

// Goals, and what a reading shows.
pub use record::{
    Goal, MarkedName, Reading, Shown, ShownOffset, SignedClock, reading_refusal, refusal_number,
};

// Digits and checks.
pub use iso::{is_leap, is_valid_date, is_valid_time, iso_days_in_month};
pub use names::name::{calendar_name_ok, zone_name_ok};
pub use text::digits::{NineDigits, u32_to_digits};

// Lengths and writers.
pub use date_writer::date::{date_length, write_date};
pub use duration::{duration_length, write_duration};
pub use partial_writer::{month_day_length, write_month_day, write_year_month, year_month_length};
pub use tail_writer::calendar::{calendar_length, write_calendar};
pub use tail_writer::zone::{write_zone, zone_length};
pub use time_writer::offset::{offset_length, write_offset};
pub use time_writer::time::{time_length, write_time};
pub use writer::stamp::{stamp_length, write_stamp};

// Readers, the recogniser, and the way there and back.
pub use duration_reader::{DurationReading, DurationShown, read_duration};
pub use reader::goals::{read, read_number};
pub use reader::parts::{calendar_of, check, find_calendar, find_number, zone_of};
pub use recogniser::recognise;
pub use round_trip::there_and_back;

// For C: 1 if the text is one that this library writes of some stamp with a date, separators on; else 0.
pub fn stamp_recognise(text: &[u8]) -> u32
    ensures { Answered text.now result }
{
    u32::from(recogniser::recognise(text))
}

// For C: 0 if the text is accepted for the goal of that number, else the refusal's number; 15 before all others for a goal above 6.
pub fn stamp_check(goal: u32, text: &[u8]) -> u32
    ensures { result ≡ checked goal text.now }
{
    u32::from(reader::parts::check(goal, text))
}
