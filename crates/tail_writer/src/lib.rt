// What stands in brackets after a stamp, zones and calendars: for each its exact length, and its text written to a lent buffer. Names are places
// in one lent text.
#![tactic(auto)]

pub mod annotation;
pub mod calendar;
pub mod zone;
