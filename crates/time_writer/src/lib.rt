// Times of day and offsets from UTC: for each its exact length, and its text written to a lent buffer.
#![tactic(auto)]

pub mod offset;
pub mod time;
