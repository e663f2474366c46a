// Dates: their exact length, and their text written to a lent buffer.
#![tactic(auto)]

pub mod date;
