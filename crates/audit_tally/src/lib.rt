// The kinds of lines that a log has, and how many there are of each.
#![tactic(auto)]

pub mod counts;
pub mod kinds;
