// For the test programs only: what the readers answered, in the words of vector lines.
#![tactic(auto)]

pub mod places;
pub mod words;
