// For the test programs only: the fields of vector lines, and answers in their words.
#![tactic(auto)]

pub mod answer;
pub mod fields;
pub mod judged;
