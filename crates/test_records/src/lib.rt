// For the test programs only: the records of vector lines.
#![tactic(auto)]

pub mod records;
