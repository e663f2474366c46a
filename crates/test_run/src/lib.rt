// For the test programs only: a run over a vector list: what it counts and what it prints.
#![tactic(auto)]

pub mod output;
pub mod report;
