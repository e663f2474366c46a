// What the arguments of the audit ask for, and what is said of them.
#![tactic(auto)]

pub mod arguments;
pub mod help;
