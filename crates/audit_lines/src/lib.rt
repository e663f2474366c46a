// The row of a line, for a person to read: its text, the verdict, and what was read, in plain words.
#![tactic(auto)]

pub mod print;
pub mod row;
