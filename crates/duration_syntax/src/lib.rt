// The grammar of a duration: what a whole text says of each part, or that it is none.
#![tactic(auto)]

pub mod number;
pub mod part;
pub mod raw;
