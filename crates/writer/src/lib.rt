// Whole stamps: their exact lengths, and their texts written to a lent buffer.
#![tactic(auto)]

pub mod stamp;
pub mod usual;
