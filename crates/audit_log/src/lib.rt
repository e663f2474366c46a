// A log of any size, in bounded memory: it comes in chunks, its lines are judged, counted and printed as rows, and the rows go out in chunks.
#![tactic(auto)]

pub mod judge;
pub mod lines;
