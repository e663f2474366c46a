// A run over a log: what is asked of it, where it stands and what waits to be printed; and what is kept of a line that a chunk cuts.
#![tactic(auto)]

pub mod line;
pub mod output;
pub mod state;
pub mod told;
