// For the test programs only: what the digits and the checks answer to vector lines, and what writers answered, in the words of these lines.
#![tactic(auto)]

pub mod checks;
pub mod written;
