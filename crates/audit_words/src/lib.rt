// The words of the audit, and how numbers and bytes are put into a row for a person to read. A row owns its bytes and knows its place; every piece asks
// for the room that it may use, so that nothing is cut and nothing runs over.
#![tactic(auto)]

pub mod row;
pub mod words;
