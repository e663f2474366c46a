// The reading of durations: the grammar of document 01, its refusals 5, 6, 8 and 14 in that order, and what an accepted text says.
#![tactic(auto)]

ghost use Rattle.std.specs.Prelude.{◌≡◌};
ghost use Rattle.duration_reader.specs.Meaning.{read_duration};

pub mod meaning;

pub use meaning::{DurationReading, DurationShown};
use text::Refusal;

// A text of up to 1,024 bytes as a duration, or why it is refused.
#[tactic(auto, unfolding(crate::specs::Meaning::read_duration))]
pub fn read_duration(t: &[u8]) -> DurationReading
    ensures { result ≡ read_duration t.now }
{
    text::check(t.len() <= text::refusal::LONGEST, Refusal::TooLong)?;
    let raw = duration_syntax::raw::duration(t).ok_or(Refusal::BadText)?;
    meaning::answer_raw(raw)
}
