// The text of a duration: its length, and its text written to a lent buffer.
#![tactic(auto)]

ghost use Rattle.std.specs.Prelude.{◌≡◌};
ghost use Rattle.text.specs.Answer.{length_of, Wrote};
ghost use Rattle.duration.specs.Duration.{duration_judged};

use record::Duration;
use text::Refusal;
use text::out::Out;

pub mod held;
mod length;
mod put;

// The exact length of a duration's text; refusals 2, then 4.
#[tactic(auto, unfolding(crate::specs::Duration::duration_judged))]
pub fn duration_length(d: Duration) -> Result<usize, Refusal>
    ensures { result ≡ length_of (duration_judged d) }
{
    text::check(held::duration_ok(d), Refusal::BadField)?;
    text::check(held::duration_parts_ok(d), Refusal::BadParts)?;
    Ok(length::duration_bytes(d))
}

// Writes a duration's text to the front of a buffer; refusals 2, then 4, then 1.
#[tactic(auto, using(text::proofs::OutLaws::at_front), unfolding(crate::specs::Duration::duration_judged))]
pub fn write_duration(buf: &mut [u8], d: Duration) -> Result<usize, Refusal>
    ensures { Wrote (duration_judged d) buf.old buf.new result }
{
    text::write_with(buf, duration_length(d), |out| put::put_duration(out, d))
}
