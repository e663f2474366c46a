// Offsets from UTC: `Z`, or a sign and a time; nothing under Never.
ghost use Rattle.std.specs.Prelude.{◌≡◌};
ghost use Rattle.text.specs.Put.{Count};
ghost use Rattle.text.specs.Out.{Fits, Puts};
ghost use Rattle.text.specs.Answer.{length_of, Wrote};
ghost use Rattle.time_writer.specs.Offset.{sign_byte, signed_text, utc_text, offset_text, utc_ok, offset_ok, offset_judged};

use record::{DisplayOffset, Offset, Sign, SignedTime, UtcOffset};
use text::Refusal;
use text::out::Out;

fn sign_byte(s: Sign) -> u8
    ensures { result ≡ sign_byte s }
{
    match s {
        Sign::Negative => b'-',
        Sign::Zero | Sign::Positive => b'+',
    }
}

#[tactic(auto, using(text::proofs::OutLaws::stepwise), unfolding(crate::specs::Offset::signed_text))]
fn put_signed(out: &mut Out<'_>, s: SignedTime)
    requires { Fits out.old (signed_text s) }
    ensures { Puts out.old (signed_text s) out.new }
{
    out.byte(sign_byte(s.sign));
    super::time::put_time(out, s.time);
}

fn put_utc(out: &mut Out<'_>, u: UtcOffset)
    requires { Fits out.old (utc_text u) }
    ensures { Puts out.old (utc_text u) out.new }
{
    match u {
        UtcOffset::Z => out.byte(b'Z'),
        UtcOffset::Offset(s) => put_signed(out, s),
    }
}

#[tactic(auto, unfolding(crate::specs::Offset::offset_text))]
pub fn put_offset(out: &mut Out<'_>, o: Offset)
    requires { Fits out.old (offset_text o) }
    ensures { Puts out.old (offset_text o) out.new }
{
    match o.show {
        DisplayOffset::Auto => put_utc(out, o.offset),
        DisplayOffset::Never => {}
    }
}

#[tactic(auto, unfolding(crate::specs::Offset::signed_text))]
fn utc_bytes(u: UtcOffset) -> usize
    ensures { Count (utc_text u) 19 result }
{
    match u {
        UtcOffset::Z => 1,
        UtcOffset::Offset(s) => 1 + super::time::time_bytes(s.time),
    }
}

#[tactic(auto, unfolding(crate::specs::Offset::offset_text))]
pub fn offset_bytes(o: Offset) -> usize
    ensures { Count (offset_text o) 19 result }
{
    match o.show {
        DisplayOffset::Auto => utc_bytes(o.offset),
        DisplayOffset::Never => 0,
    }
}

fn utc_ok(u: UtcOffset) -> bool
    ensures { result ≡ utc_ok u }
{
    match u {
        UtcOffset::Z => true,
        UtcOffset::Offset(s) => super::time::time_ok(s.time),
    }
}

#[tactic(auto, unfolding(crate::specs::Offset::offset_ok))]
pub fn offset_ok(o: Offset) -> bool
    ensures { result ≡ offset_ok o }
{
    utc_ok(o.offset)
}

// The exact length of an offset's text; 2 for a field out of its range, shown or hidden.
#[tactic(auto, unfolding(crate::specs::Offset::offset_judged))]
pub fn offset_length(o: Offset) -> Result<usize, Refusal>
    ensures { result ≡ length_of (offset_judged o) }
{
    text::check(offset_ok(o), Refusal::BadField)?;
    Ok(offset_bytes(o))
}

// Writes an offset's text to the front of a buffer; refusals 2, then 1.
#[tactic(auto, using(text::proofs::OutLaws::at_front), unfolding(crate::specs::Offset::offset_judged))]
pub fn write_offset(buf: &mut [u8], o: Offset) -> Result<usize, Refusal>
    ensures { Wrote (offset_judged o) buf.old buf.new result }
{
    text::write_with(buf, offset_length(o), |out| put_offset(out, o))
}
