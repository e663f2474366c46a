// Zones: `[name]` or `[!name]`, nothing under Never.
ghost use Rattle.std.specs.Prelude.{true, ◌≡◌};
ghost use Rattle.text.specs.Put.{Count};
ghost use Rattle.text.specs.Out.{Fits, Puts};
ghost use Rattle.text.specs.Answer.{length_of, Wrote};
ghost use Rattle.tail_writer.specs.Zone.{zone_mark, zone_text, zone_ok, zone_judged};

use super::annotation::Mark;
use record::{DisplayTimeZone, Zone};
use text::Refusal;
use text::out::Out;

fn zone_mark(show: DisplayTimeZone) -> Mark
    ensures { result ≡ zone_mark show }
{
    match show {
        DisplayTimeZone::Auto => Mark::Plain,
        DisplayTimeZone::Never => Mark::Hidden,
        DisplayTimeZone::Critical => Mark::Critical,
    }
}

#[tactic(auto, unfolding(crate::specs::Zone::zone_text))]
pub fn put_zone(out: &mut Out<'_>, lent: &[u8], z: Zone)
    requires { Fits out.old (zone_text lent.now z) }
    ensures { Puts out.old (zone_text lent.now z) out.new }
{
    let mark = zone_mark(z.show);
    super::annotation::put_annotation(out, mark, b"", lent, z.name);
}

#[tactic(auto, using(crate::proofs::AnnotationLaws::zone_fits), unfolding(crate::specs::Zone::zone_text))]
pub fn zone_bytes(lent: &[u8], z: Zone) -> usize
    requires { zone_ok lent.now z ≡ true }
    ensures { Count (zone_text lent.now z) 67 result }
{
    let mark = zone_mark(z.show);
    super::annotation::annotation_bytes(mark, b"", lent, z.name)
}

#[tactic(auto, unfolding(crate::specs::Zone::zone_ok))]
pub fn zone_ok(lent: &[u8], z: Zone) -> bool
    ensures { result ≡ zone_ok lent.now z }
{
    names::name::zone_name_ok(lent, z.name.at, z.name.len)
}

// The exact length of a zone's text; 3 for what is no name, shown or hidden.
#[tactic(auto, unfolding(crate::specs::Zone::zone_judged))]
pub fn zone_length(lent: &[u8], z: Zone) -> Result<usize, Refusal>
    ensures { result ≡ length_of (zone_judged lent.now z) }
{
    text::check(zone_ok(lent, z), Refusal::BadName)?;
    Ok(zone_bytes(lent, z))
}

// Writes a zone's text to the front of a buffer; refusals 3, then 1.
#[tactic(auto, using(text::proofs::OutLaws::at_front), unfolding(crate::specs::Zone::zone_judged))]
pub fn write_zone(buf: &mut [u8], lent: &[u8], z: Zone) -> Result<usize, Refusal>
    ensures { Wrote (zone_judged lent.now z) buf.old buf.new result }
{
    text::write_with(buf, zone_length(lent, z), |out| put_zone(out, lent, z))
}
