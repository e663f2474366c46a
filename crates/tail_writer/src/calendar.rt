// Calendars: `[u-ca=name]` or `[!u-ca=name]`; nothing under Never, nor under Auto for exactly `iso8601`.
ghost use Rattle.std.specs.Prelude.{true, ◌≡◌};
ghost use Rattle.text.specs.Put.{Count};
ghost use Rattle.text.specs.Out.{Fits, Puts};
ghost use Rattle.text.specs.Answer.{length_of, Wrote};
ghost use Rattle.tail_writer.specs.Calendar.{is_iso, calendar_mark, calendar_text, calendar_ok, calendar_judged};

use super::annotation::Mark;
use record::{Calendar, DisplayCalendar};
use text::Refusal;
use text::out::Out;

// The name is exactly `iso8601`.
#[tactic(auto, unfolding(crate::specs::Calendar::is_iso))]
pub fn is_iso(lent: &[u8], c: Calendar) -> bool
    ensures { result ≡ is_iso lent.now c }
{
    text::walk::part(lent, c.name.at, c.name.len) == b"iso8601".as_slice()
}

fn calendar_mark(show: DisplayCalendar, iso: bool) -> Mark
    ensures { result ≡ calendar_mark show iso }
{
    match show {
        DisplayCalendar::Auto if iso => Mark::Hidden,
        DisplayCalendar::Auto | DisplayCalendar::Always => Mark::Plain,
        DisplayCalendar::Never => Mark::Hidden,
        DisplayCalendar::Critical => Mark::Critical,
    }
}

#[tactic(auto, unfolding(crate::specs::Calendar::calendar_text))]
pub fn put_calendar(out: &mut Out<'_>, lent: &[u8], c: Calendar)
    requires { Fits out.old (calendar_text lent.now c) }
    ensures { Puts out.old (calendar_text lent.now c) out.new }
{
    let mark = calendar_mark(c.show, is_iso(lent, c));
    super::annotation::put_annotation(out, mark, b"u-ca=", lent, c.name);
}

#[tactic(auto, using(crate::proofs::AnnotationLaws::calendar_fits), unfolding(crate::specs::Calendar::calendar_text))]
pub fn calendar_bytes(lent: &[u8], c: Calendar) -> usize
    requires { calendar_ok lent.now c ≡ true }
    ensures { Count (calendar_text lent.now c) 72 result }
{
    let mark = calendar_mark(c.show, is_iso(lent, c));
    super::annotation::annotation_bytes(mark, b"u-ca=", lent, c.name)
}

#[tactic(auto, unfolding(crate::specs::Calendar::calendar_ok))]
pub fn calendar_ok(lent: &[u8], c: Calendar) -> bool
    ensures { result ≡ calendar_ok lent.now c }
{
    names::name::calendar_name_ok(lent, c.name.at, c.name.len)
}

// The exact length of a calendar's text; 3 for what is no name, shown or hidden.
#[tactic(auto, unfolding(crate::specs::Calendar::calendar_judged))]
pub fn calendar_length(lent: &[u8], c: Calendar) -> Result<usize, Refusal>
    ensures { result ≡ length_of (calendar_judged lent.now c) }
{
    text::check(calendar_ok(lent, c), Refusal::BadName)?;
    Ok(calendar_bytes(lent, c))
}

// Writes a calendar's text to the front of a buffer; refusals 3, then 1.
#[tactic(auto, using(text::proofs::OutLaws::at_front), unfolding(crate::specs::Calendar::calendar_judged))]
pub fn write_calendar(buf: &mut [u8], lent: &[u8], c: Calendar) -> Result<usize, Refusal>
    ensures { Wrote (calendar_judged lent.now c) buf.old buf.new result }
{
    text::write_with(
        buf,
        calendar_length(lent, c),
        |out| put_calendar(out, lent, c),
    )
}
