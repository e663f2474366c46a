// Month-days and year-months, their exact lengths, and their texts written to a lent buffer: the whole date where the calendar is Always or Critical or
// not `iso8601`.
#![tactic(auto)]

ghost use Rattle.std.specs.Prelude.{true, ◌≡◌};
ghost use Rattle.text.specs.Put.{Count};
ghost use Rattle.text.specs.Out.{Fits, Puts};
ghost use Rattle.text.specs.Answer.{length_of, Wrote};
ghost use Rattle.tail_writer.specs.Calendar.{calendar_ok};
ghost use Rattle.partial_writer.specs.Partial.{whole_date, whole, leading_year, trailing_day, month_day_text, year_month_text, month_day_judged, year_month_judged};

use record::{Calendar, Date, DisplayCalendar};
use text::Refusal;
use text::out::Out;

fn whole_date(show: DisplayCalendar, iso: bool) -> bool
    ensures { result ≡ whole_date show iso }
{
    match show {
        DisplayCalendar::Always | DisplayCalendar::Critical => true,
        DisplayCalendar::Auto | DisplayCalendar::Never => !iso,
    }
}

// Whether the whole date is written.
fn is_whole(lent: &[u8], c: Calendar) -> bool
    ensures { result ≡ whole lent.now c }
{
    whole_date(c.show, tail_writer::calendar::is_iso(lent, c))
}

#[tactic(auto, using(text::proofs::OutLaws::stepwise, date_writer::proofs::DateLaws::years))]
fn put_leading_year(out: &mut Out<'_>, all: bool, year: i32)
    requires { Fits out.old (leading_year all year) }
    ensures { Puts out.old (leading_year all year) out.new }
{
    if all {
        date_writer::date::put_year(out, year);
        out.byte(b'-');
    }
}

fn put_trailing_day(out: &mut Out<'_>, all: bool, day: u8)
    requires { Fits out.old (trailing_day all day) }
    ensures { Puts out.old (trailing_day all day) out.new }
{
    if all {
        date_writer::date::put_dashed(out, day);
    }
}

#[tactic(auto, using(text::proofs::OutLaws::stepwise, date_writer::proofs::DateLaws::years), unfolding(crate::specs::Partial::month_day_text))]
fn put_month_day(out: &mut Out<'_>, lent: &[u8], d: Date, c: Calendar)
    requires { Fits out.old (month_day_text lent.now d c) }
    ensures { Puts out.old (month_day_text lent.now d c) out.new }
{
    let all = is_whole(lent, c);
    put_leading_year(out, all, d.year);
    out.pair(d.month as u32);
    date_writer::date::put_dashed(out, d.day);
    tail_writer::calendar::put_calendar(out, lent, c);
}

#[tactic(auto, using(text::proofs::OutLaws::stepwise, date_writer::proofs::DateLaws::years), unfolding(crate::specs::Partial::year_month_text))]
fn put_year_month(out: &mut Out<'_>, lent: &[u8], d: Date, c: Calendar)
    requires { Fits out.old (year_month_text lent.now d c) }
    ensures { Puts out.old (year_month_text lent.now d c) out.new }
{
    let all = is_whole(lent, c);
    date_writer::date::put_year(out, d.year);
    date_writer::date::put_dashed(out, d.month);
    put_trailing_day(out, all, d.day);
    tail_writer::calendar::put_calendar(out, lent, c);
}

fn leading_year_bytes(all: bool, year: i32) -> usize
    ensures { Count (leading_year all year) 8 result }
{
    if all {
        date_writer::date::year_bytes(year) + 1
    } else {
        0
    }
}

fn trailing_day_bytes(all: bool, day: u8) -> usize
    ensures { Count (trailing_day all day) 3 result }
{
    if all { 3 } else { 0 }
}

#[tactic(auto, using(text::proofs::OutLaws::stepwise, date_writer::proofs::DateLaws::years), unfolding(crate::specs::Partial::month_day_text))]
fn month_day_bytes(lent: &[u8], d: Date, c: Calendar) -> usize
    requires { calendar_ok lent.now c ≡ true }
    ensures { Count (month_day_text lent.now d c) 85 result }
{
    let all = is_whole(lent, c);
    leading_year_bytes(all, d.year) + 5 + tail_writer::calendar::calendar_bytes(lent, c)
}

#[tactic(auto, using(text::proofs::OutLaws::stepwise, date_writer::proofs::DateLaws::years), unfolding(crate::specs::Partial::year_month_text))]
fn year_month_bytes(lent: &[u8], d: Date, c: Calendar) -> usize
    requires { calendar_ok lent.now c ≡ true }
    ensures { Count (year_month_text lent.now d c) 85 result }
{
    let all = is_whole(lent, c);
    date_writer::date::year_bytes(d.year)
        + 3
        + trailing_day_bytes(all, d.day)
        + tail_writer::calendar::calendar_bytes(lent, c)
}

// The exact length of a month-day's text; 2 for a date out of range, 3 for what is no calendar name.
#[tactic(auto, unfolding(crate::specs::Partial::month_day_judged))]
pub fn month_day_length(lent: &[u8], d: Date, c: Calendar) -> Result<usize, Refusal>
    ensures { result ≡ length_of (month_day_judged lent.now d c) }
{
    text::check(date_writer::date::date_ok(d), Refusal::BadField)?;
    text::check(
        tail_writer::calendar::calendar_ok(lent, c),
        Refusal::BadName,
    )?;
    Ok(month_day_bytes(lent, d, c))
}

// The exact length of a year-month's text; 2 for a date out of range, 3 for what is no calendar name.
#[tactic(auto, unfolding(crate::specs::Partial::year_month_judged))]
pub fn year_month_length(lent: &[u8], d: Date, c: Calendar) -> Result<usize, Refusal>
    ensures { result ≡ length_of (year_month_judged lent.now d c) }
{
    text::check(date_writer::date::date_ok(d), Refusal::BadField)?;
    text::check(
        tail_writer::calendar::calendar_ok(lent, c),
        Refusal::BadName,
    )?;
    Ok(year_month_bytes(lent, d, c))
}

// Writes a month-day's text to the front of a buffer; refusals 2, 3, then 1.
#[tactic(auto, using(text::proofs::OutLaws::at_front), unfolding(crate::specs::Partial::month_day_judged))]
pub fn write_month_day(buf: &mut [u8], lent: &[u8], d: Date, c: Calendar) -> Result<usize, Refusal>
    ensures { Wrote (month_day_judged lent.now d c) buf.old buf.new result }
{
    text::write_with(
        buf,
        month_day_length(lent, d, c),
        |out| put_month_day(out, lent, d, c),
    )
}

// Writes a year-month's text to the front of a buffer; refusals 2, 3, then 1.
#[tactic(auto, using(text::proofs::OutLaws::at_front), unfolding(crate::specs::Partial::year_month_judged))]
pub fn write_year_month(buf: &mut [u8], lent: &[u8], d: Date, c: Calendar) -> Result<usize, Refusal>
    ensures { Wrote (year_month_judged lent.now d c) buf.old buf.new result }
{
    text::write_with(
        buf,
        year_month_length(lent, d, c),
        |out| put_year_month(out, lent, d, c),
    )
}
