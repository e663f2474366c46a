// Whole stamps: date, `T` if both, time, offset, zone, calendar.
ghost use Rattle.std.specs.Prelude.{true, ◌≡◌, ◌++◌, is_some};
ghost use Rattle.text.specs.Put.{Count};
ghost use Rattle.text.specs.Out.{Fits, Puts};
ghost use Rattle.text.specs.Answer.{length_of, Wrote};
ghost use Rattle.writer.specs.Stamp.{part_text, part_ok, timed_text, stamp_text, fields_ok, names_ok, shows, shows_offset, parts_ok, stamp_judged};
ghost use Rattle.date_writer.specs.Date.{date_text, date_ok};
ghost use Rattle.time_writer.specs.Time.{time_text, time_ok};
ghost use Rattle.time_writer.specs.Offset.{offset_text, offset_ok};
ghost use Rattle.tail_writer.specs.Zone.{zone_text, zone_ok};
ghost use Rattle.tail_writer.specs.Calendar.{calendar_text, calendar_ok};

use record::{Date, DisplayOffset, Offset, Stamp, Time};
use text::Refusal;
use text::out::Out;

// A time, `T` before it if it follows a date.
#[tactic(auto, using(text::proofs::OutLaws::stepwise))]
fn put_timed(out: &mut Out<'_>, dated: bool, t: Time)
    requires { Fits out.old (timed_text dated t) }
    ensures { Puts out.old (timed_text dated t) out.new }
{
    out.mark(dated, b'T');
    time_writer::time::put_time(out, t);
}

// The date and the time.
#[tactic(auto, using(text::proofs::OutLaws::stepwise))]
fn put_date_time(out: &mut Out<'_>, date: Option<Date>, time: Option<Time>)
    requires { Fits out.old (part_text date_text date ++ part_text (timed_text (is_some date)) time) }
    ensures { Puts out.old (part_text date_text date ++ part_text (timed_text (is_some date)) time) out.new }
{
    if let Some(d) = date {
        date_writer::date::put_date(out, d);
    }
    if let Some(t) = time {
        put_timed(out, date.is_some(), t);
    }
}

#[tactic(auto, using(text::proofs::OutLaws::stepwise), unfolding(crate::specs::Stamp::stamp_text))]
pub fn put_stamp(out: &mut Out<'_>, lent: &[u8], s: Stamp)
    requires { Fits out.old (stamp_text lent.now s) }
    ensures { Puts out.old (stamp_text lent.now s) out.new }
{
    put_date_time(out, s.date, s.time);
    if let Some(o) = s.offset {
        time_writer::offset::put_offset(out, o);
    }
    if let Some(z) = s.zone {
        tail_writer::zone::put_zone(out, lent, z);
    }
    if let Some(c) = s.calendar {
        tail_writer::calendar::put_calendar(out, lent, c);
    }
}

#[tactic(auto, using(text::proofs::OutLaws::stepwise), unfolding(crate::specs::Stamp::stamp_text, crate::specs::Stamp::names_ok))]
pub fn stamp_bytes(lent: &[u8], s: Stamp) -> usize
    requires { names_ok lent.now s ≡ true }
    ensures { Count (stamp_text lent.now s) 190 result }
{
    let dated = s.date.is_some();
    let date = s.date.map_or(0, date_writer::date::date_bytes);
    let time = s.time.map_or(0, |t| {
        text::put::mark_bytes(dated, b'T') + time_writer::time::time_bytes(t)
    });
    let offset = s.offset.map_or(0, time_writer::offset::offset_bytes);
    let zone = s.zone.map_or(0, |z| tail_writer::zone::zone_bytes(lent, z));
    let calendar = s
        .calendar
        .map_or(0, |c| tail_writer::calendar::calendar_bytes(lent, c));
    date + time + offset + zone + calendar
}

#[tactic(auto, unfolding(crate::specs::Stamp::fields_ok))]
fn fields_ok(s: Stamp) -> bool
    ensures { result ≡ fields_ok s }
{
    s.date.is_none_or(date_writer::date::date_ok)
        & s.time.is_none_or(time_writer::time::time_ok)
        & s.offset.is_none_or(time_writer::offset::offset_ok)
}

#[tactic(auto, unfolding(crate::specs::Stamp::names_ok))]
fn names_ok(lent: &[u8], s: Stamp) -> bool
    ensures { result ≡ names_ok lent.now s }
{
    s.zone.is_none_or(|z| tail_writer::zone::zone_ok(lent, z))
        & s.calendar
            .is_none_or(|c| tail_writer::calendar::calendar_ok(lent, c))
}

pub fn is_shown(show: DisplayOffset) -> bool
    ensures { result ≡ shows show }
{
    show == DisplayOffset::Auto
}

fn shows_offset(p: Option<Offset>) -> bool
    ensures { result ≡ shows_offset p }
{
    p.is_some_and(|o| is_shown(o.show))
}

#[tactic(auto, unfolding(crate::specs::Stamp::parts_ok))]
fn parts_ok(s: Stamp) -> bool
    ensures { result ≡ parts_ok s }
{
    let timed = s.time.is_some();
    (s.date.is_some() | timed) & (!shows_offset(s.offset) | timed)
}

// The exact length of a stamp's text; refusals 2, 3, 4.
#[tactic(auto, unfolding(crate::specs::Stamp::stamp_judged))]
pub fn stamp_length(lent: &[u8], s: Stamp) -> Result<usize, Refusal>
    ensures { result ≡ length_of (stamp_judged lent.now s) }
{
    text::check(fields_ok(s), Refusal::BadField)?;
    text::check(names_ok(lent, s), Refusal::BadName)?;
    text::check(parts_ok(s), Refusal::BadParts)?;
    Ok(stamp_bytes(lent, s))
}

// Any stamp, its length first.
#[tactic(auto, using(text::proofs::OutLaws::at_front), unfolding(crate::specs::Stamp::stamp_judged))]
fn write_any(buf: &mut [u8], lent: &[u8], s: Stamp) -> Result<usize, Refusal>
    ensures { Wrote (stamp_judged lent.now s) buf.old buf.new result }
{
    text::write_with(buf, stamp_length(lent, s), |out| put_stamp(out, lent, s))
}

// Writes a stamp's text to the front of a buffer; refusals 2, 3, 4, then 1. A stamp as most are, whose text has at most 30 bytes, is written at once.
pub fn write_stamp(buf: &mut [u8], lent: &[u8], s: Stamp) -> Result<usize, Refusal>
    ensures { Wrote (stamp_judged lent.now s) buf.old buf.new result }
{
    if buf.len() < 30 {
        return write_any(buf, lent, s);
    }
    match super::usual::usual_of(s) {
        Some(u) => {
            let mut out = Out { buf, at: 0 };
            u.put(&mut out);
            Ok(out.at)
        }
        None => write_any(buf, lent, s),
    }
}
