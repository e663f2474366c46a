// Whole texts of document 01's reading grammar: stamps, times, year-months and month-days. A reader gives what the text keeps of its tree, by value.
// Each kind has two: of a text that is not of the grammar `whole_..` gives None, and `read_..` each part that could be read.
#![tactic(auto)]

mod pieces;

ghost use Rattle.std.specs.Prelude.{◌≡◌, ok_or};
ghost use Rattle.grammar.specs.Read.{timed_at, stamp, time_text, year_month_text, month_day_text};
ghost use Rattle.grammar.specs.Pieces.{stamp_pieces, time_text_pieces, year_month_pieces, month_day_pieces};

use date_syntax::{DateRead, MonthDayRead};
pub use pieces::{ClockPieces, Pieces, StampPieces};
use pieces::{month_day_pieces, stamp_pieces, time_text_pieces, year_month_pieces};
use tail_syntax::{Tail, read_tail};
use time_syntax::{TimeRead, UtcRead};

// A time of day and how it stands to UTC, where that is said; and the byte before it, where there is one.
#[derive(Clone, Copy, Debug, PartialEq, Eq)]
pub struct ClockRead {
    pub lead: Option<u8>,
    pub time: TimeRead,
    pub utc: Option<UtcRead>,
}

// What is kept of a stamp text; a clock has its separator as its lead.
#[derive(Clone, Copy, Debug, PartialEq, Eq)]
pub struct StampRead {
    pub date: DateRead,
    pub clock: Option<ClockRead>,
    pub tail: Tail,
}

// What is kept of a text of one part and the tail: a time text has a clock, a year-month text a date, a month-day text a month and a day.
#[derive(Clone, Copy, Debug, PartialEq, Eq)]
pub struct Tailed<P> {
    pub part: P,
    pub tail: Tail,
}

// A time, how it stands to UTC, and the tail; after the byte before the time.
#[tactic(auto, unfolding(crate::specs::Read::clock_at, crate::specs::Read::timed_at))]
fn timed_at(t: &[u8], lead: Option<u8>) -> Option<Tailed<ClockRead>>
    ensures { result ≡ timed_at lead t.now }
{
    let Some(time) = &time_syntax::read_time(t) else {
        return None;
    };
    let r = time.past(t);
    let Some(utc) = &time_syntax::read_utc(r) else {
        return None;
    };
    let Some(tail) = &read_tail(time_syntax::past_utc(r, *utc)) else {
        return None;
    };
    Some(Tailed {
        part: ClockRead {
            lead,
            time: *time,
            utc: *utc,
        },
        tail: *tail,
    })
}

// A stamp text.
#[tactic(auto, unfolding(crate::specs::Read::stamp))]
pub fn whole_stamp(t: &[u8]) -> Option<StampRead>
    ensures { result ≡ stamp t.now }
{
    let date = date_syntax::read_date(t)?;
    match date_syntax::after_date(t, date) {
        [sep @ (b'T' | b't' | b' '), r @ ..] => {
            let Some(timed) = &timed_at(r, Some(*sep)) else {
                return None;
            };
            Some(StampRead {
                date,
                clock: Some(timed.part),
                tail: timed.tail,
            })
        }
        r => {
            let Some(tail) = &read_tail(r) else {
                return None;
            };
            Some(StampRead {
                date,
                clock: None,
                tail: *tail,
            })
        }
    }
}

// A time text.
#[tactic(auto, unfolding(crate::specs::Read::time_text))]
pub fn whole_time_text(t: &[u8]) -> Option<Tailed<ClockRead>>
    ensures { result ≡ time_text t.now }
{
    match t {
        [lead @ (b'T' | b't'), r @ ..] => timed_at(r, Some(*lead)),
        _ => timed_at(t, None),
    }
}

// A year-month text.
#[tactic(auto, unfolding(crate::specs::Read::year_month_text))]
pub fn whole_year_month_text(t: &[u8]) -> Option<Tailed<DateRead>>
    ensures { result ≡ year_month_text t.now }
{
    let part = date_syntax::read_year_month(t)?;
    let Some(tail) = &read_tail(date_syntax::after_year_month(t, part)) else {
        return None;
    };
    Some(Tailed { part, tail: *tail })
}

// A month-day text.
#[tactic(auto, unfolding(crate::specs::Read::month_day_text))]
pub fn whole_month_day_text(t: &[u8]) -> Option<Tailed<MonthDayRead>>
    ensures { result ≡ month_day_text t.now }
{
    let part = date_syntax::read_month_day(t)?;
    let Some(tail) = &read_tail(date_syntax::after_month_day(t, part)) else {
        return None;
    };
    Some(Tailed { part, tail: *tail })
}

// A stamp text; else what could be read of it.
pub fn read_stamp(t: &[u8]) -> Result<StampRead, StampPieces>
    ensures { result ≡ ok_or (stamp t.now) (stamp_pieces t.now) }
{
    whole_stamp(t).ok_or_else(|| stamp_pieces(t))
}

// A time text; else what could be read of it.
pub fn read_time_text(t: &[u8]) -> Result<Tailed<ClockRead>, Pieces<ClockPieces>>
    ensures { result ≡ ok_or (time_text t.now) (time_text_pieces t.now) }
{
    whole_time_text(t).ok_or_else(|| time_text_pieces(t))
}

// A year-month text; else what could be read of it.
pub fn read_year_month_text(t: &[u8]) -> Result<Tailed<DateRead>, Pieces<Option<DateRead>>>
    ensures { result ≡ ok_or (year_month_text t.now) (year_month_pieces t.now) }
{
    whole_year_month_text(t).ok_or_else(|| year_month_pieces(t))
}

// A month-day text; else what could be read of it.
pub fn read_month_day_text(t: &[u8]) -> Result<Tailed<MonthDayRead>, Pieces<Option<MonthDayRead>>>
    ensures { result ≡ ok_or (month_day_text t.now) (month_day_pieces t.now) }
{
    whole_month_day_text(t).ok_or_else(|| month_day_pieces(t))
}
