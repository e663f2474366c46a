// What could be read of a text that is not of the grammar, by parts. A part that could not be read is None, and takes no byte: what follows it is
// read from where it would start.
ghost use Rattle.std.specs.Prelude.{◌≡◌};
ghost use Rattle.date_syntax.specs.Read.{after_date};
ghost use Rattle.time_syntax.specs.Read.{after_time, after_utc};
ghost use Rattle.grammar.specs.Pieces.{clock_pieces, past_pieces, timed_pieces, stamp_pieces, time_text_pieces, year_month_pieces, month_day_pieces};

use date_syntax::{DateRead, MonthDayRead};
use tail_syntax::{Tail, read_tail};
use time_syntax::{TimeRead, UtcRead};

// What could be read of a time of day and of how it stands to UTC, and the byte before them, where there is one.
#[derive(Clone, Copy, Debug, PartialEq, Eq)]
pub struct ClockPieces {
    pub lead: Option<u8>,
    pub time: Option<TimeRead>,
    pub utc: Option<Option<UtcRead>>,
}

// What could be read of a stamp text; it has a clock where a separator stands after its date.
#[derive(Clone, Copy, Debug, PartialEq, Eq)]
pub struct StampPieces {
    pub date: Option<DateRead>,
    pub clock: Option<ClockPieces>,
    pub tail: Option<Tail>,
}

// What could be read of a text of one part and the tail.
#[derive(Clone, Copy, Debug, PartialEq, Eq)]
pub struct Pieces<P> {
    pub part: P,
    pub tail: Option<Tail>,
}

// What follows a time, where there is one.
fn after_time(t: &[u8], time: Option<TimeRead>) -> &[u8]
    ensures { result.now ≡ after_time time t.now }
{
    match time {
        Some(time) => time.past(t),
        None => t,
    }
}

// What follows that.
fn after_utc(t: &[u8], utc: Option<Option<UtcRead>>) -> &[u8]
    ensures { result.now ≡ after_utc utc t.now }
{
    match utc {
        Some(utc) => time_syntax::past_utc(t, utc),
        None => t,
    }
}

// The time at the front, and how it stands to UTC.
#[tactic(auto, unfolding(crate::specs::Pieces::clock_pieces))]
fn clock_pieces(t: &[u8], lead: Option<u8>) -> ClockPieces
    ensures { result ≡ clock_pieces lead t.now }
{
    let time = time_syntax::read_time(t);
    let utc = time_syntax::read_utc(after_time(t, time));
    ClockPieces { lead, time, utc }
}

impl ClockPieces {
    // What follows them in a text that they stand at the front of.
    fn past(self, t: &[u8]) -> &[u8]
        ensures { result.now ≡ past_pieces self t.now }
    {
        after_utc(after_time(t, self.time), self.utc)
    }
}

// A clock and the tail, after the byte before the clock.
#[tactic(auto, unfolding(crate::specs::Pieces::timed_pieces))]
fn timed_pieces(t: &[u8], lead: Option<u8>) -> Pieces<ClockPieces>
    ensures { result ≡ timed_pieces lead t.now }
{
    let clock = clock_pieces(t, lead);
    let tail = read_tail(clock.past(t));
    Pieces { part: clock, tail }
}

// What follows a date, where there is one.
fn after_date(t: &[u8], date: Option<DateRead>) -> &[u8]
    ensures { result.now ≡ after_date date t.now }
{
    match date {
        Some(date) => date_syntax::after_date(t, date),
        None => t,
    }
}

// A stamp text.
#[tactic(auto, unfolding(crate::specs::Pieces::stamp_pieces))]
pub fn stamp_pieces(t: &[u8]) -> StampPieces
    ensures { result ≡ stamp_pieces t.now }
{
    let date = date_syntax::read_date(t);
    match after_date(t, date) {
        [sep @ (b'T' | b't' | b' '), r @ ..] => {
            let timed = timed_pieces(r, Some(*sep));
            StampPieces {
                date,
                clock: Some(timed.part),
                tail: timed.tail,
            }
        }
        r => StampPieces {
            date,
            clock: None,
            tail: read_tail(r),
        },
    }
}

// A time text.
#[tactic(auto, unfolding(crate::specs::Pieces::time_text_pieces))]
pub fn time_text_pieces(t: &[u8]) -> Pieces<ClockPieces>
    ensures { result ≡ time_text_pieces t.now }
{
    match t {
        [lead @ (b'T' | b't'), r @ ..] => timed_pieces(r, Some(*lead)),
        _ => timed_pieces(t, None),
    }
}

// A year-month text.
#[tactic(auto, unfolding(crate::specs::Pieces::year_month_pieces))]
pub fn year_month_pieces(t: &[u8]) -> Pieces<Option<DateRead>>
    ensures { result ≡ year_month_pieces t.now }
{
    let part = date_syntax::read_year_month(t);
    let tail = match part {
        Some(date) => read_tail(date_syntax::after_year_month(t, date)),
        None => read_tail(t),
    };
    Pieces { part, tail }
}

// A month-day text.
#[tactic(auto, unfolding(crate::specs::Pieces::month_day_pieces))]
pub fn month_day_pieces(t: &[u8]) -> Pieces<Option<MonthDayRead>>
    ensures { result ≡ month_day_pieces t.now }
{
    let part = date_syntax::read_month_day(t);
    let tail = match part {
        Some(day) => read_tail(date_syntax::after_month_day(t, day)),
        None => read_tail(t),
    };
    Pieces { part, tail }
}
