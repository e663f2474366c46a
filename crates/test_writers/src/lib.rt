// For the test programs only: what the writers and their length functions answer to vector lines, in the words of these lines: tags WD to
// WP. A tag is added in one place: its line in `judge`.
#![tactic(auto)]

use date_writer::date::{date_length, write_date};
use duration::{duration_length, write_duration};
use partial_writer::{month_day_length, write_month_day, write_year_month, year_month_length};
use record::{Calendar, Date};
use tail_writer::calendar::{calendar_length, write_calendar};
use tail_writer::zone::{write_zone, zone_length};
use test_answers::written::{BLANK, PAPER, add_answers, room};
use test_lines::answer::Answer;
use test_lines::fields::{Fields, Text};
use test_lines::judged::NotJudged;
use test_records::records;
use text::Refusal;
use time_writer::offset::{offset_length, write_offset};
use time_writer::time::{time_length, write_time};
use writer::stamp::{stamp_length, write_stamp};

type Written = Result<usize, Refusal>;

// A record without a name.
fn plain<'a, T: Copy, R, L, W>(
    fields: &mut Fields<'a>,
    answer: &mut Answer,
    read: R,
    length: L,
    write: W,
) -> Option<()>
where
    R: FnOnce(&mut Fields<'a>) -> Option<T>,
    L: FnOnce(T) -> Written,
    W: FnOnce(&mut [u8], T) -> Written,
    requires read { R.IsAlwaysCallable read }
    requires length { L.IsAlwaysCallable length }
    requires write { W.IsAlwaysCallable write }
{
    let record = read(fields)?;
    let room = room(fields)?;
    let mut paper = [BLANK; PAPER];
    let written = write(&mut paper[..room], record);
    add_answers(answer, length(record), written, &paper);
    Some(())
}

// A record with names, which are lent beside it.
fn named<'a, T: Copy, R, L, W>(
    fields: &mut Fields<'a>,
    answer: &mut Answer,
    read: R,
    length: L,
    write: W,
) -> Option<()>
where
    R: FnOnce(&mut Fields<'a>, &mut Text) -> Option<T>,
    L: FnOnce(&[u8], T) -> Written,
    W: FnOnce(&mut [u8], &[u8], T) -> Written,
    requires read { R.IsAlwaysCallable read }
    requires length { L.IsAlwaysCallable length }
    requires write { W.IsAlwaysCallable write }
{
    let mut texts = Text::new();
    let record = read(fields, &mut texts)?;
    let lent = texts.as_slice();
    let room = room(fields)?;
    let mut paper = [BLANK; PAPER];
    let written = write(&mut paper[..room], lent, record);
    add_answers(answer, length(lent, record), written, &paper);
    Some(())
}

// year month day show NAME
fn date_in_calendar(fields: &mut Fields, text: &mut Text) -> Option<(Date, Calendar)> {
    Some((records::date(fields)?, records::calendar(fields, text)?))
}

pub fn judge(tag: &[u8], fields: &mut Fields, answer: &mut Answer) -> Result<(), NotJudged> {
    let read = match tag {
        b"WD" => plain(fields, answer, records::date, date_length, write_date),
        b"WT" => plain(fields, answer, records::time, time_length, write_time),
        b"WO" => plain(fields, answer, records::offset, offset_length, write_offset),
        b"WP" => plain(
            fields,
            answer,
            records::duration,
            duration_length,
            write_duration,
        ),
        b"WZ" => named(fields, answer, records::zone, zone_length, write_zone),
        b"WC" => named(
            fields,
            answer,
            records::calendar,
            calendar_length,
            write_calendar,
        ),
        b"WS" => named(fields, answer, records::stamp, stamp_length, write_stamp),
        b"WM" => named(
            fields,
            answer,
            date_in_calendar,
            |lent, (date, calendar)| month_day_length(lent, date, calendar),
            |buf, lent, (date, calendar)| write_month_day(buf, lent, date, calendar),
        ),
        b"WY" => named(
            fields,
            answer,
            date_in_calendar,
            |lent, (date, calendar)| year_month_length(lent, date, calendar),
            |buf, lent, (date, calendar)| write_year_month(buf, lent, date, calendar),
        ),
        _ => return Err(NotJudged::Unknown),
    };
    read.ok_or(NotJudged::Malformed)
}
