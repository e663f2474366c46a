// The fields of a reading in plain words: `date 6 May 2024, time 10:15:30.5, offset +05:30, zone Europe/Berlin (critical)`. Times and offsets are
// written by the library's own writers.
#![tactic(auto)]

ghost use Rattle.std.specs.Prelude.{◌+◌, ◌≤◌, length};
ghost use Rattle.audit_words.specs.Within.{Within};

use audit_words::row::Row;
use audit_words::words::month_name;
use record::{
    Clock, Date, DisplayOffset, MarkedName, Offset, Precision, Shown, ShownOffset, Sign,
    SignedClock, SignedTime, Time, UtcOffset,
};
use text::walk::part;
use time_writer::offset::write_offset;
use time_writer::time::write_time;

// A year that four digits without a zero in front do not write is called one.
fn put_year<const N: usize>(row: &mut Row<N>, year: i32)
    requires { length row.old + 28 ≤ N }
    ensures { Within (length row.old) 28 (length row.new) }
{
    row.text(match year {
        ..0 => ", year -",
        1000..=9999 => " ",
        _ => ", year ",
    });
    row.number(u64::from(iso::magnitude(year)));
}

fn put_date<const N: usize>(row: &mut Row<N>, date: Date)
    requires { length row.old + 57 ≤ N }
    ensures { Within (length row.old) 57 (length row.new) }
{
    row.text("date ");
    row.number(u64::from(date.day));
    row.byte(b' ');
    row.text(month_name(date.month));
    put_year(row, date.year);
}

fn put_clock<const N: usize>(row: &mut Row<N>, clock: Clock)
    requires { length row.old + 18 ≤ N }
    ensures { Within (length row.old) 18 (length row.new) }
{
    let mut bytes = [0u8; 18];
    let time = Time {
        clock,
        precision: Precision::Auto,
        include_sep: true,
    };
    if let Ok(n) = write_time(&mut bytes, time) {
        row.put(&bytes[..n]);
    }
}

// An offset of whole minutes is shown as such.
fn precision_of(c: Clock) -> Precision {
    if c.second == 0 && c.nanosecond == 0 {
        Precision::Minute
    } else {
        Precision::Auto
    }
}

fn offset_of(s: SignedClock) -> Offset {
    let time = Time {
        clock: s.clock,
        precision: precision_of(s.clock),
        include_sep: true,
    };
    let sign = if s.negative {
        Sign::Negative
    } else {
        Sign::Positive
    };
    Offset {
        show: DisplayOffset::Auto,
        offset: UtcOffset::Offset(SignedTime { sign, time }),
    }
}

fn put_offset<const N: usize>(row: &mut Row<N>, offset: ShownOffset)
    requires { length row.old + 28 ≤ N }
    ensures { Within (length row.old) 28 (length row.new) }
{
    match offset {
        ShownOffset::Z => row.text(", UTC"),
        ShownOffset::At(s) => {
            let mut bytes = [0u8; 19];
            row.text(", offset ");
            if let Ok(n) = write_offset(&mut bytes, offset_of(s)) {
                row.put(&bytes[..n]);
            }
        }
    }
}

// A name of the line, if there is one, with the word before it. A name of more than 64 bytes is cut.
fn put_name<const N: usize>(row: &mut Row<N>, word: &str, line: &[u8], name: Option<MarkedName>)
    requires { (length row.old + 92 ≤ N) × (length word.now ≤ 11) }
    ensures { Within (length row.old) 92 (length row.new) }
{
    let Some(marked) = name else { return };
    row.text(word);
    row.shown(part(line, marked.name.at, marked.name.len), 64);
    if marked.critical {
        row.text(" (critical)");
    }
}

// Every field that a reading shows. Its names are places in the line.
pub fn put_fields<const N: usize>(row: &mut Row<N>, line: &[u8], shown: Shown)
    requires { length row.old + 294 ≤ N }
    ensures { Within (length row.old) 294 (length row.new) }
{
    if let Some(date) = shown.date {
        put_date(row, date);
    }
    if let Some(clock) = shown.time {
        row.text(if shown.date.is_some() {
            ", time "
        } else {
            "time "
        });
        put_clock(row, clock);
    }
    if let Some(offset) = shown.offset {
        put_offset(row, offset);
    }
    put_name(row, ", zone ", line, shown.zone);
    put_name(row, ", calendar ", line, shown.calendar);
}
