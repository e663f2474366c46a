// For measuring only: calls of the face as exported functions over numbers and slices, one call each, so that a driver in C counts their instructions
// (`bench/`) and a linker their bytes (`tools/size`). A record is made of numbers on the way in; on the way out a reading is one number, of every field.
#![tactic(auto)]

ghost use Rattle.std.specs.Prelude.{◌≡◌};
ghost use Rattle.record.specs.declared.goal.Goal.TheVariants.{Stamp};
ghost use Rattle.reader.specs.Goals.{read_goal, read_number};
ghost use Rattle.bench_calls.specs.Told.{told};
ghost use Rattle.bench_calls.specs.Sum.{reading_sum};

use records::Words;
use stamp::{Clock, Date, DisplayOffset, Goal, Precision, Refusal};

pub mod records;
pub mod sum;

// What a writer answered as one number: the count of bytes, or 1,000 and the refusal's.
fn told_of(answer: Result<usize, Refusal>) -> usize
    ensures { result ≡ told answer }
{
    match answer {
        Ok(n) => n,
        Err(k) => 1000 + usize::from(u8::from(k)),
    }
}

#[unsafe(no_mangle)]
pub extern "C" fn bench_read(text: &[u8]) -> u64
    ensures { result ≡ reading_sum (read_goal Stamp text.now) }
{
    sum::reading_sum(stamp::read(Goal::Stamp, text))
}

#[unsafe(no_mangle)]
pub extern "C" fn bench_read_goal(goal: u32, text: &[u8]) -> u64
    ensures { result ≡ reading_sum (read_number goal text.now) }
{
    sum::reading_sum(stamp::read_number(goal, text))
}

#[unsafe(no_mangle)]
pub extern "C" fn bench_read_duration(text: &[u8]) -> u64 {
    sum::duration_sum(stamp::read_duration(text))
}

#[unsafe(no_mangle)]
pub extern "C" fn bench_zone_of(goal: u32, text: &[u8]) -> usize {
    stamp::zone_of(goal, text).len()
}

#[unsafe(no_mangle)]
pub extern "C" fn bench_find_calendar(text: &[u8]) -> usize {
    stamp::find_calendar(text).len()
}

// Three stamps as a caller makes them: a date, a time to the second beside it, and an instant in UTC with its precision.
#[unsafe(no_mangle)]
pub extern "C" fn bench_write_day(buf: &mut [u8], year: i32, month: u8, day: u8) -> usize {
    let date = Date { year, month, day };
    told_of(stamp::write_stamp(buf, b"", stamp::Stamp::empty().with_date(date)))
}

#[unsafe(no_mangle)]
pub extern "C" fn bench_write_second(
    buf: &mut [u8],
    year: i32,
    month: u8,
    day: u8,
    hour: u8,
    minute: u8,
    second: u8,
) -> usize {
    let date = Date { year, month, day };
    let clock = Clock {
        hour,
        minute,
        second,
        nanosecond: 0,
    };
    told_of(stamp::write_stamp(buf, b"", records::moment_of(date, clock, Precision::Auto)))
}

#[unsafe(no_mangle)]
pub extern "C" fn bench_write_instant(
    buf: &mut [u8],
    year: i32,
    month: u8,
    day: u8,
    hour: u8,
    minute: u8,
    second: u8,
    nanosecond: u32,
    precision: u8,
) -> usize {
    let date = Date { year, month, day };
    let clock = Clock {
        hour,
        minute,
        second,
        nanosecond,
    };
    let moment = records::moment_of(date, clock, records::precision_of(precision));
    told_of(stamp::write_stamp(buf, b"", moment.with_z(DisplayOffset::Auto)))
}

// Any stamp.
#[unsafe(no_mangle)]
pub extern "C" fn bench_write_stamp(
    buf: &mut [u8],
    lent: &[u8],
    year: i32,
    words: &[u32],
) -> usize {
    if words.len() < records::WORDS {
        return 0;
    }
    told_of(stamp::write_stamp(buf, lent, Words(words).stamp(year)))
}

#[unsafe(no_mangle)]
pub extern "C" fn bench_write_date(buf: &mut [u8], year: i32, month: u8, day: u8) -> usize {
    told_of(stamp::write_date(buf, Date { year, month, day }))
}

#[unsafe(no_mangle)]
pub extern "C" fn bench_write_time(buf: &mut [u8], words: &[u32]) -> usize {
    told_of(stamp::write_time(buf, Words(words).time()))
}

#[unsafe(no_mangle)]
pub extern "C" fn bench_write_offset(buf: &mut [u8], words: &[u32]) -> usize {
    told_of(stamp::write_offset(buf, Words(words).offset()))
}

#[unsafe(no_mangle)]
pub extern "C" fn bench_write_zone(buf: &mut [u8], lent: &[u8], words: &[u32]) -> usize {
    told_of(stamp::write_zone(buf, lent, Words(words).zone()))
}

#[unsafe(no_mangle)]
pub extern "C" fn bench_write_calendar(buf: &mut [u8], lent: &[u8], words: &[u32]) -> usize {
    told_of(stamp::write_calendar(buf, lent, Words(words).calendar()))
}

#[unsafe(no_mangle)]
pub extern "C" fn bench_write_month_day(
    buf: &mut [u8],
    lent: &[u8],
    year: i32,
    words: &[u32],
) -> usize {
    let words = Words(words);
    told_of(stamp::write_month_day(buf, lent, words.date(year), words.calendar()))
}

#[unsafe(no_mangle)]
pub extern "C" fn bench_write_year_month(
    buf: &mut [u8],
    lent: &[u8],
    year: i32,
    words: &[u32],
) -> usize {
    let words = Words(words);
    told_of(stamp::write_year_month(buf, lent, words.date(year), words.calendar()))
}

// A duration of every part: its largest numbers in `large`, the rest in `words`.
#[unsafe(no_mangle)]
pub extern "C" fn bench_write_duration(buf: &mut [u8], words: &[u32], large: &[u64]) -> usize {
    told_of(stamp::write_duration(buf, records::duration_of(words, large)))
}
