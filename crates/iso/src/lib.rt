// The Gregorian rule, for every i32 year, and the checks of a date and a time of day. `magnitude` is the one function that computes with
// a signed number.
#![tactic(auto)]

ghost use Rattle.std.specs.Prelude.{◌≡◌, ◌&&◌, leb, nat_abs};
ghost use Rattle.iso.specs.Gregorian.{is_leap, days_in_month, valid_date};
ghost use Rattle.iso.specs.TimeOfDay.{valid_time};

// The magnitude of any year.
pub fn magnitude(year: i32) -> u32
    ensures { result ≡ nat_abs year }
{
    year.unsigned_abs()
}

pub fn is_leap(year: i32) -> bool
    ensures { result ≡ is_leap year }
{
    let n = magnitude(year);
    (n % 4 == 0) & ((n % 100 != 0) | (n % 400 == 0))
}

// The lengths of the months but February's, each at its own place.
const LENGTHS: [u8; 13] = [0, 31, 0, 31, 30, 31, 30, 31, 31, 30, 31, 30, 31];

// How many days a month has; 0 for what is no month.
pub fn iso_days_in_month(year: i32, month: u8) -> u8
    ensures { result ≡ days_in_month year month }
{
    if 12 < month {
        return 0;
    }
    if month == 2 {
        if is_leap(year) { 29 } else { 28 }
    } else {
        LENGTHS[month as usize]
    }
}

// A day that its month has in every year, as most days are.
fn in_every_year(month: u8, day: u8) -> bool
    ensures { result ≡ (leb 1 month && leb month 12 && leb 1 day && leb day 28) }
{
    (1..=12).contains(&month) & (1..=28).contains(&day)
}

pub fn is_valid_date(year: i32, month: u8, day: u8) -> bool
    ensures { result ≡ valid_date year month day }
{
    in_every_year(month, day) || (1 <= day) & (day <= iso_days_in_month(year, month))
}

pub fn is_valid_time(
    hour: u8,
    minute: u8,
    second: u8,
    millisecond: u16,
    microsecond: u16,
    nanosecond: u16,
) -> bool
    ensures { result ≡ valid_time hour minute second millisecond microsecond nanosecond }
{
    (hour <= 23)
        & (minute <= 59)
        & (second <= 59)
        & (millisecond <= 999)
        & (microsecond <= 999)
        & (nanosecond <= 999)
}
