// The dates at the front of a text: `YYYY-MM-DD`, `YYYY-MM`, and `MM-DD` or `--MM-DD`. A year is four digits, or a sign and six.
#![tactic(auto)]

ghost use Rattle.std.specs.Prelude.{◌≡◌, Some};
ghost use Rattle.date_syntax.specs.Read.{marked, plain, signed, year, date, year_month, after_date, after_year_month, month_day_at, month_day, after_month_day};

// A year's sign and number, and whether it is written with a sign and six digits.
#[derive(Clone, Copy, Debug, PartialEq, Eq)]
pub struct Year {
    pub negative: bool,
    pub year: u32,
    pub wide: bool,
}

// A date that was read; a year-month has day 1.
#[derive(Clone, Copy, Debug, PartialEq, Eq)]
pub struct DateRead {
    pub negative: bool,
    pub year: u32,
    pub wide: bool,
    pub month: u8,
    pub day: u8,
}

// A month and a day that were read, and whether `--` stands before them.
#[derive(Clone, Copy, Debug, PartialEq, Eq)]
pub struct MonthDayRead {
    pub dashes: bool,
    pub month: u8,
    pub day: u8,
}

// `-` and two digits whose number is from lo to hi.
#[tactic(auto, unfolding(crate::specs::Read::marked))]
fn marked_two(t: &[u8], lo: u8, hi: u8) -> Option<u8>
    ensures { result ≡ marked lo hi t.now }
{
    match t {
        [b'-', digits @ ..] => names::field::two(digits, lo, hi),
        _ => None,
    }
}

// Four digits.
#[tactic(auto, unfolding(crate::specs::Read::plain))]
fn four(t: &[u8]) -> Option<Year>
    ensures { result ≡ plain t.now }
{
    let high = names::field::two(t, 0, 99)?;
    let low = names::field::two(text::walk::rest(t, 2), 0, 99)?;
    Some(Year {
        negative: false,
        year: u32::from(high) * 100 + u32::from(low),
        wide: false,
    })
}

// Six digits, after their sign. `-000000` is no year.
#[tactic(auto, unfolding(crate::specs::Read::signed))]
fn six(t: &[u8], negative: bool) -> Option<Year>
    ensures { result ≡ signed negative t.now }
{
    let high = names::field::two(t, 0, 99)?;
    let middle = names::field::two(text::walk::rest(t, 2), 0, 99)?;
    let low = names::field::two(text::walk::rest(t, 4), 0, 99)?;
    let year = u32::from(high) * 10000 + u32::from(middle) * 100 + u32::from(low);
    if negative && year == 0 {
        return None;
    }
    Some(Year {
        negative,
        year,
        wide: true,
    })
}

// The year at the front.
#[tactic(auto, unfolding(crate::specs::Read::year))]
fn read_year(t: &[u8]) -> Option<Year>
    ensures { result ≡ year t.now }
{
    match t {
        [b'+', digits @ ..] => six(digits, false),
        [b'-', digits @ ..] => six(digits, true),
        _ => four(t),
    }
}

// The year-month at the front.
#[tactic(auto, unfolding(crate::specs::Read::year_month))]
pub fn read_year_month(t: &[u8]) -> Option<DateRead>
    ensures { result ≡ year_month t.now }
{
    let Year {
        negative,
        year,
        wide,
    } = read_year(t)?;
    let month = marked_two(text::walk::rest(t, if wide { 7 } else { 4 }), 1, 12)?;
    Some(DateRead {
        negative,
        year,
        wide,
        month,
        day: 1,
    })
}

// The date at the front.
#[tactic(auto, unfolding(crate::specs::Read::date))]
pub fn read_date(t: &[u8]) -> Option<DateRead>
    ensures { result ≡ date t.now }
{
    let date = read_year_month(t)?;
    let day = marked_two(after_year_month(t, date), 1, 31)?;
    Some(DateRead { day, ..date })
}

// What follows a date, and a year-month.
pub fn after_date(t: &[u8], d: DateRead) -> &[u8]
    ensures { result.now ≡ after_date (Some d) t.now }
{
    text::walk::rest(t, if d.wide { 13 } else { 10 })
}

pub fn after_year_month(t: &[u8], d: DateRead) -> &[u8]
    ensures { result.now ≡ after_year_month (Some d) t.now }
{
    text::walk::rest(t, if d.wide { 10 } else { 7 })
}

// The two digits of a month, and what follows them.
fn month_day_at(t: &[u8], dashes: bool) -> Option<MonthDayRead>
    ensures { result ≡ month_day_at dashes t.now }
{
    let month = names::field::two(t, 1, 12)?;
    let day = marked_two(text::walk::rest(t, 2), 1, 31)?;
    Some(MonthDayRead { dashes, month, day })
}

// The month-day at the front.
#[tactic(auto, unfolding(crate::specs::Read::month_day, crate::specs::Read::dashes))]
pub fn read_month_day(t: &[u8]) -> Option<MonthDayRead>
    ensures { result ≡ month_day t.now }
{
    match t {
        [b'-', b'-', rest @ ..] => month_day_at(rest, true),
        _ => month_day_at(t, false),
    }
}

// What follows a month-day.
pub fn after_month_day(t: &[u8], d: MonthDayRead) -> &[u8]
    ensures { result.now ≡ after_month_day (Some d) t.now }
{
    text::walk::rest(t, if d.dashes { 7 } else { 5 })
}
