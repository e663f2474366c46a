// What was read as one number: the sum of all its fields, wrapped at 64 bits, with a 1 for each part that is there. It reads every field once, and nothing
// of the reading can be left out of the count.
ghost use Rattle.std.specs.Prelude.{◌≡◌, ℕ};
ghost use Rattle.bench_calls.specs.Sum.{plus, clock_sum, year_sum, day_sum, part_sum, signed_sum, offset_sum, marked_sum, shown_sum, reading_sum};

use stamp::{
    Clock, Date, DurationReading, DurationShown, MarkedName, Reading, Shown, ShownOffset,
    SignedClock,
};

#[tactic(auto, unfolding(crate::specs::Sum::plus))]
fn plus_of(a: u64, b: u64) -> u64
    ensures { result ≡ plus a b }
{
    a.wrapping_add(b)
}

// What has a sum of its own fields.
trait Summed {
    ghost sum_of: { Self → ℕ };

    fn sum(self) -> u64
        ensures { result ≡ sum_of self };
}

impl Summed for Clock {
    ghost sum_of = { clock_sum };

    #[tactic(auto, unfolding(crate::specs::Sum::clock_sum))]
    fn sum(self) -> u64 {
        let hm = plus_of(self.hour.into(), self.minute.into());
        let sn = plus_of(self.second.into(), self.nanosecond.into());
        plus_of(hm, sn)
    }
}

#[tactic(auto, unfolding(crate::specs::Sum::year_sum, crate::specs::Sum::is_negative))]
fn year_sum(year: i32) -> u64
    ensures { result ≡ year_sum year }
{
    plus_of(year.unsigned_abs().into(), (year < 0).into())
}

impl Summed for Date {
    ghost sum_of = { day_sum };

    #[tactic(auto, unfolding(crate::specs::Sum::day_sum))]
    fn sum(self) -> u64 {
        let md = plus_of(self.month.into(), self.day.into());
        plus_of(year_sum(self.year), md)
    }
}

impl Summed for SignedClock {
    ghost sum_of = { signed_sum };

    #[tactic(auto, unfolding(crate::specs::Sum::signed_sum))]
    fn sum(self) -> u64 {
        plus_of(self.negative.into(), self.clock.sum())
    }
}

impl Summed for MarkedName {
    ghost sum_of = { marked_sum };

    #[tactic(auto, unfolding(crate::specs::Sum::marked_sum))]
    fn sum(self) -> u64 {
        let place = plus_of(self.name.at as u64, self.name.len as u64);
        plus_of(place, self.critical.into())
    }
}

// Of a part that is there, 1 more than its own sum.
fn part_sum<T: Summed>(part: Option<T>) -> u64
    ensures { result ≡ part_sum T.sum_of part }
{
    match part {
        None => 0,
        Some(part) => plus_of(1, part.sum()),
    }
}

fn offset_sum(offset: Option<ShownOffset>) -> u64
    ensures { result ≡ offset_sum offset }
{
    match offset {
        None => 0,
        Some(ShownOffset::Z) => 1,
        Some(ShownOffset::At(offset)) => plus_of(2, offset.sum()),
    }
}

impl Summed for Shown {
    ghost sum_of = { shown_sum };

    #[tactic(auto, unfolding(crate::specs::Sum::shown_sum))]
    fn sum(self) -> u64 {
        let dated = plus_of(part_sum(self.date), part_sum(self.time));
        let named = plus_of(part_sum(self.zone), part_sum(self.calendar));
        plus_of(dated, plus_of(offset_sum(self.offset), named))
    }
}

// A refusal's number as it is; 1,000 more for what was accepted.
pub fn reading_sum(r: Reading) -> u64
    ensures { result ≡ reading_sum r }
{
    match r {
        Ok(shown) => plus_of(1000, shown.sum()),
        Err(k) => u8::from(k).into(),
    }
}

fn duration_shown_sum(s: DurationShown) -> u64 {
    let ym = plus_of(s.years.into(), s.months.into());
    let wd = plus_of(s.weeks.into(), s.days);
    let hm = plus_of(s.hours, s.minutes);
    let sn = plus_of(s.seconds, s.nanoseconds.into());
    plus_of(s.sign as u64, plus_of(plus_of(ym, wd), plus_of(hm, sn)))
}

// The same of a duration.
pub fn duration_sum(r: DurationReading) -> u64 {
    match r {
        Ok(shown) => plus_of(1000, duration_shown_sum(shown)),
        Err(k) => u8::from(k).into(),
    }
}
