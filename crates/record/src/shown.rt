// What a reading gives: the parts that a text shows, or a refusal.
ghost use Rattle.std.specs.Prelude.{◌≡◌, Ok, Err};
ghost use Rattle.record.specs.Refusals.{refusal_of};

use crate::stamp::{Clock, Date, Name};
use text::Refusal;

// The sign is kept also at zero: `-00:00` is negative.
#[derive(Clone, Copy, Debug, PartialEq, Eq)]
pub struct SignedClock {
    pub negative: bool,
    pub clock: Clock,
}

#[derive(Clone, Copy, Debug, PartialEq, Eq)]
pub enum ShownOffset {
    Z,
    At(SignedClock),
}

#[derive(Clone, Copy, Debug, PartialEq, Eq)]
pub struct MarkedName {
    pub name: Name,
    pub critical: bool,
}

#[derive(Clone, Copy, Debug, PartialEq, Eq)]
pub struct Shown {
    pub date: Option<Date>,
    pub time: Option<Clock>,
    pub offset: Option<ShownOffset>,
    pub zone: Option<MarkedName>,
    pub calendar: Option<MarkedName>,
}

pub type Reading = Result<Shown, Refusal>;

// 0, or the number of the refusal.
#[tactic(auto, using(crate::proofs::RefusalLaws::told))]
pub fn reading_refusal(r: Reading) -> u8
    ensures { result ≡ refusal_of r }
{
    refusal_number(r)
}

// The same where the refusal may also come as a number.
pub fn refusal_number<K: Into<u8>>(r: Result<Shown, K>) -> u8
    ensures accepted { (s : Shown) → r ≡ Ok s → result ≡ 0 }
    ensures refused { (k : K) → r ≡ Err k → K.converts k result }
{
    match r {
        Ok(_) => 0,
        Err(k) => k.into(),
    }
}

#[cfg(test)]
mod tests {
    use super::*;

    // The numbers are document 01's.
    #[test]
    fn numbers_of_readings(rt: HostRuntime) {
        let nothing = Shown {
            date: None,
            time: None,
            offset: None,
            zone: None,
            calendar: None,
        };
        assert_eq!(rt; reading_refusal(Ok(nothing)), 0);
        assert_eq!(rt; reading_refusal(Err(Refusal::TooLong)), 5);
        assert_eq!(rt; reading_refusal(Err(Refusal::NoSuchGoal)), 15);
    }
}
