// The goals of a reading, and their numbers 0 to 6.
ghost use Rattle.std.specs.Prelude.{◌≡◌};
ghost use Rattle.record.specs.Goals.{goal_number, goal_of};

use text::Refusal;

#[derive(Clone, Copy, Debug, PartialEq, Eq)]
pub enum Goal {
    Stamp = 0,
    Plain = 1,
    Zoned = 2,
    Instant = 3,
    Time = 4,
    YearMonth = 5,
    MonthDay = 6,
}

impl From<Goal> for u8 {
    ghost from_gives = { λ goal n. n ≡ goal_number goal };

    fn from(goal: Goal) -> u8 {
        goal as u8
    }
}

impl TryFrom<u32> for Goal {
    type Error = Refusal;

    ghost try_from_gives = { λ number r. r ≡ goal_of number };

    #[tactic(auto, using(crate::proofs::GoalLaws::no_goal), unfolding(crate::specs::Goals::goal_of, crate::specs::Goals::choices))]
    fn try_from(number: u32) -> Result<Goal, Refusal> {
        match number {
            0 => Ok(Goal::Stamp),
            1 => Ok(Goal::Plain),
            2 => Ok(Goal::Zoned),
            3 => Ok(Goal::Instant),
            4 => Ok(Goal::Time),
            5 => Ok(Goal::YearMonth),
            6 => Ok(Goal::MonthDay),
            _ => Err(Refusal::NoSuchGoal),
        }
    }
}
