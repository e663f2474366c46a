// The words of the audit, each said once: why a text is refused, the names of the goals, the months, how the year's width changes.
ghost use Rattle.std.specs.Prelude.{◌≡◌, ◌+◌, ◌≤◌, length, IfSome};
ghost use Rattle.audit_words.specs.Within.{Within};

use crate::row::Row;
use audit_tally::kinds::Change;
use record::Goal;
use text::Refusal;

// The refusals, by their numbers.
pub const REFUSALS: [Refusal; 15] = [
    Refusal::NoRoom,
    Refusal::BadField,
    Refusal::BadName,
    Refusal::BadParts,
    Refusal::TooLong,
    Refusal::BadText,
    Refusal::UnknownCritical,
    Refusal::LongFraction,
    Refusal::OtherCalendar,
    Refusal::CalendarClash,
    Refusal::BadDay,
    Refusal::ForbiddenZ,
    Refusal::MissingPart,
    Refusal::TooLarge,
    Refusal::NoSuchGoal,
];

// The goals, by their numbers.
pub const GOALS: [Goal; 7] = [
    Goal::Stamp,
    Goal::Plain,
    Goal::Zoned,
    Goal::Instant,
    Goal::Time,
    Goal::YearMonth,
    Goal::MonthDay,
];

// Why a text is refused, where a text can be.
pub fn reason(refusal: Refusal) -> Option<&'static str>
    ensures { IfSome result (λ words. length words.now ≤ 64) }
{
    match refusal {
        Refusal::TooLong => Some("over 1,024 bytes"),
        Refusal::BadText => Some("the form is wrong"),
        Refusal::UnknownCritical => Some("a critical annotation other than u-ca"),
        Refusal::LongFraction => Some("a fraction of more than nine digits"),
        Refusal::OtherCalendar => Some("a calendar other than iso8601"),
        Refusal::CalendarClash => Some("a second calendar, and one of them is critical"),
        Refusal::BadDay => Some("the day is not in its month"),
        Refusal::ForbiddenZ => Some("Z, which the goal forbids"),
        Refusal::MissingPart => Some("a zone, time or offset that the goal needs is missing"),
        _ => None,
    }
}

// A refusal: its number and why.
pub fn put_refusal<const N: usize>(row: &mut Row<N>, refusal: Refusal)
    requires { length row.old + 94 ≤ N }
    ensures { Within (length row.old) 94 (length row.new) }
{
    row.text("refused ");
    row.number(refusal as u64);
    row.text(": ");
    row.text(reason(refusal).unwrap_or("for no reason that is known here"));
}

pub fn goal_name(goal: Goal) -> &'static str
    ensures { length result.now ≤ 10 }
{
    match goal {
        Goal::Stamp => "stamp",
        Goal::Plain => "plain",
        Goal::Zoned => "zoned",
        Goal::Instant => "instant",
        Goal::Time => "time",
        Goal::YearMonth => "year-month",
        Goal::MonthDay => "month-day",
    }
}

// The name of a month, short, and three dashes for month 0; nothing for what is no month.
pub fn month_name(month: u8) -> &'static str
    ensures most { length result.now ≤ 3 }
    ensures three { month ≤ 12 → length result.now ≡ 3 }
{
    match month {
        0 => "---",
        1 => "Jan",
        2 => "Feb",
        3 => "Mar",
        4 => "Apr",
        5 => "May",
        6 => "Jun",
        7 => "Jul",
        8 => "Aug",
        9 => "Sep",
        10 => "Oct",
        11 => "Nov",
        12 => "Dec",
        _ => "",
    }
}

// How the year's width changes.
pub fn change_words(change: Change) -> &'static str
    ensures { length result.now ≤ 32 }
{
    match change {
        Change::Wider => "from 4 digits to a sign and 6",
        Change::Narrower => "from a sign and 6 digits to 4",
    }
}
