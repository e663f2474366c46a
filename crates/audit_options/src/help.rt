// What `--help` prints.
use audit_words::words::{GOALS, REFUSALS, goal_name, reason};
use record::Goal;

const USAGE: &str = "audit says of each line of a log which time stamp it is, or why it is refused.
usage: audit [OPTION..] [FILE]      FILE is the log; without one, standard input

  --refused      print only the lines that are refused
  --not-ours     print only the lines that are refused or not ours
  --summary      print the summary alone
  --goal GOAL    what a line has to be, by name or number; without it, stamp
  --help         print this

A line ends in a line feed, with or without a carriage return before it. Of each line are printed its
number, its width in bytes and its text, and below the text the verdict and what was read:
    ok, ours       it is read, and is exactly what the drive's library writes of a stamp with a date
  ? ok, not ours   it is read, but the library writes no stamp so
  ! refused N      it is not read, for the reason of number N
Bytes that do not print are shown as \\xNN. A text of more than 190 columns is cut.
";

// What a goal asks of a line.
fn meaning(goal: Goal) -> &'static str {
    match goal {
        Goal::Stamp => "a date, then a time, an offset or Z, a zone, annotations, or none of them",
        Goal::Plain => "a stamp without Z",
        Goal::Zoned => "a stamp with a zone",
        Goal::Instant => "a stamp with a time, and an offset or Z",
        Goal::Time => "a time, or a plain stamp with a time",
        Goal::YearMonth => "a year and a month, or a plain stamp",
        Goal::MonthDay => "a month and a day, or a plain stamp",
    }
}

// What is not taken is not told here.
pub fn print(to: &impl Print) {
    let _ = print!(to; "{USAGE}\nGoals:\n");
    for goal in GOALS {
        let _ = println!(to;
            "{:>4}  {:<12}{}",
            goal as u8,
            goal_name(goal),
            meaning(goal)
        );
    }
    let _ = print!(to; "\nReasons of refusal:\n");
    for refusal in REFUSALS {
        if let Some(words) = reason(refusal) {
            let _ = println!(to; "{:>4}  {words}", refusal as u8);
        }
    }
}
