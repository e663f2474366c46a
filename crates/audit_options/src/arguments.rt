// What the arguments ask for.
use audit_tally::kinds::{Asked, Rows};
use audit_words::words::{GOALS, goal_name};
use record::Goal;
use std::env::{Env, FillError};
use std::fmt;

// What is wrong with the arguments.
#[derive(Clone, Copy, Debug, PartialEq, Eq)]
pub enum Fault {
    TooLong,
    NoOption,
    NoGoal,
    GoalMissing,
    SecondFile,
}

impl fmt::Display for Fault {
    fn fmt<W: fmt::Write>(&self, f: &mut fmt::Formatter<W>) -> fmt::Result {
        f.write_str(match self {
            Fault::TooLong => "an argument is too long",
            Fault::NoOption => "no such option: ",
            Fault::NoGoal => "no such goal: ",
            Fault::GoalMissing => "--goal wants a goal after it",
            Fault::SecondFile => "one log at a time, and this is the second: ",
        })
    }
}

// A fault, with the number of its argument.
#[derive(Clone, Copy, Debug, PartialEq, Eq)]
pub struct Complaint {
    pub what: Fault,
    pub at: usize,
}

// What is to be done. The log is the file that the argument of this number names; without one, standard input.
#[derive(Clone, Copy, Debug, PartialEq, Eq)]
pub enum Task {
    Audit(Option<usize>),
    Help,
}

#[derive(Clone, Copy, Debug, PartialEq, Eq)]
pub struct Options {
    pub task: Task,
    pub asked: Asked,
    // Whether the next argument names the goal.
    naming: bool,
}

impl Options {
    fn new() -> Self {
        Options {
            task: Task::Audit(None),
            asked: Asked {
                goal: Goal::Stamp,
                rows: Rows::All,
            },
            naming: false,
        }
    }

    fn printing(self, rows: Rows) -> Self {
        Options {
            asked: Asked { rows, ..self.asked },
            ..self
        }
    }

    fn for_goal(self, word: &[u8]) -> Result<Self, Fault> {
        let goal = goal_named(word).ok_or(Fault::NoGoal)?;
        Ok(Options {
            asked: Asked { goal, ..self.asked },
            naming: false,
            ..self
        })
    }

    fn of_file(self, at: usize) -> Result<Self, Fault> {
        match self.task {
            Task::Audit(None) => Ok(Options {
                task: Task::Audit(Some(at)),
                ..self
            }),
            _ => Err(Fault::SecondFile),
        }
    }

    // With the word that is argument `at`.
    fn with(self, word: &[u8], at: usize) -> Result<Self, Fault> {
        if self.naming {
            return self.for_goal(word);
        }
        if let Some(name) = word.strip_prefix(b"--goal=") {
            return self.for_goal(name);
        }
        match word {
            b"--help" => Ok(Options {
                task: Task::Help,
                ..self
            }),
            b"--not-ours" => Ok(self.printing(Rows::NotOurs)),
            b"--refused" => Ok(self.printing(Rows::Refused)),
            b"--summary" => Ok(self.printing(Rows::Nothing)),
            b"--goal" => Ok(Options {
                naming: true,
                ..self
            }),
            [b'-', ..] => Err(Fault::NoOption),
            _ => self.of_file(at),
        }
    }

    // After the last argument.
    fn whole(self) -> Result<Self, Fault> {
        if self.naming {
            return Err(Fault::GoalMissing);
        }
        Ok(self)
    }
}

// A goal by its number, of one digit.
fn goal_numbered(word: &[u8]) -> Option<Goal> {
    match word {
        [digit] => Goal::try_from(u32::from(digit.wrapping_sub(b'0'))).ok(),
        _ => None,
    }
}

// A goal by its name, or by its number.
fn goal_named(word: &[u8]) -> Option<Goal> {
    GOALS
        .into_iter()
        .find(|&goal| goal_name(goal).as_bytes() == word)
        .or(goal_numbered(word))
}

// After a fault, and after `--help`, nothing more is looked at.
pub fn read(env: &impl Env) -> Result<Options, Complaint> {
    let mut options = Options::new();
    for at in 1..usize::MAX {
        let mut word = [0u8; 4096];
        options = match env.arg(at, &mut word) {
            Ok(n) => options.with(&word[..n], at),
            Err(FillError::TooLong) => Err(Fault::TooLong),
            Err(FillError::NotPresent) => {
                return options.whole().map_err(|what| Complaint { what, at });
            }
        }
        .map_err(|what| Complaint { what, at })?;
        if matches!(options.task, Task::Help) {
            return Ok(options);
        }
    }
    Ok(options)
}

// Says what is wrong with the arguments; `to` is standard error.
pub fn complain(env: &impl Env, to: &impl Print, complaint: Complaint) {
    let mut word = [0u8; 4096];
    let _ = print!(to; "audit: {}", complaint.what);
    if let Ok(n) = env.arg(complaint.at, &mut word) {
        let _ = to.write_all(&word[..n]);
    }
    let _ = print!(to; "\naudit: --help says how it is used\n");
}
