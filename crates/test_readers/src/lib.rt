// For the test programs only: what the readers answer to vector lines, in the words of these lines: tags R, Z, K, F, X and Q. Each function
// reads the inputs of a line, asks the library, and adds what it answered. A tag is added in one place: its function here, and its line in
// `judge`.
#![tactic(auto)]

use reader::goals::read_number;
use reader::parts;
use record::{MarkedName, Shown, refusal_number};
use test_lines::answer::Answer;
use test_lines::fields::{Fields, Text};
use test_lines::judged::NotJudged;
use test_readings::places::{add_part, found_name};
use test_readings::words::Words;

// goal TEXT
fn question(fields: &mut Fields) -> Option<(u32, Text)> {
    Some((fields.number()?, fields.text()?))
}

// R goal TEXT
fn reading(fields: &mut Fields, answer: &mut Answer) -> Option<()> {
    let (goal, text) = question(fields)?;
    answer.add(Words(read_number(goal, text.as_slice())));
    Some(())
}

// Z and K, goal TEXT: the name of a part, and the number of the reading
fn part<S, P>(fields: &mut Fields, answer: &mut Answer, shown: S, returned: P) -> Option<()>
where
    S: FnOnce(Shown) -> Option<MarkedName>,
    P: for<'t> FnOnce(u32, &'t [u8]) -> &'t [u8],
    requires shown { S.IsAlwaysCallable shown }
    requires returned { P.IsAlwaysCallable returned }
{
    let (goal, text) = question(fields)?;
    let t = text.as_slice();
    let reading = read_number(goal, t);
    let part = reading.ok().and_then(shown);
    answer.add(refusal_number(reading));
    add_part(answer, t, part.map(|part| part.name), returned(goal, t));
    Some(())
}

// F TEXT
fn finder(fields: &mut Fields, answer: &mut Answer) -> Option<()> {
    let text = fields.text()?;
    let t = text.as_slice();
    let found = parts::find_calendar(t);
    answer.add(parts::find_number(t));
    add_part(answer, t, found_name(t, found), found);
    Some(())
}

// X goal TEXT
fn check(fields: &mut Fields, answer: &mut Answer) -> Option<()> {
    let (goal, text) = question(fields)?;
    answer.add(parts::check(goal, text.as_slice()));
    Some(())
}

// Q TEXT
fn duration(fields: &mut Fields, answer: &mut Answer) -> Option<()> {
    let text = fields.text()?;
    answer.add(Words(duration_reader::read_duration(text.as_slice())));
    Some(())
}

pub fn judge(tag: &[u8], fields: &mut Fields, answer: &mut Answer) -> Result<(), NotJudged> {
    let read = match tag {
        b"R" => reading(fields, answer),
        b"Z" => part(fields, answer, |shown| shown.zone, parts::zone_of),
        b"K" => part(fields, answer, |shown| shown.calendar, parts::calendar_of),
        b"F" => finder(fields, answer),
        b"X" => check(fields, answer),
        b"Q" => duration(fields, answer),
        _ => return Err(NotJudged::Unknown),
    };
    read.ok_or(NotJudged::Malformed)
}
