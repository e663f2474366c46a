// For the test programs only: what the library says to a vector line, by its tag, and the run over a list of lines. A tag is added in one
// place: its function in `lines` or in `test_answers::checks`, and its line in `by_tag`. Such a function reads the inputs of the line, calls
// the library, and adds what it answered, in the words of the line. The tags of the writers are in `test_writers`, those of the readers in
// `test_readers`.
#![tactic(auto)]

pub mod lines;
pub mod list;

use test_answers::checks;
use test_lines::answer::Answer;
use test_lines::fields::{Fields, MOST};
use test_lines::judged::NotJudged;

fn by_tag(tag: &[u8], fields: &mut Fields, answer: &mut Answer) -> Result<(), NotJudged> {
    let read = match tag {
        b"G" => checks::digits(fields, answer),
        b"VD" => checks::valid_date(fields, answer),
        b"VT" => checks::valid_time(fields, answer),
        b"S" => lines::there_and_back(fields, answer),
        b"C" => lines::recognised(fields, answer),
        [b'W', ..] => return test_writers::judge(tag, fields, answer),
        _ => return test_readers::judge(tag, fields, answer),
    };
    read.ok_or(NotJudged::Malformed)
}

// A tag of one letter may have a byte 0 before it.
fn letters(tag: &[u8]) -> &[u8] {
    match tag {
        [0, _] => &tag[1..],
        _ => tag,
    }
}

// What the library answers to a line, and what the line says that it wants. The inputs of a line that is too long do not read.
pub fn judge<'a>(line: &'a [u8], answer: &mut Answer) -> Result<&'a [u8], NotJudged> {
    let mut fields = Fields::new(line);
    let tag = fields.word().ok_or(NotJudged::Unknown)?;
    if MOST < line.len() {
        fields = Fields::new(&[]);
    }
    by_tag(letters(tag), &mut fields, answer)?;
    Ok(fields.rest())
}
