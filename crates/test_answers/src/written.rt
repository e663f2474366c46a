// What a length function and its writer answer, in the words of a vector line: LENGTH ANSWER. The writer is lent the front of a paper,
// which is blank before; a word more stands at the end where it changes a byte that must stay, or where the two contradict each other.
ghost use Rattle.std.specs.Prelude.{◌≤◌, IfSome};

use test_lines::answer::{Answer, Hex};
use test_lines::fields::Fields;
use text::Refusal;

// The paper is longer than every text, and as long as the longest buffer of a line.
pub const PAPER: usize = 400;

// A byte that no text holds.
pub const BLANK: u8 = 255;

// ROOM: the length of the buffer, which is a part of the paper.
pub fn room(fields: &mut Fields) -> Option<usize>
    ensures { IfSome result (λ n. n ≤ PAPER) }
{
    let n = fields.number()?;
    if n <= PAPER { Some(n) } else { None }
}

// What the length function says, and what the writer did on a paper that was blank.
pub fn add_answers(
    answer: &mut Answer,
    length: Result<usize, Refusal>,
    written: Result<usize, Refusal>,
    paper: &[u8],
) {
    answer.add(length.unwrap_or(0));
    add_written(answer, written, paper);
    // The writer also refuses for want of room, and its length function never does.
    if written.err().filter(|&refusal| refusal != Refusal::NoRoom) != length.err() {
        answer.add("length");
    }
}

// ANSWER: the refusal's number; or 0, the count, and so many bytes of the paper.
fn add_written(answer: &mut Answer, written: Result<usize, Refusal>, paper: &[u8]) {
    let untouched = match written {
        Ok(n) => {
            let (text, rest) = paper.split_at(n.min(paper.len()));
            answer.add(0);
            answer.add(n);
            answer.add(Hex(text));
            rest
        }
        Err(refusal) => {
            answer.add(u8::from(refusal));
            paper
        }
    };
    if untouched.iter().any(|&b| b != BLANK) {
        answer.add("changed");
    }
}
