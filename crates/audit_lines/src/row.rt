// The row of a line: a mark, the line's number, its width and its text; below the text the verdict and what was read, in words.
ghost use Rattle.std.specs.Prelude.{◌+◌, ◌≤◌, length};
ghost use Rattle.audit_words.specs.Within.{Within};

use audit_fields::put_fields;
use audit_tally::kinds::{Change, Kind, Verdict};
use audit_words::row::Row;
use audit_words::words::{change_words, put_refusal};

// A line of the log, and what is said of it.
#[derive(Clone, Copy)]
pub struct Line<'a> {
    pub number: u64,
    // How wide the line is, of which `text` may be the start.
    pub width: u64,
    pub text: &'a [u8],
    pub verdict: Verdict,
    pub change: Option<Change>,
}

// The mark by which the lines to look at are found: `!` refused, `?` read and none of ours.
fn mark_of(kind: Kind) -> u8 {
    match kind {
        Kind::Refused(_) => b'!',
        Kind::Ours => b' ',
        Kind::Foreign => b'?',
    }
}

fn put_head<const N: usize>(row: &mut Row<N>, line: Line)
    requires { length row.old + 58 ≤ N }
    ensures { Within (length row.old) 58 (length row.new) }
{
    row.byte(mark_of(line.verdict.kind()));
    row.column(8, line.number);
    row.blanks(2);
    row.column(5, line.width);
    row.blanks(2);
}

// A text of ours can be refused for a goal that asks for more.
fn put_verdict<const N: usize>(row: &mut Row<N>, text: &[u8], verdict: Verdict)
    requires { length row.old + 308 ≤ N }
    ensures { Within (length row.old) 308 (length row.new) }
{
    match verdict.reading {
        Ok(shown) => {
            row.text(if verdict.ours {
                "ok, ours: "
            } else {
                "ok, not ours: "
            });
            put_fields(row, text, shown);
        }
        Err(refusal) => {
            put_refusal(row, refusal);
            if verdict.ours {
                row.text("; the text is ours");
            }
        }
    }
}

// The line of a row with the verdict, below the text.
fn put_words<const N: usize>(row: &mut Row<N>, line: Line)
    requires { length row.old + 392 ≤ N }
    ensures { Within (length row.old) 392 (length row.new) }
{
    row.byte(b'\n');
    row.blanks(18);
    put_verdict(row, line.text, line.verdict);
    if let Some(change) = line.change {
        row.text("; the year's width changes ");
        row.text(change_words(change));
    }
    row.byte(b'\n');
}

// A row whole. No more than 190 columns of the text are shown, as many as a stamp of ours takes.
pub fn put_row<const N: usize>(row: &mut Row<N>, line: Line)
    requires { length row.old + 646 ≤ N }
    ensures { Within (length row.old) 646 (length row.new) }
{
    put_head(row, line);
    row.shown(line.text, 190);
    put_words(row, line);
}
