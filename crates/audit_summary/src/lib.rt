// The summary: how many lines there are of each kind and where the first of them is, the refusals by number, and the lines at which the year's width
// changes.
#![tactic(auto)]

ghost use Rattle.std.specs.Prelude.{◌+◌, ◌≤◌, length};
ghost use Rattle.audit_words.specs.Within.{Within};

use audit_run::output::{Out, SIZE};
use audit_run::state::Run;
use audit_tally::counts::{Changes, Counts, KEPT, Tally};
use audit_tally::kinds::{Change, Rows};
use audit_words::row::Row;
use audit_words::words::{REFUSALS, change_words, goal_name, put_refusal};
use record::Goal;
use text::Refusal;

// A line of fixed words.
fn say(out: &mut Out, words: &str)
    requires { length words.now ≤ 1024 }
{
    out.room();
    out.waiting.text(words);
}

// A number at the left, with blanks around it.
fn put_head(row: &mut Row<SIZE>, n: u64)
    requires { length row.old + 30 ≤ SIZE }
    ensures { Within (length row.old) 30 (length row.new) }
{
    row.column(8, n);
    row.blanks(2);
}

// Where the first of some lines is, if there are any; and the end of the summary's line.
fn put_first(row: &mut Row<SIZE>, first: Option<u64>)
    requires { length row.old + 42 ≤ SIZE }
    ensures { Within (length row.old) 42 (length row.new) }
{
    if let Some(line) = first {
        row.text("; the first is line ");
        row.number(line);
    }
    row.byte(b'\n');
}

// All lines, and the goal that they were read for.
fn lines(out: &mut Out, n: u64, goal: Goal) {
    out.room();
    let row = &mut out.waiting;
    put_head(row, n);
    row.text("lines, read for the goal ");
    row.text(goal_name(goal));
    row.byte(b'\n');
}

// One kind of lines, and where the first of them is.
fn kind(out: &mut Out, tally: Tally, words: &str)
    requires { length words.now ≤ 64 }
{
    out.room();
    let row = &mut out.waiting;
    put_head(row, tally.count);
    row.text(words);
    put_first(row, tally.first);
}

// The three kinds of lines. Of our own it does not matter which is the first.
fn kinds(out: &mut Out, counts: &Counts) {
    let ours = Tally {
        first: None,
        ..counts.ours
    };
    kind(out, ours, "ok, ours");
    kind(out, counts.foreign, "ok, not ours");
    kind(out, counts.refused, "refused");
}

// The lines of one refusal, a column further in; a refusal that no line has is left out.
fn refused_by(out: &mut Out, tally: Tally, refusal: Refusal) {
    if tally.count == 0 {
        return;
    }
    out.room();
    let row = &mut out.waiting;
    row.blanks(8);
    put_head(row, tally.count);
    put_refusal(row, refusal);
    put_first(row, tally.first);
}

fn change_at(out: &mut Out, line: u64, change: Change) {
    out.room();
    let row = &mut out.waiting;
    put_head(row, line);
    row.text(change_words(change));
    row.byte(b'\n');
}

// How many changes there are after the first.
fn more_changes(out: &mut Out, n: u64) {
    out.room();
    let row = &mut out.waiting;
    put_head(row, n);
    row.text("more such lines\n");
}

fn years(out: &mut Out, changes: &Changes) {
    if changes.count == 0 {
        say(out, "the year's width does not change\n");
        return;
    }
    say(
        out,
        "the year's width changes, and what follows it shifts by 3 columns, at line\n",
    );
    for &(line, change) in changes.first.iter().flatten() {
        change_at(out, line, change);
    }
    if let Some(n @ 1..) = changes.count.checked_sub(KEPT as u64) {
        more_changes(out, n);
    }
}

// Prints the summary and all that waits. An empty line is before it if there may be rows; what an auditor has to know if the log was not read to its end
// is last.
pub fn print(run: &mut Run) {
    let Run {
        asked,
        lines: n,
        whole,
        counts,
        out,
        ..
    } = run;
    if asked.rows != Rows::Nothing {
        say(out, "\n");
    }
    lines(out, *n, asked.goal);
    kinds(out, counts);
    for refusal in REFUSALS {
        refused_by(out, counts.refused_by(refusal), refusal);
    }
    years(out, &counts.changes);
    if !*whole {
        say(
            out,
            "THE LOG COULD NOT BE READ TO ITS END: all this is of its start\n",
        );
    }
    out.flush();
}
