// The rows of those lines that are to be looked at, printed.
use crate::row::{Line, put_row};
use audit_run::state::Run;
use audit_tally::kinds::Rows;

// The head of the columns, where rows are printed.
pub fn head(run: &mut Run) {
    if run.asked.rows != Rows::Nothing {
        run.out.room();
        run.out.waiting.text("     line  width  text\n");
    }
}

// A line is printed if its kind is asked for.
pub fn print(run: &mut Run, line: Line) {
    if run.asked.rows.shows(line.verdict.kind()) {
        run.out.room();
        put_row(&mut run.out.waiting, line);
    }
}
