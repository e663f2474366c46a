// Where the audit of a log stands between two lines.
ghost use Rattle.std.specs.Prelude.{◌≡◌, [], true};

use crate::output::Out;
use audit_tally::counts::Counts;
use audit_tally::kinds::{Asked, YearWidth};
use std::io::Stdout;

// A run over a log.
#[derive(Drop)]
pub struct Run {
    pub asked: Asked,
    // How many lines there are so far.
    pub lines: u64,
    // The width of the last year that a line wrote.
    pub year: Option<YearWidth>,
    // Whether no read failed.
    pub whole: bool,
    pub counts: Counts,
    pub out: Out,
}

impl Run {
    pub fn new(asked: Asked, to: Stdout) -> Self
        ensures asked { result.asked ≡ asked }
        ensures nothing_read { (result.lines ≡ 0) × (result.year ≡ None) × (result.whole ≡ true) }
        ensures nothing_waits { result.out.waiting ≡ [] }
    {
        Run {
            asked,
            lines: 0,
            year: None,
            whole: true,
            counts: Counts::new(),
            out: Out::new(to),
        }
    }
}
