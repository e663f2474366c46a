// What is counted: for each kind of line how many there are and the number of the first, and the lines at which the year's width changes.
ghost use Rattle.std.specs.Prelude.{◌≡◌, ◌+◌, ◌%◌, ◌^◌, replicate};
ghost use Rattle.std.proofs.Common.{set};
ghost use Rattle.audit_tally.specs.Tally.{no_lines, noted, changed, refused_by};
ghost use Rattle.text.specs.Refusal.{number};

use crate::kinds::{Change, Kind};
use text::Refusal;

// How many lines there are, and the number of the first.
#[derive(Clone, Copy, Debug, PartialEq, Eq)]
pub struct Tally {
    pub count: u64,
    pub first: Option<u64>,
}

impl Tally {
    const NONE: Tally = Tally {
        count: 0,
        first: None,
    };

    fn note(&mut self, line: u64)
        ensures { self.new ≡ noted self.old line }
    {
        self.count = self.count.wrapping_add(1);
        self.first = self.first.or(Some(line));
    }
}

// How many changes of the year's width are kept, each with the number of its line.
pub const KEPT: usize = 20;

#[derive(Clone, Copy, Debug, PartialEq, Eq)]
pub struct Changes {
    pub count: u64,
    pub first: [Option<(u64, Change)>; KEPT],
}

impl Changes {
    fn note(&mut self, line: u64, change: Change)
        ensures { self.new ≡ changed self.old line change }
    {
        let n = self.count as usize;
        if n < KEPT {
            self.first[n] = Some((line, change));
        }
        self.count = self.count.wrapping_add(1);
    }
}

#[derive(Clone, Copy, Debug, PartialEq, Eq)]
pub struct Counts {
    pub ours: Tally,
    pub foreign: Tally,
    pub refused: Tally,
    // The refused lines by the number of the refusal.
    pub by_refusal: [Tally; 16],
    pub changes: Changes,
}

impl Counts {
    pub fn new() -> Self
        ensures kinds { (result.ours ≡ no_lines) × (result.foreign ≡ no_lines) × (result.refused ≡ no_lines) }
        ensures refusals { (k : Refusal) → refused_by result k ≡ no_lines }
        ensures changes { (result.changes.count ≡ 0) × (result.changes.first ≡ replicate 20 None) }
    {
        Counts {
            ours: Tally::NONE,
            foreign: Tally::NONE,
            refused: Tally::NONE,
            by_refusal: [Tally::NONE; 16],
            changes: Changes {
                count: 0,
                first: [None; KEPT],
            },
        }
    }

    // The lines that one refusal has.
    pub fn refused_by(&self, refusal: Refusal) -> Tally
        ensures { result ≡ refused_by self.now refusal }
    {
        self.by_refusal[refusal as usize]
    }

    // A line of a kind. Of the refused each is counted among all of them, and among those of its own refusal.
    pub fn note(&mut self, kind: Kind, line: u64)
        ensures ours { kind ≡ Kind.Ours → self.new ≡ record self.old { ours = noted self.old.ours line } }
        ensures foreign { kind ≡ Kind.Foreign → self.new ≡ record self.old { foreign = noted self.old.foreign line } }
        ensures refused { (k : Refusal) → kind ≡ Kind.Refused k → self.new ≡ record self.old { refused = noted self.old.refused line; by_refusal = set self.old.by_refusal (number k) (noted (refused_by self.old k) line) } }
    {
        match kind {
            Kind::Ours => self.ours.note(line),
            Kind::Foreign => self.foreign.note(line),
            Kind::Refused(refusal) => {
                self.refused.note(line);
                self.by_refusal[refusal as usize].note(line);
            }
        }
    }

    pub fn note_change(&mut self, line: u64, change: Change)
        ensures { self.new ≡ record self.old { changes = changed self.old.changes line change } }
    {
        self.changes.note(line, change);
    }
}
