use std::fmt;
use traversal::outcome::{TooEarly, Totals};
use traversal::refusal::Refusal;

/// A number of leaves and one of joins, as a call answers them, to be shown.
#[derive(Clone, Copy, Default)]
pub struct Made {
    pub leaves: u64,
    pub joins: u64,
}

impl From<(u64, u64)> for Made {
    fn from((leaves, joins): (u64, u64)) -> Made {
        Made { leaves, joins }
    }
}

impl fmt::Display for Made {
    fn fmt<W: fmt::Write>(&self, f: &mut fmt::Formatter<W>) -> fmt::Result {
        write!(f, "{} {}", self.leaves, self.joins)
    }
}

/// The answer of a step, to be shown; `Result` has no `Display`.
#[derive(Clone, Copy)]
pub struct Answer(pub Result<(u64, u64), Refusal>);

impl fmt::Display for Answer {
    fn fmt<W: fmt::Write>(&self, f: &mut fmt::Formatter<W>) -> fmt::Result {
        match self.0 {
            Ok(made) => write!(f, "made {}", Made::from(made)),
            Err(refusal) => write!(f, "{refusal}"),
        }
    }
}

/// What became of a draft: the run that it was turned into, closed, with the root in hex or the refusal of the
/// root; or the refusal of the turn.
#[derive(Drop)]
pub enum Ending {
    Closed { root: String, totals: Totals },
    Rootless(Refusal),
    Abandoned { early: TooEarly, made: Made },
}

impl fmt::Display for Ending {
    fn fmt<W: fmt::Write>(&self, f: &mut fmt::Formatter<W>) -> fmt::Result {
        match self {
            Ending::Closed { root, totals } => {
                let drafted = Made::from(totals.drafted);
                let pulled = Made::from(totals.pulled);
                write!(f, "root {root}, closed {} {drafted} {pulled}", totals.pulls)
            }
            Ending::Rootless(refusal) => write!(f, "no root, {refusal}"),
            Ending::Abandoned { early, made } => write!(f, "turn {early}, abandoned {made}"),
        }
    }
}

/// The steps of a draft that made something, and the leaves and the joins that they answered.
#[derive(Clone, Copy, Default)]
pub struct Tally {
    pub steps: u64,
    pub made: Made,
}

impl Tally {
    /// Counts a step more.
    pub(crate) fn add(&mut self, leaves: u64, joins: u64) {
        self.steps = self.steps.saturating_add(1);
        self.made.leaves = self.made.leaves.saturating_add(leaves);
        self.made.joins = self.made.joins.saturating_add(joins);
    }
}

impl fmt::Display for Tally {
    fn fmt<W: fmt::Write>(&self, f: &mut fmt::Formatter<W>) -> fmt::Result {
        write!(f, "{} steps made {}", self.steps, self.made)
    }
}
