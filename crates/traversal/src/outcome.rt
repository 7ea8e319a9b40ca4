ghost use Rattle.std.specs.Prelude.{◌≡◌, Some};
ghost use Rattle.traversal.specs.Refusals.{early_numbered, early_text};

use crate::state::Draft;
use std::error::Error;
use std::fmt;

/// A turn came too early: so many units are missing.
#[derive(Clone, Copy, Debug, PartialEq, Eq)]
pub struct TooEarly {
    pub missing: u64,
}

impl TooEarly {
    /// The number by which a refusal is known outside. It is one fact of a refusal, not the refusal in another form, so
    /// this is no conversion. Nor would a trait be plainer: no generic code asks for it.
    pub fn number(self) -> u8
        ensures { result ≡ (early_numbered self).0 }
    {
        5
    }
}

// Its number and its value.
impl fmt::Display for TooEarly {
    ghost output = { λ early. Some (early_text early) };

    fn fmt<W: fmt::Write>(&self, f: &mut fmt::Formatter<W>) -> fmt::Result {
        write!(f, "refused {} {}", self.number(), self.missing)
    }
}

impl Error for TooEarly {}

/// A draft that cannot be turned yet, handed back with the reason.
pub struct Incomplete {
    pub draft: Draft,
    pub early: TooEarly,
}

/// What a closed run comes to: how many pulls there were, and the leaves and joins that were made by the
/// draft and by the pulls. Counts are a tuple in all calls: a rule of the project.
#[derive(Clone, Copy, Debug, PartialEq, Eq)]
pub struct Totals {
    pub pulls: u64,
    pub drafted: (u64, u64),
    pub pulled: (u64, u64),
}
