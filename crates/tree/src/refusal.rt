ghost use Rattle.std.specs.Prelude.{◌≡◌, Some};
ghost use Rattle.tree.specs.Refusals.{numbered, refusal_text};

use std::error::Error;
use std::fmt;

/// Why a call on a tree does nothing.
#[derive(Clone, Copy, Debug, PartialEq, Eq)]
pub enum Refusal {
    /// No tree has this height.
    Height(u32),
    /// The tree has no subtrees of this height.
    Subtree(u32),
}

impl Refusal {
    /// The number by which a refusal is known outside. It is one fact of a refusal, not the refusal in another form, so
    /// this is no conversion. Nor would a trait be plainer: no generic code asks for it.
    pub fn number(self) -> u8
        ensures { result ≡ (numbered self).0 }
    {
        match self {
            Refusal::Height(_) => 1,
            Refusal::Subtree(_) => 2,
        }
    }
}

// Printed as the programs answer it: the refusal's number and its value.
impl fmt::Display for Refusal {
    ghost output = { λ refusal. Some (refusal_text refusal) };

    fn fmt<W: fmt::Write>(&self, f: &mut fmt::Formatter<W>) -> fmt::Result {
        let number = self.number();
        match self {
            Refusal::Height(height) => write!(f, "refused {number} {height}"),
            Refusal::Subtree(subtree) => write!(f, "refused {number} {subtree}"),
        }
    }
}

impl Error for Refusal {}
