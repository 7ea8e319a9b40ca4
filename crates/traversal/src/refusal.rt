ghost use Rattle.std.specs.Prelude.{◌≡◌, Some};
ghost use Rattle.traversal.specs.Calls.{HasRoom};
ghost use Rattle.traversal.specs.Refusals.{numbered, layer_text, lack_text, refusal_text, draft_lack};
ghost use Rattle.traversal.specs.declared.refusal.Refusal.TheVariants.{Heights, Token};

use crate::fault::DraftFault;
use std::error::Error;
use std::fmt;
use tree::fault::Missing;
use tree::geometry::Shape;
use tree::refusal;

/// Which call lacked a token.
#[derive(Clone, Copy, Debug, PartialEq, Eq)]
pub enum Layer {
    Draft,
}

/// A token that could not be had.
#[derive(Clone, Copy, Debug, PartialEq, Eq)]
pub struct Lack {
    pub missing: Missing,
    pub layer: Layer,
}

/// Why a call of a traversal does nothing.
#[derive(Clone, Copy, Debug, PartialEq, Eq)]
pub enum Refusal {
    /// No tree has this height, or the tree has no subtrees of that height.
    Heights(refusal::Refusal),
    /// The table is too short; it should have had so many cells.
    Table(usize),
    /// The source has only so many numbers, fewer than the tree has leaves.
    Source(u32),
    /// A token is missing.
    Token(Lack),
}

impl Refusal {
    /// The number by which a refusal is known outside. It is one fact of a refusal, not the refusal in another form, so
    /// this is no conversion. Nor would a trait be plainer: no generic code asks for it.
    pub fn number(self) -> u8
        ensures { result ≡ (numbered self).0 }
    {
        match self {
            Refusal::Heights(refusal) => refusal.number(),
            Refusal::Table(_) => 3,
            Refusal::Source(_) => 4,
            Refusal::Token(_) => 6,
        }
    }
}

/// Refuses a table of so many cells if they are too few for a shape. It takes their number and not the table: of
/// one that is lent on from behind a `&mut` the check would not know that it stays the same.
pub(crate) fn check_room(cells: usize, shape: Shape) -> Result<(), Refusal>
    ensures { HasRoom shape.cells cells result }
{
    if cells < shape.cells {
        return Err(Refusal::Table(shape.cells));
    }
    Ok(())
}

// Which token, why, and which call.
impl fmt::Display for Lack {
    ghost output = { λ lack. Some (lack_text lack) };

    fn fmt<W: fmt::Write>(&self, f: &mut fmt::Formatter<W>) -> fmt::Result {
        write!(f, "{} {}", self.missing, self.layer)
    }
}

impl fmt::Display for Layer {
    ghost output = { λ layer. Some (layer_text layer) };

    fn fmt<W: fmt::Write>(&self, f: &mut fmt::Formatter<W>) -> fmt::Result {
        f.write_str(match self {
            Layer::Draft => "draft",
        })
    }
}

// Its number and its values.
impl fmt::Display for Refusal {
    ghost output = { λ refusal. Some (refusal_text refusal) };

    fn fmt<W: fmt::Write>(&self, f: &mut fmt::Formatter<W>) -> fmt::Result {
        let number = self.number();
        match self {
            Refusal::Heights(refusal) => write!(f, "{refusal}"),
            Refusal::Table(cells) => write!(f, "refused {number} {cells}"),
            Refusal::Source(tokens) => write!(f, "refused {number} {tokens}"),
            Refusal::Token(lack) => write!(f, "refused {number} {lack}"),
        }
    }
}

impl Error for Refusal {}

impl From<refusal::Refusal> for Refusal {
    ghost from_gives = { λ t r. r ≡ Heights t };

    fn from(refusal: refusal::Refusal) -> Refusal {
        Refusal::Heights(refusal)
    }
}

impl From<DraftFault> for Refusal {
    ghost from_gives = { λ f r. r ≡ Token (draft_lack f.unit.missing) };

    fn from(fault: DraftFault) -> Refusal {
        Refusal::Token(Lack {
            missing: fault.unit.missing,
            layer: Layer::Draft,
        })
    }
}
