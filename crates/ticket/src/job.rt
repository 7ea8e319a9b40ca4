ghost use Rattle.std.specs.Prelude.{◌≡◌, Some};
ghost use Rattle.ticket.specs.Reading.{numbered, spot_text, refusal_text};
ghost use Rattle.ticket.specs.declared.job.Refusal.TheVariants.{Short};

use std::error::Error;
use std::fmt;
use tree::fault::TooShort;
use tree::geometry::Heights;
// A ticket asks for a kind of maker as a strip does, so the kinds are the tree's.
pub use tree::kind::Kind;

/// What a ticket asks for, but for its seed. The heights are not judged yet.
#[derive(Clone, Copy, Debug, PartialEq, Eq)]
pub struct Job {
    pub kind: Kind,
    pub heights: Heights,
}

/// A place in a text: the line counts from 1, the column from 0.
#[derive(Clone, Copy, Debug, PartialEq, Eq)]
pub struct Spot {
    pub line: usize,
    pub column: usize,
}

/// Why a ticket is not read.
#[derive(Clone, Copy, Debug, PartialEq, Eq)]
pub enum Refusal {
    /// The scratch is too short.
    Short(TooShort),
    /// The text is no ticket; this byte is wrong or missing.
    NoTicket(Spot),
}

impl Refusal {
    /// The number by which a refusal is known outside. It is one fact of a refusal, not the refusal in another form, so
    /// this is no conversion. Nor would a trait be plainer: no generic code asks for it.
    pub fn number(self) -> u8
        ensures { result ≡ (numbered self).0 }
    {
        match self {
            Refusal::Short(short) => short.number(),
            Refusal::NoTicket(_) => 15,
        }
    }
}

impl fmt::Display for Spot {
    ghost output = { λ spot. Some (spot_text spot) };

    fn fmt<W: fmt::Write>(&self, f: &mut fmt::Formatter<W>) -> fmt::Result {
        write!(f, "{} {}", self.line, self.column)
    }
}

// Printed as the programs answer it: the refusal's number and its values.
impl fmt::Display for Refusal {
    ghost output = { λ refusal. Some (refusal_text refusal) };

    fn fmt<W: fmt::Write>(&self, f: &mut fmt::Formatter<W>) -> fmt::Result {
        let number = self.number();
        match self {
            Refusal::Short(short) => write!(f, "{short}"),
            Refusal::NoTicket(spot) => write!(f, "refused {number} {spot}"),
        }
    }
}

impl Error for Refusal {}

impl From<TooShort> for Refusal {
    ghost from_gives = { λ short r. r ≡ Short short };

    fn from(short: TooShort) -> Refusal {
        Refusal::Short(short)
    }
}
