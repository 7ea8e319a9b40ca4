ghost use Rattle.std.specs.Prelude.{◌≡◌, Some};
ghost use Rattle.tree.specs.Kinds.{kind_byte, node_width, kind_name, Decodes, unknown_text};

use crate::{dummy, sealed};
use std::error::Error;
use std::fmt;

/// The kinds of makers.
#[derive(Clone, Copy, Debug, PartialEq, Eq)]
pub enum Kind {
    Sealed = 1,
    Dummy = 2,
}

impl Kind {
    /// How many bytes a node has.
    pub fn width(self) -> usize
        ensures { result ≡ node_width self }
    {
        match self {
            Kind::Sealed => sealed::WIDTH,
            Kind::Dummy => dummy::WIDTH,
        }
    }
}

// The byte that names a kind in a strip.
impl From<Kind> for u8 {
    ghost from_gives = { λ kind byte. byte ≡ kind_byte kind };

    fn from(kind: Kind) -> u8 {
        kind as u8
    }
}

/// A byte that names no kind.
#[derive(Clone, Copy, Debug, PartialEq, Eq)]
pub struct UnknownKind(pub u8);

impl TryFrom<u8> for Kind {
    type Error = UnknownKind;

    ghost try_from_gives = { Decodes };

    fn try_from(byte: u8) -> Result<Kind, UnknownKind> {
        match byte {
            1 => Ok(Kind::Sealed),
            2 => Ok(Kind::Dummy),
            _ => Err(UnknownKind(byte)),
        }
    }
}

impl fmt::Display for Kind {
    ghost output = { λ kind. Some (kind_name kind) };

    fn fmt<W: fmt::Write>(&self, f: &mut fmt::Formatter<W>) -> fmt::Result {
        f.write_str(match self {
            Kind::Sealed => "sealed",
            Kind::Dummy => "dummy",
        })
    }
}

impl fmt::Display for UnknownKind {
    ghost output = { λ e. Some (unknown_text e) };

    fn fmt<W: fmt::Write>(&self, f: &mut fmt::Formatter<W>) -> fmt::Result {
        write!(f, "no maker has kind {}", self.0)
    }
}

impl Error for UnknownKind {}
