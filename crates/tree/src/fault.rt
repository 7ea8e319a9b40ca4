ghost use Rattle.std.specs.Prelude.{◌≡◌, Some};
ghost use Rattle.tree.specs.Refusals.{short_numbered, short_text, cause_text, missing_text};

use std::error::Error;
use std::fmt;

/// A slice is too short for what should go into it or come out of it.
#[derive(Clone, Copy, Debug, PartialEq, Eq)]
pub struct TooShort {
    pub needed: usize,
}

impl TooShort {
    /// The number by which a refusal is known outside. It is one fact of a refusal, not the refusal in another form, so
    /// this is no conversion. Nor would a trait be plainer: no generic code asks for it.
    pub fn number(self) -> u8
        ensures { result ≡ (short_numbered self).0 }
    {
        7
    }
}

// Printed as the programs answer it: the refusal's number and its value.
impl fmt::Display for TooShort {
    ghost output = { λ short. Some (short_text short) };

    fn fmt<W: fmt::Write>(&self, f: &mut fmt::Formatter<W>) -> fmt::Result {
        write!(f, "refused {} {}", self.number(), self.needed)
    }
}

impl Error for TooShort {}

/// Why a source gives no token: the token is torn, or its number is past the source's end.
#[derive(Clone, Copy, Debug, PartialEq, Eq)]
pub enum Cause {
    Torn,
    Beyond,
}

impl fmt::Display for Cause {
    ghost output = { λ cause. Some (cause_text cause) };

    fn fmt<W: fmt::Write>(&self, f: &mut fmt::Formatter<W>) -> fmt::Result {
        f.write_str(match self {
            Cause::Torn => "torn",
            Cause::Beyond => "beyond",
        })
    }
}

/// A source has no token of this number.
#[derive(Clone, Copy, Debug, PartialEq, Eq)]
pub struct Missing {
    pub number: u32,
    pub cause: Cause,
}

// Which token, and why.
impl fmt::Display for Missing {
    ghost output = { λ missing. Some (missing_text missing) };

    fn fmt<W: fmt::Write>(&self, f: &mut fmt::Formatter<W>) -> fmt::Result {
        write!(f, "{} {}", self.number, self.cause)
    }
}
