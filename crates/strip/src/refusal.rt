ghost use Rattle.std.specs.Prelude.{◌≡◌, Some};
ghost use Rattle.strip.specs.Refusals.{section_number, numbered, fault_text, refusal_line};
ghost use Rattle.strip.specs.declared.refusal.Refusal.TheVariants.{Short, NoStrip};

use std::error::Error;
use std::fmt;
use tree::fault::TooShort;

/// The sections of a strip.
#[derive(Clone, Copy, Debug, PartialEq, Eq)]
pub enum Section {
    Head = 1,
    Token,
    Path,
}

/// Where bytes stop being a strip: the place of the first wrong byte, or of the first missing one.
#[derive(Clone, Copy, Debug, PartialEq, Eq)]
pub struct Fault {
    pub place: usize,
    pub section: Section,
}

/// Why a call does nothing.
#[derive(Clone, Copy, Debug, PartialEq, Eq)]
pub enum Refusal {
    /// No tree has this height.
    Height(u32),
    /// A slice is too short.
    Short(TooShort),
    /// The tree has no leaf of this number.
    Number(u32),
    /// The bytes are no strip.
    NoStrip(Fault),
}

impl Section {
    ghost use Rattle.strip.specs.Format.{fault};

    /// A fault in this section.
    pub fn at(self, place: usize) -> Fault
        ensures { result ≡ fault place self }
    {
        Fault {
            place,
            section: self,
        }
    }

    /// The sections count from 1. A `From` would be no plainer: what is told outside is asked of all by `number`.
    pub fn number(self) -> u8
        ensures { result ≡ section_number self }
    {
        self as u8
    }
}

impl Refusal {
    /// The number by which a refusal is known outside. It is one fact of a refusal, not the refusal in another form, so
    /// this is no conversion. Nor would a trait be plainer: no generic code asks for it. A height has the number that it
    /// has in `tree`, whose own refusal would be no plainer here: it can also be one of subtrees.
    pub fn number(self) -> u8
        ensures { result ≡ (numbered self).0 }
    {
        match self {
            Refusal::Height(_) => 1,
            Refusal::Short(short) => short.number(),
            Refusal::Number(_) => 10,
            Refusal::NoStrip(_) => 11,
        }
    }
}

impl From<TooShort> for Refusal {
    ghost from_gives = { λ short r. r ≡ Short short };

    fn from(short: TooShort) -> Refusal {
        Refusal::Short(short)
    }
}

impl From<Fault> for Refusal {
    ghost from_gives = { λ f r. r ≡ NoStrip f };

    fn from(fault: Fault) -> Refusal {
        Refusal::NoStrip(fault)
    }
}

impl fmt::Display for Fault {
    ghost output = { λ f. Some (fault_text f) };

    fn fmt<W: fmt::Write>(&self, f: &mut fmt::Formatter<W>) -> fmt::Result {
        write!(f, "{} {}", self.place, self.section.number())
    }
}

impl Error for Fault {}

// Printed as the programs answer it: the refusal's number and its values.
impl fmt::Display for Refusal {
    ghost output = { λ r. Some (refusal_line r) };

    fn fmt<W: fmt::Write>(&self, f: &mut fmt::Formatter<W>) -> fmt::Result {
        let number = self.number();
        match self {
            Refusal::Height(height) => write!(f, "refused {number} {height}"),
            Refusal::Short(short) => write!(f, "{short}"),
            Refusal::Number(leaf) => write!(f, "refused {number} {leaf}"),
            Refusal::NoStrip(fault) => write!(f, "refused {number} {fault}"),
        }
    }
}

impl Error for Refusal {}
