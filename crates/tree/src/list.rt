ghost use Rattle.std.specs.Prelude.{◌≡◌};
ghost use Rattle.tree.specs.Entries.{list_supply, Finds};

use crate::fault::{Cause, Missing};
use crate::height;
use crate::source::{Source, TOKEN_LENGTH};

/// How many bytes an entry has: a mark and a token.
const ENTRY: usize = 1 + TOKEN_LENGTH;

/// The mark of a token that is present.
const PRESENT: u8 = 1;

/// The greatest size of a source.
const GREATEST: usize = 1 << height::GREATEST;

/// Tokens from a list of entries in bytes.
#[derive(Drop)]
pub struct ListSource<'a> {
    bytes: &'a [u8],
}

impl<'a> ListSource<'a> {
    pub fn new(bytes: &'a [u8]) -> ListSource<'a>
        ensures { result.bytes.now ≡ bytes.now }
    {
        ListSource { bytes }
    }

    /// The token of a number, or why there is none.
    fn find(&self, number: u32) -> Result<&[u8], Cause>
        ensures { Finds (list_supply self.now.bytes.now) number result }
    {
        if number >= self.size() {
            return Err(Cause::Beyond);
        }
        let (entries, _) = self.bytes.as_chunks::<ENTRY>();
        // as a slice: of an array at an element the check does not cover that a part is taken
        let entry = &entries[number as usize][..];
        match entry {
            [PRESENT, token @ ..] => Ok(token),
            _ => Err(Cause::Torn),
        }
    }
}

impl<'a> Source for ListSource<'a> {
    ghost supply = { λ s. list_supply s.bytes.now };

    fn size(&self) -> u32 {
        (self.bytes.len() / ENTRY).min(GREATEST) as u32
    }

    fn look_up(&self, number: u32) -> Result<(), Cause> {
        self.find(number).map(|_| ())
    }

    fn token(&mut self, number: u32, out: &mut [u8; TOKEN_LENGTH]) -> Result<(), Missing> {
        let token = self
            .find(number)
            .map_err(|cause| Missing { number, cause })?;
        out.copy_from_slice(token);
        Ok(())
    }
}
