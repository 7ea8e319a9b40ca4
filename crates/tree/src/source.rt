ghost use Rattle.std.specs.Prelude.{◌≡◌};
ghost use Rattle.tree.specs.Supply.{Supply, Supplies, presence, Gives};

use crate::fault::{Cause, Missing};

/// How many bytes a token has.
pub const TOKEN_LENGTH: usize = 32;

/// A supply of one-time tokens by number. The meaning belongs to the value, and no call alters it; the token
/// call takes the source mutably, since a source may hold a place and move it.
pub trait Source {
    ghost supply: { Self → Supply };

    /// How many numbers the source has. What every supply keeps is told here, and not by a law of the trait: a law is
    /// owed of each value that the fields could have in the logic, where a `u16` is any number, and a caller of a
    /// `dyn Source` can name none.
    fn size(&self) -> u32
        ensures value { result ≡ (supply self.now).size }
        ensures lawful { Supplies (supply self.now) };

    /// Whether the token of a number is there.
    fn look_up(&self, number: u32) -> Result<(), Cause>
        ensures { result ≡ presence (supply self.now) number };

    /// Writes the token of a number. It writes and does not return, a rule of the project: the caller says where the
    /// secret lies.
    fn token(&mut self, number: u32, out: &mut [u8; TOKEN_LENGTH]) -> Result<(), Missing>
        ensures gives { Gives (supply self.old) number out.old out.new result }
        ensures keeps { supply self.new ≡ supply self.old };
}
