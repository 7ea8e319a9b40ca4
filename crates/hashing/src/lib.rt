//! SHA-256 (FIPS 180-4).

#![tactic(auto)]

ghost use Rattle.std.specs.Prelude.{◌≡◌};
ghost use Rattle.hashing.specs.Sha256.{sha256};

use padding::absorb_end;
use state::{BLOCK, INITIAL};

mod padding;
mod state;
mod words;

/// The hash of `message`.
pub fn digest(message: &[u8]) -> [u8; 32]
    ensures { result ≡ sha256 message.now }
{
    let (blocks, rest) = message.as_chunks::<BLOCK>();
    absorb_end(INITIAL.absorb(blocks), rest, message.len()).into()
}
