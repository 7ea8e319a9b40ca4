ghost use Rattle.std.specs.Prelude.{◌≡◌};
ghost use Rattle.tree.specs.Seeds.{seed_supply, Reseeds};

use crate::fault::{Cause, Missing, TooShort};
use crate::height::GREATEST;
use crate::row::in_row;
use crate::source::{Source, TOKEN_LENGTH};
use hashing::digest;

/// How many bytes a seed has.
pub const SEED_LENGTH: usize = 32;

/// How many bytes a token is the hash of: the seed and a number.
const SEEDED: usize = SEED_LENGTH + 4;

/// How many tokens a seed yields.
const TOKENS: u32 = 1 << GREATEST;

/// Tokens from a secret seed.
#[derive(Drop)]
pub struct SeedSource {
    seed: [u8; SEED_LENGTH],
}

impl SeedSource {
    pub fn new(seed: [u8; SEED_LENGTH]) -> SeedSource
        ensures { result.seed ≡ seed }
    {
        SeedSource { seed }
    }

    /// Takes another seed, the first 32 bytes of a slice.
    pub fn reseed(&mut self, seed: &[u8]) -> Result<(), TooShort>
        ensures { Reseeds self.old.seed seed.now self.new.seed result }
    {
        let front = seed.first_chunk::<SEED_LENGTH>().ok_or(TooShort {
            needed: SEED_LENGTH,
        })?;
        self.seed = *front;
        Ok(())
    }
}

impl Source for SeedSource {
    ghost supply = { λ s. seed_supply s.seed };

    fn size(&self) -> u32 {
        TOKENS
    }

    fn look_up(&self, number: u32) -> Result<(), Cause> {
        if number < TOKENS {
            Ok(())
        } else {
            Err(Cause::Beyond)
        }
    }

    fn token(&mut self, number: u32, out: &mut [u8; TOKEN_LENGTH]) -> Result<(), Missing> {
        self.look_up(number)
            .map_err(|cause| Missing { number, cause })?;
        *out = digest(&in_row::<SEEDED>(&self.seed, &number.to_be_bytes()));
        Ok(())
    }
}
