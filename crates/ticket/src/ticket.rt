ghost use Rattle.std.specs.Prelude.{◌≡◌, replicate};
ghost use Rattle.ticket.specs.Reading.{left_in, Unpacks, Answers};

use crate::job::{Job, Refusal};
use crate::read::{fields, spot};
use crate::reader::Wrong;
use tree::fault::TooShort;
use tree::seed::{SEED_LENGTH, SeedSource};

/// Holds the bytes where a seed is unpacked, and wipes them when it goes.
struct Wipe<'a>(&'a mut [u8; SEED_LENGTH]);

impl Drop for Wipe<'_> {
    fn drop(self)
        ensures { self.exit.0.now ≡ replicate 32 0 }
    {
        self.0.fill(0);
        let Wipe(_) = self;
    }
}

/// Reads a job ticket: answers what it asks for and puts its seed into the source. The seed is unpacked in
/// the scratch, which is wiped on every way out.
pub fn read(text: &[u8], scratch: &mut [u8], source: &mut SeedSource) -> Result<Job, Refusal>
    ensures scratch { scratch.new ≡ left_in scratch.old }
    ensures answer { Answers text.now scratch.old source.old.seed source.new.seed result }
{
    let seed = scratch.first_chunk_mut().ok_or(TooShort {
        needed: SEED_LENGTH,
    })?;
    unpack(text, seed, source).map_err(|wrong| {
        let before = &text[..text.len() - wrong.left];
        Refusal::NoTicket(spot(before))
    })
}

/// Reads a ticket through an array, which is wiped on every way out; or finds where it goes wrong.
fn unpack(text: &[u8], seed: &mut [u8; SEED_LENGTH], source: &mut SeedSource) -> Result<Job, Wrong>
    ensures wiped { seed.new ≡ replicate 32 0 }
    ensures answer { Unpacks text.now source.old.seed source.new.seed result }
{
    let guard = Wipe(seed);
    reseed(text, guard.0, source)
}

/// The same, but the array keeps the seed.
fn reseed(text: &[u8], seed: &mut [u8; SEED_LENGTH], source: &mut SeedSource) -> Result<Job, Wrong>
    ensures { Unpacks text.now source.old.seed source.new.seed result }
{
    let job = fields(text, seed)?;
    source.reseed(seed).unwrap();
    Ok(job)
}
