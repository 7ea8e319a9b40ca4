ghost use Rattle.std.specs.Prelude.{◌≡◌};
ghost use Rattle.tree.specs.Meaning.{reading, OneSpelling};
ghost use Rattle.tree.specs.Counting.{metered};
ghost use Rattle.tree.specs.Digests.{sealed_meaning};
ghost use Rattle.tree.specs.Sealing.{sealed_lawful};
ghost use Rattle.std.proofs.Common.{rules};

use crate::counter::Counter;
use crate::digest::Digest;
use crate::fault::TooShort;
use crate::kind::Kind;
use crate::maker::Maker;
use crate::row::in_row;
use hashing::digest;

/// A node's bytes.
pub(crate) const WIDTH: usize = 32;

/// The bytes of two nodes.
const PAIR: usize = 2 * WIDTH;

/// The sealed maker: plain SHA-256, of the token for a leaf and of both children for a join.
#[derive(Default, Drop)]
pub struct Sealed {
    counter: Counter,
}

impl Sealed {
    pub fn new() -> Sealed
        ensures starts { metered result.counter ≡ reading 0 0 }
        ensures one_spelling { OneSpelling sealed_meaning }
    {
        Sealed::default()
    }
}

// Why it is written beside the impl of `Dummy`, and not with it, stands there.
impl Maker for Sealed {
    type Node = Digest;

    ghost meaning = { λ _. sealed_meaning };

    ghost meter = { λ s. metered s.counter };

    ghost lawful = { λ s. sealed_lawful };

    ghost wraps = { Prim.search rules };

    fn kind(&self) -> u8 {
        Kind::Sealed.into()
    }

    fn width(&self) -> usize {
        Kind::Sealed.width()
    }

    fn made(&self) -> (u64, u64) {
        self.counter.counts()
    }

    fn leaf(&mut self, _number: u32, token: &[u8]) -> Digest {
        self.counter.count_leaf();
        Digest {
            bytes: digest(token),
        }
    }

    fn join(&mut self, left: Digest, right: Digest) -> Digest {
        self.counter.count_join();
        Digest {
            bytes: digest(&in_row::<PAIR>(&left.bytes, &right.bytes)),
        }
    }

    fn same(&self, one: Digest, other: Digest) -> bool {
        one == other
    }

    fn put(&self, node: Digest, out: &mut [u8]) -> Result<(), TooShort> {
        *out.first_chunk_mut().ok_or(TooShort { needed: WIDTH })? = node.bytes;
        Ok(())
    }

    fn read(&self, bytes: &[u8]) -> Result<Option<Digest>, TooShort> {
        let front = bytes
            .first_chunk::<WIDTH>()
            .ok_or(TooShort { needed: WIDTH })?;
        Ok(Some(Digest { bytes: *front }))
    }
}
