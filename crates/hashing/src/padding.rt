//! The end of a message: what is left of it after its whole blocks, and the padding.

ghost use Rattle.std.specs.Prelude.{◌≡◌, ◌%◌, ◌++◌, length};
ghost use Rattle.hashing.specs.Sha256.{hashed_all, padding, zeros};
ghost use Rattle.hashing.specs.Stages.{LeastZeros};

use crate::state::{BLOCK, State};

/// The byte that follows the message: the bit 1 and seven bits 0.
const MARK: u8 = 0x80;

/// Bytes of the message's length at the end of the last block.
const LENGTH: usize = 8;

/// Room for the end of a message with its padding.
const END: usize = 2 * BLOCK;

/// How many zero bytes stand between the mark and the length.
fn zero_bytes(total: usize) -> usize
    ensures exact { result ≡ zeros total }
    ensures least { LeastZeros total result }
{
    (END - LENGTH - 1 - total % BLOCK) % BLOCK
}

/// The hash value after the end of a message of `total` bytes, of which `rest` is left.
pub fn absorb_end(hash: State, rest: &[u8], total: usize) -> State
    requires { length rest.now ≡ total % 64 }
    ensures { result ≡ hashed_all hash (rest.now ++ padding total) }
{
    // A pair of hashes is such a message, so it is a common one.
    if total == BLOCK {
        return hash.absorb_padding();
    }
    // room for the longest end, and how much of it is used: the library takes no memory
    let mut end = [0; END];
    let size = rest.len() + 1 + zero_bytes(total) + LENGTH;
    end[..rest.len()].copy_from_slice(rest);
    end[rest.len()] = MARK;
    end[size - LENGTH..size].copy_from_slice(&total.wrapping_mul(8).to_be_bytes());
    let (blocks, _) = end[..size].as_chunks::<BLOCK>();
    hash.absorb(blocks)
}
