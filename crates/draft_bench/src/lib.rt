//! A sealed draft for a program in another language, to measure it, and the digests of one alone.

#![tactic(auto)]

ghost use Rattle.std.specs.Prelude.{◌≡◌, ◌<◌, ◌≤◌, true, false, ◌++◌, length, drop};
ghost use Rattle.draft_bench.specs.Roots.{seed_root, WritesRoot};

use hashing::digest;
use session::root::root;
use traversal::lent::Lent;
use tree::digest::Digest;
use tree::geometry::Heights;
use tree::sealed::Sealed;
use tree::seed::{SEED_LENGTH, SeedSource};

/// The height of the tree, and that of the subtrees of its traversal.
const HEIGHTS: Heights = Heights {
    height: 16,
    subtree: 4,
};

/// The cells of the table of its traversal.
const CELLS: usize = 225;

/// The bytes of a seed, and of a digest.
const DIGEST: usize = 32;

/// The bytes that a token is made of, a seed and a number.
const NUMBERED: usize = 36;

/// The bytes of two nodes.
const PAIR: usize = 64;

/// Drafts the tree over the tokens of a seed and writes its root to the front of `out`, if there is room.
#[unsafe(no_mangle)]
pub extern "C" fn draft_bench_root(seed: &[u8], out: &mut [u8]) -> bool
    ensures { WritesRoot seed.now out.old result out.new }
{
    let Some(seed) = seed.first_chunk() else {
        return false;
    };
    write_front(draft_root(*seed).bytes, out)
}

/// The root of the tree over the tokens of a seed.
fn draft_root(seed: [u8; SEED_LENGTH]) -> Digest
    ensures { result ≡ seed_root seed }
{
    let mut table = [Digest { bytes: [0; DIGEST] }; CELLS];
    let mut maker = Sealed::new();
    let mut source = SeedSource::new(seed);
    let mut lent = Lent {
        table: &mut table,
        maker: &mut maker,
        source: &mut source,
    };
    // by cases: `unwrap` was tried, and its proof did not close
    match root(HEIGHTS, &mut lent) {
        Ok(drafted) => drafted.0,
        Err(_) => unreachable(),
    }
}

/// Makes as many digests as such a draft, and of messages as long, and writes the last one to the front of
/// `out`, if there is room. This call and `draft_bench_root` are two, since they promise different things: of
/// the digest here nothing is said.
#[unsafe(no_mangle)]
pub extern "C" fn draft_bench_digests(seed: &[u8], out: &mut [u8]) -> bool
    ensures short { length out.old < 32 → result ≡ false }
    ensures no_seed { length seed.now < 32 → result ≡ false }
    ensures done { 32 ≤ length out.old → 32 ≤ length seed.now → result ≡ true }
    ensures refused { result ≡ false → out.new ≡ out.old }
{
    let Some(first) = seed.first_chunk() else {
        return false;
    };
    write_front(last_digest(*first), out)
}

/// The last digest of a chain, in which each message begins with the digest of the one before.
fn last_digest(first: [u8; 32]) -> [u8; 32] {
    let mut last = first;
    for number in 0..1 << HEIGHTS.height {
        last = digest(&digest(&message::<NUMBERED>(last)));
        if number > 0 {
            last = digest(&message::<PAIR>(last));
        }
    }
    last
}

/// A message of a length, which begins with a digest.
fn message<const N: usize>(front: [u8; 32]) -> [u8; N]
    requires { 32 ≤ N }
{
    let mut row = [0; N];
    row[..DIGEST].copy_from_slice(&front);
    row
}

/// Writes a digest to the front of `out`, if there is room: a `bool` for a slice that may be short, as the C interface
/// has it.
/// `hash_bench` has the same: a crate for both would be a library more, for four lines.
fn write_front(digest: [u8; 32], out: &mut [u8]) -> bool
    ensures short { length out.old < 32 → (result ≡ false) × (out.new ≡ out.old) }
    ensures written { 32 ≤ length out.old → (result ≡ true) × (out.new ≡ digest ++ drop 32 out.old) }
{
    match out.first_chunk_mut() {
        Some(front) => {
            *front = digest;
            true
        }
        None => false,
    }
}
