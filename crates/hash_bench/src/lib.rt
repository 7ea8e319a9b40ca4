//! `hashing::digest` for a program in another language, to measure it.

#![tactic(auto)]

ghost use Rattle.std.specs.Prelude.{◌<◌, ◌≤◌, drop, length, false, true, ◌++◌, ◌≡◌};
ghost use Rattle.hashing.specs.Sha256.{sha256};

/// The bytes of a digest.
const DIGEST: usize = 32;

/// Writes the hash of `message` to the front of `out`, if there is room: a `bool`, since C has no `Result`.
#[unsafe(no_mangle)]
pub extern "C" fn bench_digest(message: &[u8], out: &mut [u8]) -> bool
    ensures short { length out.old < 32 → (result ≡ false) × (out.new ≡ out.old) }
    ensures written { 32 ≤ length out.old → (result ≡ true) × (out.new ≡ sha256 message.now ++ drop 32 out.old) }
{
    let Some(front) = out.first_chunk_mut::<DIGEST>() else {
        return false;
    };
    *front = hashing::digest(message);
    true
}
