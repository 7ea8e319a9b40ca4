//! The functions on words, the constants and the step of the message schedule.

ghost use Rattle.std.specs.Prelude.{◌≡◌, ◌<◌};
ghost use Rattle.hashing.specs.Sha256.{next_word};
ghost use Rattle.hashing.specs.Words.{Ch, IsRotation, Maj, big_sigma, small_sigma};

/// Words in a block, and rounds in a run.
pub const RUN: usize = 16;

/// Runs of rounds on a block.
pub const RUNS: usize = 4;

/// The constants of the rounds, run by run.
pub const ROUND_CONSTANTS: [[u32; RUN]; RUNS] = [
    [
        0x428a2f98, 0x71374491, 0xb5c0fbcf, 0xe9b5dba5, 0x3956c25b, 0x59f111f1, 0x923f82a4,
        0xab1c5ed5, 0xd807aa98, 0x12835b01, 0x243185be, 0x550c7dc3, 0x72be5d74, 0x80deb1fe,
        0x9bdc06a7, 0xc19bf174,
    ],
    [
        0xe49b69c1, 0xefbe4786, 0x0fc19dc6, 0x240ca1cc, 0x2de92c6f, 0x4a7484aa, 0x5cb0a9dc,
        0x76f988da, 0x983e5152, 0xa831c66d, 0xb00327c8, 0xbf597fc7, 0xc6e00bf3, 0xd5a79147,
        0x06ca6351, 0x14292967,
    ],
    [
        0x27b70a85, 0x2e1b2138, 0x4d2c6dfc, 0x53380d13, 0x650a7354, 0x766a0abb, 0x81c2c92e,
        0x92722c85, 0xa2bfe8a1, 0xa81a664b, 0xc24b8b70, 0xc76c51a3, 0xd192e819, 0xd6990624,
        0xf40e3585, 0x106aa070,
    ],
    [
        0x19a4c116, 0x1e376c08, 0x2748774c, 0x34b0bcb5, 0x391c0cb3, 0x4ed8aa4a, 0x5b9cca4f,
        0x682e6ff3, 0x748f82ee, 0x78a5636f, 0x84c87814, 0x8cc70208, 0x90befffa, 0xa4506ceb,
        0xbef9a3f7, 0xc67178f2,
    ],
];

/// The message schedule of the padding of a message of one block, which is the same for each such message.
pub const PADDING_SCHEDULE: [[u32; RUN]; RUNS] = [
    [
        0x80000000, 0x00000000, 0x00000000, 0x00000000, 0x00000000, 0x00000000, 0x00000000,
        0x00000000, 0x00000000, 0x00000000, 0x00000000, 0x00000000, 0x00000000, 0x00000000,
        0x00000000, 0x00000200,
    ],
    [
        0x80000000, 0x01400000, 0x00205000, 0x00005088, 0x22000800, 0x22550014, 0x05089742,
        0xa0000020, 0x5a880000, 0x005c9400, 0x0016d49d, 0xfa801f00, 0xd33225d0, 0x11675959,
        0xf6e6bfda, 0xb30c1549,
    ],
    [
        0x08b2b050, 0x9d7c4c27, 0x0ce2a393, 0x88e6e1ea, 0xa52b4335, 0x67a16f49, 0xd732016f,
        0x4eeb2e91, 0x5dbf55e5, 0x8eee2335, 0xe2bc5ec2, 0xa83f4394, 0x45ad78f7, 0x36f3d0cd,
        0xd99c05e8, 0xb0511dc7,
    ],
    [
        0x69bc7ac4, 0xbd11375b, 0xe3ba71e5, 0x3b209ff2, 0x18feee17, 0xe25ad9e7, 0x13375046,
        0x0515089d, 0x4f0d0f04, 0x2627484e, 0x310128d2, 0xc668b434, 0x420841cc, 0x62d311b8,
        0xe59ba771, 0x85a7a484,
    ],
];

/// Each bit of `y` where `x` has 1, and of `z` where it has 0.
pub fn choose(x: u32, y: u32, z: u32) -> u32
    ensures { result ≡ Ch x y z }
{
    (x & (y ^ z)) ^ z
}

/// Each bit that at least two of the three have.
pub fn majority(x: u32, y: u32, z: u32) -> u32
    ensures { result ≡ Maj x y z }
{
    ((x ^ y) & (y ^ z)) ^ y
}

/// Three rotations of `x`.
pub fn big_sigma<const A: u32, const B: u32, const C: u32>(x: u32) -> u32
    requires { IsRotation A × IsRotation B × IsRotation C }
    ensures { result ≡ big_sigma A B C x }
{
    x.rotate_right(A) ^ x.rotate_right(B) ^ x.rotate_right(C)
}

/// Two rotations of `x` and a shift.
fn small_sigma<const A: u32, const B: u32, const C: u32>(x: u32) -> u32
    requires { IsRotation A × IsRotation B × (C < 32) }
    ensures { result ≡ small_sigma A B C x }
{
    x.rotate_right(A) ^ x.rotate_right(B) ^ (x >> C)
}

/// The word of the schedule 16 places after `w0`, where `w1`, `w9` and `w14` stand 1, 9 and 14 places after it.
pub fn next_word(w0: u32, w1: u32, w9: u32, w14: u32) -> u32
    ensures { result ≡ next_word w0 w1 w9 w14 }
{
    small_sigma::<17, 19, 10>(w14)
        .wrapping_add(w9)
        .wrapping_add(small_sigma::<7, 18, 3>(w1))
        .wrapping_add(w0)
}
