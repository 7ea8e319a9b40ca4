//! The hash value, and how a block of the message changes it.

ghost use Rattle.std.specs.Prelude.{◌≡◌, ℕ, ◌+◌, List};
ghost use Rattle.std.specs.List.{fold};
ghost use Rattle.hashing.specs.Constants.{HasConstants, K};
ghost use Rattle.hashing.specs.Sha256.{bytes_of, compressed, padding, plus, round, rounds};
ghost use Rattle.hashing.specs.Stages.{HasWords, Stage};

use crate::words::{
    PADDING_SCHEDULE, ROUND_CONSTANTS, RUN, RUNS, big_sigma, choose, majority, next_word,
};

/// Bytes in a block.
pub const BLOCK: usize = 64;

/// Bytes in a word.
const WORD: usize = 4;

/// A hash value; between the rounds on a block, the working variables.
#[derive(Clone, Copy)]
pub struct State {
    a: u32,
    b: u32,
    c: u32,
    d: u32,
    e: u32,
    f: u32,
    g: u32,
    h: u32,
}

/// The hash value before the first block.
pub const INITIAL: State = State {
    a: 0x6a09e667,
    b: 0xbb67ae85,
    c: 0x3c6ef372,
    d: 0xa54ff53a,
    e: 0x510e527f,
    f: 0x9b05688c,
    g: 0x1f83d9ab,
    h: 0x5be0cd19,
};

impl State {
    /// A round, with its constant and its word of the schedule.
    fn round(self, constant: u32, word: u32) -> State
        ensures { (t : ℕ) → constant ≡ K t → result ≡ round t word self }
    {
        let t1 = self
            .h
            .wrapping_add(big_sigma::<6, 11, 25>(self.e))
            .wrapping_add(choose(self.e, self.f, self.g))
            .wrapping_add(constant)
            .wrapping_add(word);
        let t2 = big_sigma::<2, 13, 22>(self.a).wrapping_add(majority(self.a, self.b, self.c));
        State {
            a: t1.wrapping_add(t2),
            b: self.a,
            c: self.b,
            d: self.c,
            e: self.d.wrapping_add(t1),
            f: self.e,
            g: self.f,
            h: self.g,
        }
    }

    /// A run of rounds, with their constants and words.
    /// Written out: with a loop over the two, a hash takes a quarter longer, and one of 64 bytes misses the bar of 1.1
    /// times the scalar Rust in bench/.
    fn rounds(self, constants: &[u32; RUN], words: &[u32; RUN]) -> State
        ensures { (m : List ℕ) (start : State) (t : ℕ) → HasConstants t constants.now → Stage m start t self words.now → result ≡ rounds m (t + 16) start }
    {
        let s = self.round(constants[0], words[0]);
        let s = s.round(constants[1], words[1]);
        let s = s.round(constants[2], words[2]);
        let s = s.round(constants[3], words[3]);
        let s = s.round(constants[4], words[4]);
        let s = s.round(constants[5], words[5]);
        let s = s.round(constants[6], words[6]);
        let s = s.round(constants[7], words[7]);
        let s = s.round(constants[8], words[8]);
        let s = s.round(constants[9], words[9]);
        let s = s.round(constants[10], words[10]);
        let s = s.round(constants[11], words[11]);
        let s = s.round(constants[12], words[12]);
        let s = s.round(constants[13], words[13]);
        let s = s.round(constants[14], words[14]);
        let s = s.round(constants[15], words[15]);
        s
    }

    /// The sums of the words of the two.
    fn plus(self, other: State) -> State
        ensures { result ≡ plus self other }
    {
        State {
            a: self.a.wrapping_add(other.a),
            b: self.b.wrapping_add(other.b),
            c: self.c.wrapping_add(other.c),
            d: self.d.wrapping_add(other.d),
            e: self.e.wrapping_add(other.e),
            f: self.f.wrapping_add(other.f),
            g: self.g.wrapping_add(other.g),
            h: self.h.wrapping_add(other.h),
        }
    }

    /// The hash value after one more block.
    // The last row is taken by index: the check does not cover the pattern `[front @ .., last]` on the table, and
    // `split_last` would be no plainer, since it answers an `Option` that is never none.
    fn compress(self, block: &[u8; BLOCK]) -> State
        ensures { result ≡ compressed self block.now }
    {
        let mut s = self;
        let mut words = words_of(block);
        for constants in &ROUND_CONSTANTS[..RUNS - 1] {
            s = s.rounds(constants, &words);
            words = following(words);
        }
        s.rounds(&ROUND_CONSTANTS[RUNS - 1], &words).plus(self)
    }

    /// The hash value after the block that is the padding of a message of one block.
    /// Not `compress` of that block: without the schedule in a table, a hash of 64 bytes takes three tenths longer and
    /// misses the bar of 1.1 times the scalar Rust in bench/.
    pub fn absorb_padding(self) -> State
        ensures { result ≡ compressed self (padding 64) }
    {
        let mut s = self;
        for (constants, words) in ROUND_CONSTANTS.iter().zip(&PADDING_SCHEDULE) {
            s = s.rounds(constants, words);
        }
        s.plus(self)
    }

    /// The hash value after all of the blocks.
    pub fn absorb(self, blocks: &[[u8; BLOCK]]) -> State
        ensures { result ≡ fold compressed self blocks.now }
    {
        blocks.iter().fold(self, State::compress)
    }
}

// The words in a row, each with its most significant byte first.
impl From<State> for [u8; 32] {
    ghost from_gives = { λ state bytes. bytes ≡ bytes_of state };

    fn from(state: State) -> [u8; 32] {
        let words = [
            state.a, state.b, state.c, state.d, state.e, state.f, state.g, state.h,
        ];
        let mut bytes = [0; 32];
        bytes.copy_from_slice(words.map(u32::to_be_bytes).as_flattened());
        bytes
    }
}

/// The words of a block, each with its most significant byte first.
fn words_of(block: &[u8; BLOCK]) -> [u32; RUN]
    ensures { HasWords block.now 0 result }
{
    let (words, _) = block.as_chunks::<WORD>();
    std::array::from_fn(|j| u32::from_be_bytes(words[j]))
}

/// The words of the schedule that follow sixteen words.
// By index: a new word needs three others, of which some are new already, so no iterator over the words lends
// what it takes.
fn following(mut words: [u32; RUN]) -> [u32; RUN]
    ensures { (m : List ℕ) (t : ℕ) → HasWords m t words → HasWords m (t + 16) result }
{
    for j in 0..RUN {
        words[j] = next_word(
            words[j],
            words[(j + 1) % RUN],
            words[(j + 9) % RUN],
            words[(j + 14) % RUN],
        );
    }
    words
}
