ghost use Rattle.std.specs.Prelude.{◌≡◌};
ghost use Rattle.tree.specs.Meaning.{reading, OneSpelling};
ghost use Rattle.tree.specs.Counting.{metered};
ghost use Rattle.tree.specs.Spans.{span, join_intervals, join_spans, put_span, read_span, dummy_meaning};
ghost use Rattle.tree.specs.Spanning.{dummy_lawful};
ghost use Rattle.std.proofs.Common.{rules};

use crate::counter::Counter;
use crate::fault::TooShort;
use crate::kind::Kind;
use crate::maker::Maker;
use crate::span::{Interval, Span};

/// The dummy maker: hashes nothing, so that a run can be tried without a licence, and its nodes tell
/// where in the tree they stand.
#[derive(Default, Drop)]
pub struct Dummy {
    counter: Counter,
}

impl Dummy {
    pub fn new() -> Dummy
        ensures starts { metered result.counter ≡ reading 0 0 }
        ensures one_spelling { OneSpelling dummy_meaning }
    {
        Dummy::default()
    }
}

// This impl and that of `Sealed` are alike in lines that call the counter or take a chunk. A maker over any scheme
// would need a second trait with the functions of this one, and would be no plainer.
impl Maker for Dummy {
    type Node = Span;

    ghost meaning = { λ _. dummy_meaning };

    ghost meter = { λ s. metered s.counter };

    ghost lawful = { λ s. dummy_lawful };

    ghost wraps = { Prim.search rules };

    fn kind(&self) -> u8 {
        Kind::Dummy.into()
    }

    fn width(&self) -> usize {
        Kind::Dummy.width()
    }

    fn made(&self) -> (u64, u64) {
        self.counter.counts()
    }

    fn leaf(&mut self, number: u32, _token: &[u8]) -> Span {
        self.counter.count_leaf();
        span_of(number, 0)
    }

    fn join(&mut self, left: Span, right: Span) -> Span {
        self.counter.count_join();
        join_spans(left, right)
    }

    #[tactic(auto, using(crate::proofs::Comparing::span_eq_decides))]
    fn same(&self, one: Span, other: Span) -> bool {
        one == other
    }

    fn put(&self, node: Span, out: &mut [u8]) -> Result<(), TooShort> {
        *out.first_chunk_mut().ok_or(TooShort { needed: WIDTH })? = node.into();
        Ok(())
    }

    fn read(&self, bytes: &[u8]) -> Result<Option<Span>, TooShort> {
        let front = bytes.first_chunk().ok_or(TooShort { needed: WIDTH })?;
        Ok(read_span(front))
    }
}

/// A node's bytes: four for the first number and one for the height.
pub(crate) const WIDTH: usize = 5;

/// Any byte of the broken span.
const BROKEN: u8 = 255;

/// The span of 2^height leaves from `first` on.
fn span_of(first: u32, height: u8) -> Span
    ensures { result ≡ span first height }
{
    Interval::new(first, height).map_or(Span::Broken, Span::Sound)
}

fn join_intervals(left: Interval, right: Interval) -> Span
    ensures { result ≡ join_intervals left right }
{
    if right.height == left.height && right.first == left.end() {
        span_of(left.first, left.height + 1)
    } else {
        Span::Broken
    }
}

fn join_spans(left: Span, right: Span) -> Span
    ensures { result ≡ join_spans left right }
{
    match (left, right) {
        (Span::Sound(a), Span::Sound(b)) => join_intervals(a, b),
        _ => Span::Broken,
    }
}

// A node as bytes.
impl From<Span> for [u8; WIDTH] {
    ghost from_gives = { λ node bytes. bytes ≡ put_span node };

    fn from(node: Span) -> [u8; WIDTH] {
        match node {
            Span::Sound(a) => {
                let [b3, b2, b1, b0] = a.first.to_be_bytes();
                [b3, b2, b1, b0, a.height]
            }
            Span::Broken => [BROKEN; WIDTH],
        }
    }
}

/// The node that bytes are, if they are one. A `TryFrom` would be no plainer: `Maker::read` wants an `Option`, and there
/// is nothing to tell of bytes that are no node.
fn read_span(bytes: &[u8; WIDTH]) -> Option<Span>
    ensures { result ≡ read_span bytes.now }
{
    if *bytes == [BROKEN; WIDTH] {
        return Some(Span::Broken);
    }
    let [b3, b2, b1, b0, height] = *bytes;
    let first = u32::from_be_bytes([b3, b2, b1, b0]);
    Interval::new(first, height).map(Span::Sound)
}
