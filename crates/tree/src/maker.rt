ghost use Rattle.std.specs.Prelude.{◌≡◌, Decides};
ghost use Rattle.tree.specs.Meaning.{Meaning, Lawful, Meter, Wraps, after, Puts, Reads};

use crate::fault::TooShort;

/// A hash scheme for Merkle trees: how leaves and inner nodes are made, compared and put into bytes. The
/// meaning belongs to the value, so two makers of one type may mean different functions. Every leaf and
/// every join is counted, since hashing is licensed by the node. A function that takes a maker mutably says in
/// its contract that the meaning stays: no law of the trait can speak of other functions.
pub trait Maker {
    type Node: Copy;

    ghost meaning: { Self → Meaning Self.Node };

    ghost meter: { Self → Meter };

    /// The byte that names this maker in a strip; no `Kind`, which would ask of other makers to be one of ours.
    fn kind(&self) -> u8
        ensures { result ≡ (meaning self.now).kind };

    /// How many bytes a node has.
    fn width(&self) -> usize
        ensures { result ≡ (meaning self.now).width };

    /// The leaves and the joins made so far, each modulo 2^64. Counts are a tuple in all calls: a rule of the project.
    fn made(&self) -> (u64, u64)
        ensures { result ≡ ((meter self.now).leaves, (meter self.now).joins) };

    /// The leaf of a number and its token.
    fn leaf(&mut self, number: u32, token: &[u8]) -> Self::Node
        ensures value { result ≡ (meaning self.old).leaf number token.now }
        ensures keeps { meaning self.new ≡ meaning self.old }
        ensures counts { meter self.new ≡ after 1 0 (meter self.old) };

    /// The parent of two nodes.
    fn join(&mut self, left: Self::Node, right: Self::Node) -> Self::Node
        ensures value { result ≡ (meaning self.old).join left right }
        ensures keeps { meaning self.new ≡ meaning self.old }
        ensures counts { meter self.new ≡ after 0 1 (meter self.old) };

    /// Whether two nodes are equal. A bound `Eq` on the nodes would be no plainer: it does not say that it is equality,
    /// so a law would have to stand beside it.
    fn same(&self, one: Self::Node, other: Self::Node) -> bool
        ensures { Decides result (one ≡ other) };

    /// Puts a node into the front of `out`.
    fn put(&self, node: Self::Node, out: &mut [u8]) -> Result<(), TooShort>
        ensures { Puts (meaning self.now) node out.old out.new result };

    /// The node at the front of `bytes`, if one is there.
    fn read(&self, bytes: &[u8]) -> Result<Option<Self::Node>, TooShort>
        ensures { Reads (meaning self.now) bytes.now result };

    ghost lawful: { (s : Self) → Lawful (meaning s) };

    ghost wraps: { (s : Self) → Wraps (meter s) };
}
