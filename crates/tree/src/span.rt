ghost use Rattle.std.specs.Prelude.{◌≡◌, ◌+◌, ◌^◌, ◌≤◌, true, false, MatchOption};
ghost use Rattle.tree.specs.Numbers.{aligned};

use crate::height::GREATEST;

/// The numbers of the leaves below a node: 2^height of them from `first` on, all below 2^20.
#[derive(Clone, Copy, PartialEq, Eq)]
pub struct Interval {
    pub first: u32,
    pub height: u8,
    ghost whole: { aligned first height ≡ true },
}

/// The greatest height of an interval.
const TOP: u8 = GREATEST as u8;

/// How many leaves the highest tree has: no interval goes past them.
const LEAVES: u32 = 1 << TOP;

impl Interval {
    /// The 2^height numbers from `first` on, if they are those of the leaves below a node.
    pub(crate) fn new(first: u32, height: u8) -> Option<Interval>
        ensures { MatchOption result (aligned first height ≡ false) (λ a. (a.first ≡ first) × (a.height ≡ height)) }
    {
        if is_whole(first, height) {
            Some(Interval { first, height })
        } else {
            None
        }
    }

    /// The number after the last.
    pub(crate) fn end(self) -> u32
        ensures { result ≡ self.first + 2 ^ self.height }
    {
        self.first + leaves_below(self.height)
    }
}

/// Whether 2^height leaves from `first` on are the leaves below a node.
fn is_whole(first: u32, height: u8) -> bool
    ensures { result ≡ aligned first height }
{
    if height > TOP {
        return false;
    }
    let count = leaves_below(height);
    first % count == 0 && first <= LEAVES - count
}

/// How many leaves lie below a node of this height.
fn leaves_below(height: u8) -> u32
    requires { height ≤ 20 }
    ensures value { result ≡ 2 ^ height }
    ensures bound { (result ≤ 2 ^ 20) × (1 ≤ result) }
{
    1 << height
}

/// A node of the dummy maker. What is no node of a tree in order is broken. It is no `Option`: the broken span
/// is a node with bytes of its own, and reading answers an `Option` of a node.
#[derive(Clone, Copy, PartialEq, Eq)]
pub enum Span {
    Sound(Interval),
    Broken,
}
