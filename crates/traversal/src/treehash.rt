ghost use Rattle.std.specs.Prelude.{◌≡◌, ◌-◌, ◌<◌, ◌≤◌};
ghost use Rattle.growth.specs.Order.{join_due};

/// How far a treehash has come: a tree that is made leaf by leaf, two nodes of equal height on top of the
/// stack being joined at once.
#[derive(Clone, Copy, Debug, Default, PartialEq, Eq)]
pub(crate) struct Treehash {
    pub(crate) leaves: u32,
    pub(crate) joins: u32,
    /// The height of the newest node; 0 before the first.
    pub(crate) newest: u32,
    /// How many nodes lie on the stack, having no cell of their own. The stack is the front of a slice of the
    /// table, which is lent for a call, so only its length is kept.
    pub(crate) stacked: usize,
}

impl Treehash {
    /// The leaves and the joins made so far.
    pub(crate) fn made(&self) -> (u64, u64)
        ensures { result ≡ (self.now.leaves, self.now.joins) }
    {
        (u64::from(self.leaves), u64::from(self.joins))
    }

    /// The leaves and the joins made since the treehash was as before.
    pub(crate) fn since(&self, before: Treehash) -> (u64, u64)
        requires { (before.leaves ≤ self.now.leaves) × (before.joins ≤ self.now.joins) }
        ensures { result ≡ (self.now.leaves - before.leaves, self.now.joins - before.joins) }
    {
        (
            u64::from(self.leaves - before.leaves),
            u64::from(self.joins - before.joins),
        )
    }

    /// Whether the two nodes on top of the stack have equal height: the newest one is a right child.
    pub(crate) fn is_join_due(&self) -> bool
        requires { self.now.newest < 32 }
        ensures { result ≡ join_due self.now.leaves self.now.newest }
    {
        self.leaves > 0 && ((self.leaves - 1) >> self.newest) % 2 == 1
    }
}
