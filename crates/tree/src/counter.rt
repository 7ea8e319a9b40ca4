ghost use Rattle.std.specs.Prelude.{◌≡◌, ◌^◌, ◌<◌};
ghost use Rattle.tree.specs.Meaning.{reading, after};

/// A maker's meter: the leaves and the joins that it has made, each modulo 2^64.
#[derive(Drop)]
pub struct Counter {
    leaves: u64,
    joins: u64,
    ghost fits: { (leaves < 2 ^ 64) × (joins < 2 ^ 64) },
}

// Written out, since no `Default` is derived where a ghost field is.
impl Default for Counter {
    ghost use Rattle.tree.specs.Counting.{metered};

    ghost is_default = { λ c. metered c ≡ reading 0 0 };

    fn default() -> Counter {
        Counter {
            leaves: 0,
            joins: 0,
        }
    }
}

impl Counter {
    ghost use Rattle.tree.specs.Counting.{metered};

    pub fn new() -> Counter
        ensures { metered result ≡ reading 0 0 }
    {
        Counter::default()
    }

    /// Two calls and not one for any counts, since `count_leaf()` says more than `count(1, 0)`.
    pub fn count_leaf(&mut self)
        ensures { metered self.new ≡ after 1 0 (metered self.old) }
    {
        self.leaves = self.leaves.wrapping_add(1);
    }

    pub fn count_join(&mut self)
        ensures { metered self.new ≡ after 0 1 (metered self.old) }
    {
        self.joins = self.joins.wrapping_add(1);
    }

    pub fn counts(&self) -> (u64, u64)
        ensures { result ≡ ((metered self.now).leaves, (metered self.now).joins) }
    {
        (self.leaves, self.joins)
    }
}
