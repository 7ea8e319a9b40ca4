ghost use Rattle.std.specs.Prelude.{◌≡◌, ◌^◌, nat_lt};
ghost use Rattle.tree.specs.Numbers.{legal_height};

/// The least height of a tree.
const LEAST: u32 = 1;

/// The greatest height of a tree.
pub(crate) const GREATEST: u32 = 20;

/// Whether a tree can have this height.
pub fn is_height(height: u32) -> bool
    ensures { result ≡ legal_height height }
{
    (LEAST..=GREATEST).contains(&height)
}

/// Whether a tree of this height has a leaf of this number.
pub fn has_leaf(height: u32, number: u32) -> bool
    ensures { result ≡ nat_lt number (2 ^ height) }
{
    number.checked_shr(height).unwrap_or(0) == 0
}
