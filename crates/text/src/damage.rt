ghost use Rattle.std.specs.Prelude.{◌≡◌, OnOk, Some};
ghost use Rattle.std.specs.List.{FoldsTo};
ghost use Rattle.text.specs.Damages.{damage_text, changes, cuts, Told};

use std::fmt;

/// One way to damage bytes.
#[derive(Clone, Copy)]
pub enum Damage {
    /// The bits of a mask are inverted in the byte at a place.
    Change(usize, u8),
    /// So many bytes are left.
    Cut(usize),
}

impl fmt::Display for Damage {
    ghost output = { λ damage. Some (damage_text damage) };

    fn fmt<W: fmt::Write>(&self, f: &mut fmt::Formatter<W>) -> fmt::Result {
        match self {
            Damage::Change(place, mask) => write!(f, "byte {place} by {mask}"),
            Damage::Cut(size) => write!(f, "cut to {size}"),
        }
    }
}

/// Shows bytes after each change: at each place in turn, by each of some masks. The bytes are left as they
/// were, also where an error ends it.
pub fn each_change<E, F: FnMut(Damage, &[u8]) -> Result<(), E>>(
    bytes: &mut [u8],
    masks: &[u8],
    mut show: F,
) -> Result<(), E>
    requires { F.IsAlwaysCallable show }
    ensures kept { bytes.new ≡ bytes.old }
    ensures shown { OnOk result ((last : F) × FoldsTo (Told F.step bytes.old) show (changes masks.now bytes.old) last) }
{
    // By index: the place is shown, and the whole is lent to `show` while one of its bytes is changed.
    for place in 0..bytes.len() {
        for mask in masks {
            bytes[place] ^= *mask;
            let shown = show(Damage::Change(place, *mask), bytes);
            bytes[place] ^= *mask;
            shown?;
        }
    }
    Ok(())
}

/// Shows bytes after each cut, the shortest first.
pub fn each_cut<E, F: FnMut(Damage, &[u8]) -> Result<(), E>>(
    bytes: &[u8],
    mut show: F,
) -> Result<(), E>
    requires { F.IsAlwaysCallable show }
    ensures { OnOk result ((last : F) × FoldsTo (Told F.step bytes.now) show (cuts bytes.now) last) }
{
    for size in 0..bytes.len() {
        show(Damage::Cut(size), &bytes[..size])?;
    }
    Ok(())
}
