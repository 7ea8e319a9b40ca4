//! The three calls for C, under the names that `include/strips.h` declares.

#![tactic(auto)]

ghost use Rattle.std.specs.Prelude.{◌≡◌, ◌≢◌, IfSome, IsNone};
ghost use Rattle.tree.specs.Kinds.{kind_byte};
ghost use Rattle.tree.specs.declared.kind.Kind.{Kind};
ghost use Rattle.strip_c.specs.Foreign.{AcceptsSealed, ChecksSealed, length_or_0, size_or_0};

use strip::judge::judge_with;
use strip::layout::strip_length;
use tree::dummy::Dummy;
use tree::fault::TooShort;
use tree::geometry::{Heights, size};
use tree::height::is_height;
use tree::kind::Kind;
use tree::sealed::Sealed;

/// What a check answers if the strip leads to the root. The C interface fixes this number.
const YES: u32 = 0;

/// What a check answers if it does not. The C interface fixes this number.
const NO: u32 = 100;

/// How many cells the table of a traversal has. The C interface fixes the 0 for heights that no tree or no
/// subtree has.
#[unsafe(no_mangle)]
pub extern "C" fn strips_table_size(height: u32, subtree: u32) -> u64
    ensures { result ≡ size_or_0 height subtree }
{
    size(Heights { height, subtree }).map_or(0, |cells| cells as u64)
}

/// How many bytes a strip has. The C interface fixes the 0 for a kind or a height that no strip has. A length is asked
/// of a maker, whose width is bounded, so each kind has an arm.
#[unsafe(no_mangle)]
pub extern "C" fn strips_strip_length(kind: u32, height: u32) -> u64
    ensures { result ≡ length_or_0 kind height }
{
    if !is_height(height) {
        return 0;
    }
    match kind_of(kind) {
        Some(Kind::Sealed) => strip_length(&Sealed::new(), height) as u64,
        Some(Kind::Dummy) => strip_length(&Dummy::new(), height) as u64,
        None => 0,
    }
}

/// The kind that a number from C stands for, or none.
fn kind_of(number: u32) -> Option<Kind>
    ensures named { IfSome result (λ kind. kind_byte kind ≡ number) }
    ensures none { IsNone result → (kind : Kind) → kind_byte kind ≢ number }
{
    Kind::try_from(u8::try_from(number).ok()?).ok()
}

/// Whether a sealed strip leads to a root of 32 bytes: 0 for yes and 100 for no, or the number of the
/// refusal.
#[unsafe(no_mangle)]
pub extern "C" fn strips_check(strip: &[u8], root: &[u8]) -> u32
    ensures answer { ChecksSealed strip.now root.now result }
    ensures full_tree { AcceptsSealed strip.now root.now result }
{
    let needed = Kind::Sealed.width();
    if root.len() != needed {
        return u32::from(TooShort { needed }.number());
    }
    match judge_with(&mut Sealed::new(), root, strip) {
        Ok(true) => YES,
        Ok(false) => NO,
        Err(refusal) => u32::from(refusal.number()),
    }
}
