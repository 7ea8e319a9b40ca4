ghost use Rattle.std.specs.Prelude.{◌≡◌, ◌≢◌, IfSome, IsNone, slice_index};
ghost use Rattle.tree.specs.Kinds.{kind_byte};
ghost use Rattle.tree.specs.declared.kind.Kind.{Kind};
ghost use Rattle.tree.specs.Digests.{sealed_meaning};
ghost use Rattle.tree.specs.Spans.{dummy_meaning};
ghost use Rattle.strip.specs.Calls.{Judges, JudgesByKind, AcceptsRoot, CountsJudging};

use crate::check::check;
use crate::parse::parse;
use crate::refusal::Refusal;
use tree::dummy::Dummy;
use tree::fault::TooShort;
use tree::fold::front_node;
use tree::kind::Kind;
use tree::maker::Maker;
use tree::sealed::Sealed;

/// Whether a strip leads to a root, both given as bytes. The strip's kind byte picks the maker; a kind
/// that no maker has is refused as any wrong byte is.
pub fn judge(root: &[u8], bytes: &[u8]) -> Result<bool, Refusal>
    ensures answer { JudgesByKind root.now bytes.now result }
    ensures sealed_trees { AcceptsRoot sealed_meaning root.now bytes.now result }
    ensures dummy_trees { AcceptsRoot dummy_meaning root.now bytes.now result }
{
    match kind_in(bytes) {
        Some(Kind::Dummy) => judge_with(&mut Dummy::new(), root, bytes),
        // A byte that names no kind is wrong to any maker.
        Some(Kind::Sealed) | None => judge_with(&mut Sealed::new(), root, bytes),
    }
}

/// The kind that a strip's kind byte names, if it names one.
fn kind_in(bytes: &[u8]) -> Option<Kind>
    ensures named { IfSome result (λ kind. kind_byte kind ≡ slice_index bytes.now 1) }
    ensures none { IsNone result → (kind : Kind) → kind_byte kind ≢ slice_index bytes.now 1 }
{
    match bytes {
        [_, byte, ..] => Kind::try_from(*byte).ok(),
        _ => None,
    }
}

/// Whether a strip of a given maker leads to a root, both given as bytes. Makes a leaf and a join for each
/// node of the path, unless it refuses the strip or the root's bytes are no node.
pub fn judge_with<M: Maker>(maker: &mut M, root: &[u8], bytes: &[u8]) -> Result<bool, Refusal>
    ensures answer { Judges (M.meaning maker.old) root.now bytes.now result }
    ensures full_tree { AcceptsRoot (M.meaning maker.old) root.now bytes.now result }
    ensures keeps { M.meaning maker.new ≡ M.meaning maker.old }
    ensures counts { CountsJudging (M.meaning maker.old) root.now bytes.now result (M.meter maker.old) (M.meter maker.new) }
{
    let needed = maker.width();
    if root.len() == needed {
        if let Some(node) = front_node(maker, root) {
            return check(maker, bytes, node);
        }
    }
    // No node: a fault of the strip comes before one of the root.
    parse(maker, bytes)?;
    if root.len() != needed {
        return Err(TooShort { needed }.into());
    }
    Ok(false)
}
