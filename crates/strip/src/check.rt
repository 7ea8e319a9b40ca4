ghost use Rattle.std.specs.Prelude.{◌≡◌, Decides};
ghost use Rattle.tree.specs.Meaning.{after};
ghost use Rattle.strip.specs.Calls.{Checks, AcceptsFullTree};
ghost use Rattle.strip.specs.Parts.{OnlyNodes, strip_leads};

use crate::parse::{Strip, parse};
use crate::refusal::Refusal;
use tree::fold::fold;
use tree::maker::Maker;

/// Whether a strip's token and path lead to the root.
pub fn check<M: Maker>(maker: &mut M, bytes: &[u8], root: M::Node) -> Result<bool, Refusal>
    ensures answer { Checks (M.meaning maker.old) bytes.now root (M.meter maker.old) (M.meter maker.new) result }
    ensures full_tree { AcceptsFullTree (M.meaning maker.old) bytes.now root result }
    ensures keeps { M.meaning maker.new ≡ M.meaning maker.old }
{
    let strip = parse(maker, bytes)?;
    Ok(leads_to(maker, &strip, root))
}

/// Whether the token and the path of a strip that was taken apart lead to the root.
fn leads_to<M: Maker>(maker: &mut M, strip: &Strip, root: M::Node) -> bool
    requires { OnlyNodes (M.meaning maker.old) strip.now }
    ensures answer { Decides result (strip_leads (M.meaning maker.old) strip.now ≡ root) }
    ensures keeps { M.meaning maker.new ≡ M.meaning maker.old }
    ensures counts { M.meter maker.new ≡ after 1 strip.now.height (M.meter maker.old) }
{
    let leaf = maker.leaf(strip.number, strip.token);
    let top = fold(maker, strip.number, leaf, strip.path).unwrap();
    maker.same(top, root)
}
