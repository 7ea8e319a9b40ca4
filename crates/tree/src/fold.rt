ghost use Rattle.std.specs.Prelude.{◌≡◌, ◌≤◌, length, OnSome};
ghost use Rattle.tree.specs.Meaning.{after};
ghost use Rattle.tree.specs.Path.{parent, front_node, path_nodes, folded, FoldsToRoot};

use crate::maker::Maker;

/// Folds a path, given as bytes, from a node of the given index up: answers the root that it leads to, or
/// none unless the bytes are nodes from end to end. Makes a join for each node of the path that it reads.
pub fn fold<M: Maker>(maker: &mut M, number: u32, leaf: M::Node, path: &[u8]) -> Option<M::Node>
    ensures value { result ≡ folded (M.meaning maker.old) number leaf path.now }
    ensures full_tree { FoldsToRoot (M.meaning maker.old) number leaf path.now result }
    ensures keeps { M.meaning maker.new ≡ M.meaning maker.old }
    ensures counts { M.meter maker.new ≡ after 0 (length (path_nodes (M.meaning maker.old) path.now)) (M.meter maker.old) }
{
    let nodes = path.chunks_exact(maker.width());
    let rest = nodes.remainder();
    let mut index = number;
    let mut node = leaf;
    for bytes in nodes {
        let sibling = front_node(maker, bytes)?;
        node = join_with(maker, index, node, sibling);
        index /= 2;
    }
    rest.is_empty().then_some(node)
}

/// The node that the bytes begin with, if they are long enough and it reads as one.
pub fn front_node<M: Maker>(maker: &M, bytes: &[u8]) -> Option<M::Node>
    ensures value { result ≡ front_node (M.meaning maker.now) bytes.now }
    ensures room { OnSome result ((M.meaning maker.now).width ≤ length bytes.now) }
{
    maker.read(bytes).unwrap_or(None)
}

/// The parent of a node of the given index and its sibling.
fn join_with<M: Maker>(maker: &mut M, index: u32, node: M::Node, sibling: M::Node) -> M::Node
    ensures value { result ≡ parent (M.meaning maker.old).join index node sibling }
    ensures keeps { M.meaning maker.new ≡ M.meaning maker.old }
    ensures counts { M.meter maker.new ≡ after 0 1 (M.meter maker.old) }
{
    if index % 2 == 0 {
        maker.join(node, sibling)
    } else {
        maker.join(sibling, node)
    }
}
