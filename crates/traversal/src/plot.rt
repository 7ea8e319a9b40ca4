ghost use Rattle.std.specs.Prelude.{◌≡◌, ◌+◌, ◌-◌, ◌<◌, ◌≤◌, length, slice_index_or, slice_set};
ghost use Rattle.tree.specs.Geometry.{subtree_cells};
ghost use Rattle.traversal.specs.Plots.{row_start, cell_of, on_stack};

use crate::tail::{push_on, top_of};

/// The layout of one growing tree in the table: which of its nodes have a cell of their own, where these
/// cells lie, and where the stack of the other nodes starts.
#[derive(Clone, Copy)]
pub(crate) struct Plot {
    /// Below this height no node has a cell of its own.
    pub(crate) lowest: u32,
    /// The height of the tree.
    pub(crate) top: u32,
    /// The height of the subtrees.
    pub(crate) subtree: u32,
    /// Where the subtree of level 1 would start; those of higher levels follow.
    pub(crate) rows: usize,
    /// Where the stack starts.
    pub(crate) tail: usize,
}

/// Where a node lies.
#[derive(Clone, Copy)]
pub(crate) enum Home {
    /// In the first cell.
    Root,
    /// In the section of a subtree: where it starts, and how far from there.
    Subtree { start: usize, offset: usize },
    /// On top of the stack, which starts there.
    Stack { tail: usize },
}

impl Home {
    /// Puts a node there; answers how many nodes are on the stack then.
    pub(crate) fn put<N: Copy>(self, table: &mut [N], stacked: usize, node: N) -> usize
        requires { cell_of self stacked < length table.old }
        ensures table { table.new ≡ slice_set table.old (cell_of self stacked) node }
        ensures stacked { result ≡ stacked + on_stack self }
    {
        match self {
            Home::Root => {
                table[0] = node;
                stacked
            }
            Home::Subtree { start, offset } => {
                put(&mut table[start..], offset, node);
                stacked
            }
            Home::Stack { tail } => push_on(&mut table[tail..], stacked, node),
        }
    }

    /// Takes the node from there; answers it and how many nodes are on the stack then.
    pub(crate) fn take<N: Copy>(self, table: &mut [N], stacked: usize) -> (N, usize)
        requires stacked { on_stack self ≤ stacked }
        requires room { cell_of self (stacked - on_stack self) < length table.old }
        ensures value { result.0 ≡ slice_index_or table.old (cell_of self (stacked - on_stack self)) result.0 }
        ensures stacked { result.1 ≡ stacked - on_stack self }
        ensures table { table.new ≡ table.old }
    {
        match self {
            Home::Root => (table[0], stacked),
            Home::Subtree { start, offset } => (get(&table[start..], offset), stacked),
            Home::Stack { tail } => (top_of(&mut table[tail..], stacked), stacked - 1),
        }
    }
}

/// Puts a node into a cell of a section, which is passed as a slice that begins inside the table: a rule of the
/// project.
fn put<N: Copy>(section: &mut [N], offset: usize, node: N)
    requires { offset < length section.old }
    ensures { section.new ≡ slice_set section.old offset node }
{
    section[offset] = node;
}

/// The node in a cell of a section, passed in the same way.
fn get<N: Copy>(section: &[N], offset: usize) -> N
    requires { offset < length section.now }
    ensures { result ≡ slice_index_or section.now offset result }
{
    section[offset]
}

/// The cells of a subtree. A call of `tree` would be no plainer: it would have to refuse heights that no subtree has.
/// Nor would a number in the plot, of which `Legal` would have to say that it fits.
pub(crate) fn section_cells(subtree: u32) -> usize
    requires { subtree ≤ 10 }
    ensures { result ≡ subtree_cells subtree }
{
    (2 << subtree) - 2
}

/// Where a row of a subtree starts in its section. Rows count from the bottom.
pub(crate) fn row_offset(subtree: u32, row: u32) -> usize
    requires { (subtree ≤ 10) × (row ≤ subtree) }
    ensures { result ≡ row_start subtree row }
{
    (2 << subtree) - (2 << (subtree - row))
}
