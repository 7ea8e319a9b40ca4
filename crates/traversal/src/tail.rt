ghost use Rattle.std.specs.Prelude.{◌≡◌, ◌+◌, ◌-◌, ◌<◌, ◌≤◌, length, slice_index_or, slice_set};

use growth::stack::Stack;

/// Puts a node on the stack of the first `len` cells of a slice; answers how many there are then. The length stands
/// beside the cells, since the table is lent for a call and the treehash keeps numbers alone.
pub(crate) fn push_on<N: Copy>(cells: &mut [N], len: usize, node: N) -> usize
    requires { len < length cells.old }
    ensures len { result ≡ len + 1 }
    ensures cells { cells.new ≡ slice_set cells.old len node }
{
    let mut stack = Stack { cells, len };
    stack.push(node).unwrap();
    stack.len
}

/// The top node of the stack of the first `len` cells of a slice. It pops it and does not read a cell: that one stack
/// serves all is a rule of the project.
pub(crate) fn top_of<N: Copy>(cells: &mut [N], len: usize) -> N
    requires { (0 < len) × (len ≤ length cells.old) }
    ensures value { result ≡ slice_index_or cells.old (len - 1) result }
    ensures cells { cells.new ≡ cells.old }
{
    let mut stack = Stack { cells, len };
    stack.pop().unwrap()
}
