ghost use Rattle.std.specs.Prelude.{◌≡◌};
ghost use Rattle.growth.specs.Stacks.{Pushed, Popped};

/// A stack of nodes of any kind over a lent slice: its nodes are the first `len` cells, the bottom first. It is
/// no `Vec`, since the library takes no memory: the cells lie in the caller's table. Cells are read and written
/// by index: `get` and `get_mut` lend the slice on, and then the proof no longer knows what it holds.
#[derive(Drop)]
pub struct Stack<'a, N> {
    pub cells: &'a mut [N],
    pub len: usize,
}

impl<'a, N: Copy> Stack<'a, N> {
    /// Puts a node on top, or hands it back if there is no cell for it.
    pub fn push(&mut self, node: N) -> Result<(), N>
        ensures pushed { Pushed node self.old.len self.old.cells.now result self.new.len self.new.cells.now }
        ensures lent { self.new.cells.ghost_name ≡ self.old.cells.ghost_name }
    {
        if self.len >= self.cells.len() {
            return Err(node);
        }
        self.cells[self.len] = node;
        self.len += 1;
        Ok(())
    }

    /// Takes the top node off; none if the stack is empty or claims more cells than there are.
    pub fn pop(&mut self) -> Option<N>
        ensures popped { Popped self.old.len self.old.cells.now result self.new.len self.new.cells.now }
        ensures lent { self.new.cells.ghost_name ≡ self.old.cells.ghost_name }
    {
        if self.len == 0 || self.len > self.cells.len() {
            return None;
        }
        self.len -= 1;
        Some(self.cells[self.len])
    }
}
