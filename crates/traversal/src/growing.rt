ghost use Rattle.std.specs.Prelude.{◌-◌, ◌^◌, ◌<◌, ◌≤◌};
ghost use Rattle.traversal.specs.Plots.{Legal, Lies};
ghost use Rattle.traversal.specs.Units.{Standing};

use crate::plot::{Home, Plot, row_offset, section_cells};
use crate::treehash::Treehash;

/// A tree that grows in a table: where its nodes lie, and how far its treehash has come. That the table has
/// room is asked by each call. A struct that holds the lent table beside this fact was tried: the check lends
/// nothing from behind a `&mut` in a struct with a ghost field.
#[derive(Clone, Copy)]
pub(crate) struct Growing {
    pub(crate) plot: Plot,
    pub(crate) hash: Treehash,
    ghost legal: { Legal plot },
    ghost standing: { Standing plot hash },
}

impl Growing {
    /// Where a node of the tree lies.
    pub(crate) fn home(&self, height: u32, index: u32) -> Home
        requires { (height ≤ self.now.plot.top) × (index < 2 ^ (self.now.plot.top - height)) }
        ensures { Lies self.now.plot height index result }
    {
        let plot = self.plot;
        if height == plot.top {
            return Home::Root;
        }
        let row = height % plot.subtree;
        if height < plot.lowest || index >= 1 << (plot.subtree - row) {
            return Home::Stack { tail: plot.tail };
        }
        let level = (height / plot.subtree) as usize;
        Home::Subtree {
            start: plot.rows + level * section_cells(plot.subtree),
            offset: row_offset(plot.subtree, row) + index as usize,
        }
    }
}
