ghost use Rattle.traversal.specs.Shapes.{draft_plot};
ghost use Rattle.traversal.specs.Units.{Standing};

use crate::outcome::Totals;
use crate::treehash::Treehash;
use tree::geometry::Shape;

/// The initialization of a fractal traversal: a treehash over all leaves, which keeps the root and the first
/// subtree of each level. It is plain numbers; the nodes lie in the caller's table. It is turned into a run
/// when it is complete, or abandoned.
pub struct Draft {
    pub(crate) shape: Shape,
    pub(crate) hash: Treehash,
    ghost standing: { Standing (draft_plot shape.height shape.subtree) hash },
}

/// An initialized fractal traversal: how far it has come, in plain numbers. It is closed at the end.
pub struct Run {
    pub(crate) shape: Shape,
    /// What it comes to up to now.
    pub(crate) totals: Totals,
}
