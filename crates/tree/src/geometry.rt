ghost use Rattle.std.specs.Prelude.{◌≡◌, true, Some};
ghost use Rattle.tree.specs.Numbers.{legal_height};
ghost use Rattle.tree.specs.Geometry.{legal_subtree, table_size, Shaped, Sizes};

use crate::height::is_height;
use crate::refusal::Refusal;
use std::fmt;

/// The greatest height of a subtree.
const GREATEST: u32 = 10;

/// The height of a tree and that of the subtrees of a traversal. Nothing is true of them yet: there may be no such
/// tree, and the tree may have no such subtrees.
#[derive(Clone, Copy, Debug, PartialEq, Eq)]
pub struct Heights {
    pub height: u32,
    pub subtree: u32,
}

// As the programs print them.
impl fmt::Display for Heights {
    ghost use Rattle.tree.specs.Shapes.{heights_text};

    ghost output = { λ heights. Some (heights_text heights) };

    fn fmt<W: fmt::Write>(&self, f: &mut fmt::Formatter<W>) -> fmt::Result {
        write!(f, "{} {}", self.height, self.subtree)
    }
}

/// Whether a tree of this height has subtrees of that height.
pub fn is_subtree(heights: Heights) -> bool
    ensures { result ≡ legal_subtree heights.height heights.subtree }
{
    let Heights { height, subtree } = heights;
    (1..=GREATEST).contains(&subtree) && height % subtree == 0
}

/// The shape of a traversal: the height of its tree, that of its subtrees, and how many cells its table has. The two
/// heights stand in it one by one, since its clauses are read more often than it is built.
#[derive(Clone, Copy)]
pub struct Shape {
    pub height: u32,
    pub subtree: u32,
    pub cells: usize,
    ghost shaped: { Shaped height subtree cells },
}

impl Shape {
    ghost use Rattle.tree.specs.Shapes.{Shapes};

    /// The shape for two heights.
    pub fn new(heights: Heights) -> Result<Shape, Refusal>
        ensures { Shapes heights.height heights.subtree result }
    {
        let cells = size(heights)?;
        let Heights { height, subtree } = heights;
        Ok(Shape {
            height,
            subtree,
            cells,
        })
    }
}

/// How many cells the table of a traversal has. It judges the heights, for all that ask.
pub fn size(heights: Heights) -> Result<usize, Refusal>
    ensures { Sizes heights.height heights.subtree result }
{
    let Heights { height, subtree } = heights;
    if !is_height(height) {
        return Err(Refusal::Height(height));
    }
    if !is_subtree(heights) {
        return Err(Refusal::Subtree(subtree));
    }
    Ok(cells(heights))
}

/// The same for heights that are in order.
fn cells(heights: Heights) -> usize
    requires height { legal_height heights.height ≡ true }
    requires subtree { legal_subtree heights.height heights.subtree ≡ true }
    ensures { result ≡ table_size heights.height heights.subtree }
{
    let levels = (heights.height / heights.subtree) as usize;
    let subtree = heights.subtree as usize;
    let section = (2 << subtree) - 2;
    let before_tails = 1 + (2 * levels - 1) * section;
    if levels >= 2 {
        before_tails + (levels - 2) + subtree * ((levels - 1) * (levels - 2) / 2)
    } else {
        before_tails
    }
}
