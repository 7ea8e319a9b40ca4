ghost use Rattle.std.specs.Prelude.{◌≡◌, ◌≤◌, ◌/◌, ◌++◌, length, drop};
ghost use Rattle.tree.specs.Path.{path_nodes};
ghost use Rattle.strip.specs.Calls.{ReadsStrip, SpellsBack};

use crate::parse::{Strip, parse};
use crate::refusal::Refusal;
use tree::fault::TooShort;
use tree::fold::front_node;
use tree::maker::Maker;

/// Takes a strip apart and fills the first cells with the nodes of its path.
pub fn read<'a, M: Maker>(
    maker: &M,
    bytes: &'a [u8],
    cells: &mut [M::Node],
) -> Result<Strip<'a>, Refusal>
    ensures answer { ReadsStrip (M.meaning maker.now) bytes.now cells.old cells.new result }
    ensures spells_back { SpellsBack (M.meaning maker.now) bytes.now cells.new result }
{
    let strip = parse(maker, bytes)?;
    let height = strip.height as usize;
    // a test of the length: `fill` takes the cells whole, since the contract tells of those past the nodes, too
    if cells.len() < height {
        return Err(TooShort { needed: height }.into());
    }
    fill(maker, strip.path, cells);
    Ok(strip)
}

/// Fills the first cells with the nodes of a path. The cells are numbered and not zipped with the path, since
/// nothing is known of what a `zip` with an `iter_mut` wrote.
fn fill<M: Maker>(maker: &M, path: &[u8], cells: &mut [M::Node])
    requires nodes { length (path_nodes (M.meaning maker.now) path.now) ≡ length path.now / (M.meaning maker.now).width }
    requires room { length (path_nodes (M.meaning maker.now) path.now) ≤ length cells.old }
    ensures { cells.new ≡ path_nodes (M.meaning maker.now) path.now ++ drop (length (path_nodes (M.meaning maker.now) path.now)) cells.old }
{
    for (i, bytes) in path.chunks_exact(maker.width()).enumerate() {
        cells[i] = front_node(maker, bytes).unwrap();
    }
}
