ghost use Rattle.std.specs.Prelude.{length};
ghost use Rattle.traversal.specs.Worlds.{world};
ghost use Rattle.traversal.specs.Calls.{Begun};
ghost use Rattle.session.specs.Law.{LawfulFrom};

use traversal::refusal::Refusal;
use traversal::state::Draft;
use tree::geometry::Heights;
use tree::maker::Maker;
use tree::source::Source;

/// Begins a draft, and promises what every list of calls on it comes to. It takes the parts by `&`, since
/// `Lent` would ask for more.
pub fn open<M: Maker, S: Source>(
    heights: Heights,
    table: &[M::Node],
    maker: &M,
    source: &S,
) -> Result<Draft, Refusal>
    ensures begun { Begun heights.height heights.subtree (length table.now) (S.supply source.now) result }
    ensures lawful { LawfulFrom heights.height heights.subtree (world table.now (M.meaning maker.now) (M.meter maker.now) (S.supply source.now)) result }
{
    let _ = maker;
    Draft::begin(heights, table, source)
}
