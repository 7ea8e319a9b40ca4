ghost use Rattle.std.specs.Prelude.{◌≡◌, ◌<◌, ◌≤◌, length, Some};
ghost use Rattle.traversal.specs.declared.refusal.Refusal.{Refusal as Refused};
ghost use Rattle.traversal.specs.Worlds.{world_of, SameLoans};
ghost use Rattle.traversal.specs.Calls.{units, units_in_all, unit_lacks, Begun};
ghost use Rattle.session.specs.Law.{LawfulFrom};
ghost use Rattle.session.specs.Root.{DraftsRoot, Finished};

use crate::open::open;
use traversal::lent::Lent;
use traversal::outcome::Incomplete;
use traversal::refusal::Refusal;
use traversal::state::{Draft, Run};
use tree::geometry::Heights;
use tree::maker::Maker;
use tree::source::Source;

/// Drafts a whole tree: answers its root, and the leaves and the joins made.
pub fn root<M: Maker, S: Source>(
    heights: Heights,
    lent: &mut Lent<M, S>,
) -> Result<(M::Node, (u64, u64)), Refusal>
    ensures drafted { DraftsRoot heights.height heights.subtree (world_of M.meaning M.meter S.supply lent.old) result (world_of M.meaning M.meter S.supply lent.new) }
    ensures same_loans { SameLoans lent.old lent.new }
{
    let mut draft = open_with(heights, lent)?;
    // whether it goes to the end is seen at the turn
    let _ = draft.step(lent, u64::MAX);
    match draft.turn() {
        Ok(run) => finish(run, lent),
        Err(Incomplete { draft, early: _ }) => Err(lack(draft, lent)),
    }
}

/// Opens a draft with what is lent, so that the law holds of it. Of what lies behind a `&mut` the check lends one field
/// at a time.
fn open_with<M: Maker, S: Source>(heights: Heights, lent: &Lent<M, S>) -> Result<Draft, Refusal>
    ensures begun { Begun heights.height heights.subtree (length lent.now.table.now) (S.supply lent.now.source.now) result }
    ensures lawful { LawfulFrom heights.height heights.subtree (world_of M.meaning M.meter S.supply lent.now) result }
{
    open(heights, lent.table, lent.maker, lent.source)
}

/// The root and what the draft made, of a run that is closed.
fn finish<M: Maker, S: Source>(
    run: Run,
    lent: &Lent<M, S>,
) -> Result<(M::Node, (u64, u64)), Refusal>
    ensures { Finished run lent.now.table.now result }
{
    let root = run.root(lent.table);
    let totals = run.close();
    Ok((root?, totals.drafted))
}

/// What the next unit of a draft lacks: a step is refused for it. That the table has room is asked here; no struct
/// that holds the table beside this fact is covered by the check.
fn lack<M: Maker, S: Source>(mut draft: Draft, lent: &mut Lent<M, S>) -> Refusal
    requires room { draft.shape.cells ≤ length lent.old.table.now }
    requires unfinished { units draft < units_in_all draft }
    requires lacks { (r : Refused) × (unit_lacks draft (S.supply lent.old.source.now) ≡ Some r) }
    ensures lacks { unit_lacks draft (S.supply lent.old.source.now) ≡ Some result }
    ensures keeps { world_of M.meaning M.meter S.supply lent.new ≡ world_of M.meaning M.meter S.supply lent.old }
    ensures same_loans { SameLoans lent.old lent.new }
{
    let answer = draft.step(lent, 1);
    let _ = draft.abandon();
    answer.unwrap_err()
}
