ghost use Rattle.std.specs.Prelude.{◌≡◌, true, false, length};
ghost use Rattle.growth.specs.Order.{join_due};
ghost use Rattle.growth.specs.Places.{Room};
ghost use Rattle.traversal.specs.Plots.{layout, depth};
ghost use Rattle.traversal.specs.Worlds.{world_of, SameLoans};
ghost use Rattle.traversal.specs.Units.{Unfinished, Advanced, LeafMade, UnitMade};

use crate::fault::UnitFault;
use crate::growing::Growing;
use crate::lent::Lent;
use crate::treehash::Treehash;
use tree::maker::Maker;
use tree::source::{Source, TOKEN_LENGTH};

// Each call says that it leaves the plot, which it could change: the plot is a field, so that `Legal` and
// `Standing` need not be asked by each.
impl Growing {
    /// One unit: a join if one is due, and otherwise the leaf of the next token.
    pub(crate) fn unit<M: Maker, S: Source>(
        &mut self,
        lent: &mut Lent<M, S>,
    ) -> Result<(), UnitFault>
        requires unfinished { Unfinished self.old.plot self.old.hash }
        requires room { Room (layout self.old.plot) (depth self.old.plot) (length lent.old.table.now) }
        ensures made { UnitMade self.old.plot (world_of M.meaning M.meter S.supply lent.old) self.old.hash result (world_of M.meaning M.meter S.supply lent.new) self.new.hash }
        ensures plot { self.new.plot ≡ self.old.plot }
        ensures same_loans { SameLoans lent.old lent.new }
    {
        if self.hash.is_join_due() {
            self.join(lent);
            Ok(())
        } else {
            self.leaf(lent)
        }
    }

    /// Makes the leaf of the next token, unless that is missing.
    fn leaf<M: Maker, S: Source>(&mut self, lent: &mut Lent<M, S>) -> Result<(), UnitFault>
        requires unfinished { Unfinished self.old.plot self.old.hash }
        requires room { Room (layout self.old.plot) (depth self.old.plot) (length lent.old.table.now) }
        requires due { join_due self.old.hash.leaves self.old.hash.newest ≡ false }
        ensures made { LeafMade self.old.plot (world_of M.meaning M.meter S.supply lent.old) self.old.hash result (world_of M.meaning M.meter S.supply lent.new) self.new.hash }
        ensures plot { self.new.plot ≡ self.old.plot }
        ensures same_loans { SameLoans lent.old lent.new }
    {
        let Treehash {
            leaves,
            stacked,
            ..
        } = self.hash;
        let mut token = [0; TOKEN_LENGTH];
        lent.source.token(leaves, &mut token)?;
        let node = lent.maker.leaf(leaves, &token);
        let stacked = self.home(0, leaves).put(lent.table, stacked, node);
        self.hash = Treehash {
            leaves: leaves + 1,
            newest: 0,
            stacked,
            ..self.hash
        };
        Ok(())
    }

    /// Joins the newest node and its left sibling.
    fn join<M: Maker, S: Source>(&mut self, lent: &mut Lent<M, S>)
        requires room { Room (layout self.old.plot) (depth self.old.plot) (length lent.old.table.now) }
        requires due { join_due self.old.hash.leaves self.old.hash.newest ≡ true }
        ensures made { Advanced self.old.plot (world_of M.meaning M.meter S.supply lent.old) self.old.hash 0 1 (world_of M.meaning M.meter S.supply lent.new) self.new.hash }
        ensures plot { self.new.plot ≡ self.old.plot }
        ensures same_loans { SameLoans lent.old lent.new }
    {
        let Treehash {
            leaves,
            newest: height,
            stacked,
            ..
        } = self.hash;
        let index = (leaves - 1) >> height;
        let (right, stacked) = self.home(height, index).take(lent.table, stacked);
        let (left, stacked) = self.home(height, index - 1).take(lent.table, stacked);
        let node = lent.maker.join(left, right);
        let stacked = self
            .home(height + 1, index / 2)
            .put(lent.table, stacked, node);
        self.hash = Treehash {
            joins: self.hash.joins + 1,
            newest: height + 1,
            stacked,
            ..self.hash
        };
    }
}
