ghost use Rattle.std.specs.Prelude.{◌≡◌, ◌+◌, ◌-◌, ◌^◌, ◌<◌, ◌≤◌, length};
ghost use Rattle.traversal.specs.Shapes.{draft_plot};
ghost use Rattle.traversal.specs.Worlds.{world_of, SameLoans};
ghost use Rattle.traversal.specs.Calls.{units, units_in_all, made_so_far, Begun, DraftUnit, WentOn, Stepped, Turned};

use crate::fault::DraftFault;
use crate::growing::Growing;
use crate::lent::Lent;
use crate::outcome::{Incomplete, TooEarly, Totals};
use crate::plot::{Plot, section_cells};
use crate::refusal::{Refusal, check_room};
use crate::state::{Draft, Run};
use crate::treehash::Treehash;
use tree::geometry::{Heights, Shape};
use tree::maker::Maker;
use tree::source::Source;

impl Draft {
    /// Begins the initialization of a traversal: of the tree of a height over the tokens of a source, with
    /// subtrees of another height, in a table of cells. Touches no cell.
    pub fn begin<N, S: Source>(heights: Heights, table: &[N], source: &S) -> Result<Draft, Refusal>
        ensures { Begun heights.height heights.subtree (length table.now) (S.supply source.now) result }
    {
        let shape = Shape::new(heights)?;
        check_room(table.len(), shape)?;
        let tokens = source.size();
        if tokens < 1 << heights.height {
            return Err(Refusal::Source(tokens));
        }
        Ok(Draft {
            shape,
            hash: Treehash::default(),
        })
    }

    /// Runs the treehash on: makes nodes until so many are made, the draft is complete or the next token is
    /// missing; answers the leaves and the joins that it made.
    pub fn step<M: Maker, S: Source>(
        &mut self,
        lent: &mut Lent<M, S>,
        budget: u64,
    ) -> Result<(u64, u64), Refusal>
        ensures stepped { Stepped self.old (world_of M.meaning M.meter S.supply lent.old) budget result self.new (world_of M.meaning M.meter S.supply lent.new) }
        ensures same_loans { SameLoans lent.old lent.new }
    {
        check_room(lent.table.len(), self.shape)?;
        let units = budget.min(self.missing());
        if units == 0 {
            return Ok((0, 0));
        }
        let before = self.hash;
        self.unit(lent)?;
        self.go_on(lent, units - 1);
        Ok(self.hash.since(before))
    }

    /// Ends the initialization: turns a complete draft into a run.
    pub fn turn(self) -> Result<Run, Incomplete>
        ensures { Turned self result }
    {
        let missing = self.missing();
        if missing > 0 {
            return Err(Incomplete {
                draft: self,
                early: TooEarly { missing },
            });
        }
        let Draft { shape, hash } = self;
        let totals = Totals {
            pulls: 0,
            drafted: hash.made(),
            pulled: (0, 0),
        };
        Ok(Run { shape, totals })
    }

    /// Gives a draft up; answers the leaves and the joins that it made.
    pub fn abandon(self) -> (u64, u64)
        ensures { result ≡ made_so_far self }
    {
        let Draft { shape: _, hash } = self;
        hash.made()
    }

    /// How many units are still to be made.
    fn missing(&self) -> u64
        ensures { result ≡ units_in_all self.now - units self.now }
    {
        let (leaves, joins) = self.hash.made();
        (2 << self.shape.height) - 1 - leaves - joins
    }

    /// Where the draft's nodes lie.
    fn plot(&self) -> Plot
        ensures { result ≡ draft_plot self.now.shape.height self.now.shape.subtree }
    {
        let Shape {
            height,
            subtree,
            cells: _,
        } = self.shape;
        let levels = (height / subtree) as usize;
        Plot {
            lowest: 0,
            top: height,
            subtree,
            rows: 1,
            tail: 1 + levels * section_cells(subtree),
        }
    }

    /// One unit. That the table has room is asked here and in `go_on`; why no struct holds it stands at `Growing`.
    fn unit<M: Maker, S: Source>(&mut self, lent: &mut Lent<M, S>) -> Result<(), DraftFault>
        requires room { self.old.shape.cells ≤ length lent.old.table.now }
        requires unfinished { units self.old < units_in_all self.old }
        ensures unit { DraftUnit self.old (world_of M.meaning M.meter S.supply lent.old) result self.new (world_of M.meaning M.meter S.supply lent.new) }
        ensures same_loans { SameLoans lent.old lent.new }
    {
        let mut tree = Growing {
            plot: self.plot(),
            hash: self.hash,
        };
        tree.unit(lent)?;
        self.hash = tree.hash;
        Ok(())
    }

    /// Makes so many units, unless a token is missing before.
    fn go_on<M: Maker, S: Source>(&mut self, lent: &mut Lent<M, S>, count: u64)
        requires room { self.old.shape.cells ≤ length lent.old.table.now }
        requires count { units self.old + count ≤ units_in_all self.old }
        ensures went_on { WentOn self.old (world_of M.meaning M.meter S.supply lent.old) count (self.new.hash.leaves - self.old.hash.leaves) (self.new.hash.joins - self.old.hash.joins) self.new (world_of M.meaning M.meter S.supply lent.new) }
        ensures same_loans { SameLoans lent.old lent.new }
    {
        for _ in 0..count {
            if self.unit(lent).is_err() {
                break;
            }
        }
    }
}
