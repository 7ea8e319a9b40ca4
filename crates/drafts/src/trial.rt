use crate::tried::Tried;
use crate::words::{Answer, Ending, Made, Tally};
use session::root::root;
use std::alloc::AllocError;
use text::bytes::node_hex;
use traversal::lent::Lent;
use traversal::outcome::Incomplete;
use traversal::refusal::Refusal;
use traversal::state::Draft;
use tree::geometry::{Heights, size};
use tree::maker::Maker;
use tree::source::Source;

/// How many cells a table has past those that its heights need.
const MORE: usize = 2;

/// More steps than any draft here takes.
const STEPS: u64 = 1000;

/// What a draft is tried with: the heights that it is begun with, what is lent to its calls, and where its lines
/// go.
#[derive(Drop)]
pub struct Trial<'a, M: Tried, S: Source + Drop> {
    pub rt: &'a HostRuntime,
    pub heights: Heights,
    pub table: Vec<M::Node>,
    pub maker: M,
    pub source: S,
}

impl<'a, M: Tried, S: Source + Drop> Trial<'a, M, S> {
    /// A trial with a new maker and a table that has some cells more than it needs.
    pub(crate) fn new(
        rt: &'a HostRuntime,
        heights: Heights,
        source: S,
    ) -> anyhow::Result<Trial<'a, M, S>> {
        let cells = needed(heights).saturating_add(MORE);
        Trial::with_cells(rt, heights, source, cells)
    }

    /// The same with a table of so many cells.
    pub(crate) fn with_cells(
        rt: &'a HostRuntime,
        heights: Heights,
        source: S,
        cells: usize,
    ) -> anyhow::Result<Trial<'a, M, S>> {
        Ok(Trial {
            rt,
            heights,
            table: vec![in rt.alloc(); M::FILLER; cells]?,
            maker: M::default(),
            source,
        })
    }

    pub(crate) fn begin(&self) -> Result<Draft, Refusal> {
        Draft::begin(self.heights, &self.table, &self.source)
    }

    pub(crate) fn step(&mut self, draft: &mut Draft, budget: u64) -> Result<(u64, u64), Refusal> {
        draft.step(&mut self.lent(), budget)
    }

    /// The root of a whole draft in one call, and the leaves and the joins made.
    pub(crate) fn root(&mut self) -> Result<(M::Node, (u64, u64)), Refusal> {
        root(self.heights, &mut self.lent())
    }

    /// Steps a draft until a step makes nothing.
    pub(crate) fn step_to_end(&mut self, draft: &mut Draft, budget: u64) -> Result<Tally, Refusal> {
        let mut tally = Tally::default();
        // a loop has to end, so the steps are bounded
        for _ in 0..STEPS {
            let (leaves, joins) = self.step(draft, budget)?;
            if leaves == 0 && joins == 0 {
                break;
            }
            tally.add(leaves, joins);
        }
        Ok(tally)
    }

    /// Turns a draft and closes the run; or abandons the draft, if it cannot be turned.
    pub(crate) fn end(&self, draft: Draft) -> Result<Ending, AllocError> {
        match draft.turn() {
            Ok(run) => {
                let root = run.root(&self.table);
                let totals = run.close();
                match root {
                    Ok(root) => Ok(Ending::Closed {
                        root: self.hex(root)?,
                        totals,
                    }),
                    Err(refusal) => Ok(Ending::Rootless(refusal)),
                }
            }
            Err(Incomplete { draft, early }) => Ok(Ending::Abandoned {
                early,
                made: draft.abandon().into(),
            }),
        }
    }

    /// Drafts a tree by steps of one budget.
    pub(crate) fn draft_whole(&mut self, budget: u64) -> anyhow::Result<(Tally, Ending)> {
        let mut draft = self.begin()?;
        let tally = self.step_to_end(&mut draft, budget);
        let ending = self.end(draft)?;
        Ok((tally?, ending))
    }

    /// The leaves and the joins that the maker has made.
    pub(crate) fn meter(&self) -> Made {
        self.maker.made().into()
    }

    /// A node in hex.
    pub(crate) fn hex(&self, node: M::Node) -> Result<String, AllocError> {
        node_hex(self.rt.alloc(), &self.maker, node)
    }

    /// Whether the cells past those that the heights need hold what they held before.
    pub(crate) fn keeps_rest(&self) -> bool {
        self.table
            .iter()
            .skip(needed(self.heights))
            .all(|node| self.maker.same(*node, M::FILLER))
    }

    pub(crate) fn tell_step(
        &mut self,
        name: &str,
        draft: &mut Draft,
        budget: u64,
    ) -> anyhow::Result<()> {
        let answer = Answer(self.step(draft, budget));
        println!(self.rt; "{name}, budget {budget}: {answer}, meter {}", self.meter())?;
        Ok(())
    }

    /// Ends a draft and tells what became of it, if its steps could be told. It ends it either way, since no draft
    /// may be let go.
    pub(crate) fn tell_end(
        &self,
        name: &str,
        draft: Draft,
        told: anyhow::Result<()>,
    ) -> anyhow::Result<()> {
        let ending = self.end(draft);
        told?;
        println!(self.rt; "{name}: {}", ending?)?;
        Ok(())
    }

    /// What is lent to a call.
    fn lent(&mut self) -> Lent<'_, '_, '_, M, S> {
        Lent {
            table: &mut self.table,
            maker: &mut self.maker,
            source: &mut self.source,
        }
    }
}

/// How many cells the table has at least; none for heights that are refused.
fn needed(heights: Heights) -> usize {
    size(heights).unwrap_or(0)
}
