//! Drafts trees by steps and prints what the calls answer: whole drafts with the cells of their tables, drafts
//! that lack tokens, and the refusals.

#![tactic(auto)]

mod entries;
mod refused;
mod trial;
mod tried;
mod whole;
mod words;

use crate::refused::{tell_begins, tell_early_turns, tell_lacks, tell_roots, tell_short_table};
use crate::whole::{tell_drafts, tell_nodes, tell_units};

fn main(rt: HostRuntime) -> anyhow::Result<()> {
    tell_drafts(&rt)?;
    tell_nodes(&rt)?;
    tell_units(&rt)?;
    tell_early_turns(&rt)?;
    tell_begins(&rt)?;
    tell_short_table(&rt)?;
    tell_lacks(&rt)?;
    tell_roots(&rt)
}
