//! Drafts the tree that the job ticket of the input asks for, and prints its root and the number of nodes
//! that the draft made; or why there is none.

#![tactic(auto)]

use session::root::root;
use std::alloc::{AllocError, Global};
use std::io::Read;
use text::bytes::node_hex;
use thiserror::Error;
use ticket::job;
use ticket::job::Job;
use ticket::ticket::read;
use traversal::lent::Lent;
use traversal::refusal;
use tree::digest::Digest;
use tree::dummy::Dummy;
use tree::kind::Kind;
use tree::maker::Maker;
use tree::sealed::Sealed;
use tree::seed::{SEED_LENGTH, SeedSource};
use tree::span::Span;

/// How many cells the table has.
const CELLS: usize = 2000;

/// Why a ticket gets no root.
#[derive(Debug, Drop, Error)]
enum Failure {
    #[error(transparent)]
    Ticket(#[from] job::Refusal),
    /// printed by its number alone
    #[error("refused {}", .0.number())]
    Traversal(#[from] refusal::Refusal),
    #[error(transparent)]
    Memory(#[from] AllocError),
}

fn main(rt: HostRuntime) -> anyhow::Result<()> {
    let mut text = Vec::new(rt.alloc());
    rt.stdin().read_to_end(&mut text)?;
    match list(rt.alloc(), &text) {
        Ok((root, units)) => println!(rt; "root {root} {units}")?,
        Err(Failure::Memory(failure)) => return Err(failure.into()),
        Err(refusal) => println!(rt; "{refusal}")?,
    }
    Ok(())
}

/// The root of the tree that a ticket asks for, in hex, and how many nodes were made.
fn list(heap: Global, text: &[u8]) -> Result<(String, u64), Failure> {
    let mut source = SeedSource::new([0; SEED_LENGTH]);
    let job = read(text, &mut [0; SEED_LENGTH], &mut source)?;
    match job.kind {
        Kind::Sealed => draft::<Sealed>(heap, job, &mut source, Digest { bytes: [0; 32] }),
        Kind::Dummy => draft::<Dummy>(heap, job, &mut source, Span::Broken),
    }
}

/// The same of a job, in a table that is full of one node before.
fn draft<M: Maker + Default + Drop>(
    heap: Global,
    job: Job,
    source: &mut SeedSource,
    filler: M::Node,
) -> Result<(String, u64), Failure> {
    let mut maker = M::default();
    let mut table = vec![in heap; filler; CELLS]?;
    let mut lent = Lent {
        table: &mut table,
        maker: &mut maker,
        source,
    };
    let (root, (leaves, joins)) = root(job.heights, &mut lent)?;
    Ok((node_hex(heap, &maker, root)?, leaves.saturating_add(joins)))
}
