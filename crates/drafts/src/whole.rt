use crate::trial::Trial;
use crate::tried::Tried;
use crate::words::Answer;
use traversal::state::Draft;
use tree::dummy::Dummy;
use tree::geometry::Heights;
use tree::sealed::Sealed;
use tree::seed::{SEED_LENGTH, SeedSource};

/// The seed of the tokens.
const SEED: [u8; SEED_LENGTH] = [7; SEED_LENGTH];

/// How many units a step may make: one, some, or all.
const BUDGETS: [u64; 3] = [1, 3, u64::MAX];

/// The heights that are drafted by each budget.
const HEIGHTS: [Heights; 4] = [
    Heights {
        height: 1,
        subtree: 1,
    },
    Heights {
        height: 4,
        subtree: 1,
    },
    Heights {
        height: 4,
        subtree: 2,
    },
    Heights {
        height: 6,
        subtree: 3,
    },
];

/// The heights whose nodes are printed after the draft, and how many cells hold them.
const NODES: [(Heights, usize); 2] = [
    (
        Heights {
            height: 4,
            subtree: 1,
        },
        9,
    ),
    (
        Heights {
            height: 4,
            subtree: 2,
        },
        13,
    ),
];

/// The heights whose table is printed after each unit.
const WATCHED: Heights = Heights {
    height: 4,
    subtree: 1,
};

/// The steps of that draft, one more than it has units.
const STEPS: u32 = 32;

/// Drafts of all heights with both makers, by each budget.
pub(crate) fn tell_drafts(rt: &HostRuntime) -> anyhow::Result<()> {
    for heights in HEIGHTS {
        for budget in BUDGETS {
            tell_draft::<Dummy>(rt, heights, budget)?;
            tell_draft::<Sealed>(rt, heights, budget)?;
        }
    }
    Ok(())
}

fn tell_draft<M: Tried>(rt: &HostRuntime, heights: Heights, budget: u64) -> anyhow::Result<()> {
    let mut trial = Trial::<M, _>::new(rt, heights, SeedSource::new(SEED))?;
    let (tally, ending) = trial.draft_whole(budget)?;
    let kind = M::KIND;
    let meter = trial.meter();
    let rest = if trial.keeps_rest() {
        "kept"
    } else {
        "changed"
    };
    println!(rt; "{kind} {heights} by {budget}: {tally}, meter {meter}, {ending}, rest {rest}")?;
    Ok(())
}

/// The nodes that a draft leaves in its table.
pub(crate) fn tell_nodes(rt: &HostRuntime) -> anyhow::Result<()> {
    for (heights, cells) in NODES {
        tell_cells::<Dummy>(rt, heights, cells)?;
        tell_cells::<Sealed>(rt, heights, cells)?;
    }
    Ok(())
}

fn tell_cells<M: Tried>(rt: &HostRuntime, heights: Heights, cells: usize) -> anyhow::Result<()> {
    let mut trial = Trial::<M, _>::new(rt, heights, SeedSource::new(SEED))?;
    let _ = trial.draft_whole(u64::MAX)?;
    for (i, node) in trial.table.iter().enumerate().take(cells) {
        println!(rt; "{} {heights} cell {i}: {}", M::KIND, trial.hex(*node)?)?;
    }
    Ok(())
}

/// The whole table after each unit of a draft.
pub(crate) fn tell_units(rt: &HostRuntime) -> anyhow::Result<()> {
    let mut trial = Trial::<Dummy, _>::new(rt, WATCHED, SeedSource::new(SEED))?;
    let mut draft = trial.begin()?;
    let told = tell_each_unit(&mut trial, &mut draft);
    let _ = draft.abandon();
    told
}

fn tell_each_unit(trial: &mut Trial<Dummy, SeedSource>, draft: &mut Draft) -> anyhow::Result<()> {
    let rt = trial.rt;
    for step in 1..=STEPS {
        let answer = Answer(trial.step(draft, 1));
        let mut cells = String::new(rt.alloc());
        for node in &trial.table {
            cells.push_str(" ")?;
            cells.push_str(&trial.hex(*node)?)?;
        }
        println!(rt; "step {step} {answer}:{cells}")?;
    }
    Ok(())
}
