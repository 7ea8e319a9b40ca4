use crate::entries::entries;
use crate::trial::Trial;
use crate::tried::Tried;
use crate::words::{Answer, Made};
use std::mem;
use traversal::outcome::Incomplete;
use traversal::state::Draft;
use tree::dummy::Dummy;
use tree::geometry::Heights;
use tree::list::ListSource;
use tree::sealed::Sealed;
use tree::span::Span;

/// The heights of the drafts here.
const HEIGHTS: Heights = Heights {
    height: 4,
    subtree: 2,
};

/// The tokens that a draft of these heights takes.
const TOKENS: u8 = 16;

/// The cells of the table.
const CELLS: usize = 19;

/// Which token is torn or beyond the source.
const LACKED: u8 = 5;

/// Heights, cells of the table and tokens of the source that a draft is begun with. Each row is a tuple, since rows of
/// named fields would take four lines each.
const BEGINS: [(u32, u32, usize, u8); 14] = [
    (4, 2, CELLS, TOKENS),
    (0, 1, CELLS, TOKENS),
    (21, 1, CELLS, TOKENS),
    (4, 3, CELLS, TOKENS),
    (4, 0, CELLS, TOKENS),
    (4, 11, CELLS, TOKENS),
    (21, 11, CELLS, TOKENS),
    (0, 0, 0, 0),
    (4, 3, 0, 0),
    (4, 2, CELLS - 1, TOKENS),
    (4, 2, CELLS, TOKENS - 1),
    (4, 2, CELLS - 1, TOKENS - 1),
    (4, 2, 0, 0),
    (1, 1, 3, 2),
];

/// The budgets of the steps, one after another, with a short table or without a token.
const BUDGETS: [u64; 4] = [0, u64::MAX, 1, 0];

/// After how many units a draft of 31 is turned.
const EARLY: [u64; 4] = [0, 1, 10, 30];

/// Turns that come too early, after which the draft goes on.
pub(crate) fn tell_early_turns(rt: &HostRuntime) -> anyhow::Result<()> {
    let bytes = entries(rt.alloc(), TOKENS, None)?;
    for units in EARLY {
        let source = ListSource::new(&bytes);
        let mut trial = Trial::<Dummy, _>::new(rt, HEIGHTS, source)?;
        let draft = trial.begin()?;
        tell_early_turn(&mut trial, draft, units)?;
    }
    Ok(())
}

fn tell_early_turn(
    trial: &mut Trial<Dummy, ListSource>,
    mut draft: Draft,
    units: u64,
) -> anyhow::Result<()> {
    let rt = trial.rt;
    let first = Answer(trial.step(&mut draft, units));
    match draft.turn() {
        Ok(run) => {
            let _ = run.close();
            println!(rt; "early turn: {first}, turned")?;
        }
        Err(Incomplete { mut draft, early }) => {
            let more = Answer(trial.step(&mut draft, u64::MAX));
            let ending = trial.end(draft)?;
            println!(rt; "early turn: {first}, turn {early}, {more}, {ending}")?;
        }
    }
    Ok(())
}

/// Drafts that are begun with some heights, tables and sources, and abandoned at once.
pub(crate) fn tell_begins(rt: &HostRuntime) -> anyhow::Result<()> {
    for (height, subtree, cells, tokens) in BEGINS {
        let heights = Heights { height, subtree };
        let table = vec![in rt.alloc(); Dummy::FILLER; cells]?;
        let bytes = entries(rt.alloc(), tokens, None)?;
        let begun = Draft::begin(heights, &table, &ListSource::new(&bytes));
        let answer = Answer(begun.map(|draft| draft.abandon()));
        println!(rt; "begin {heights}, {cells} cells, {tokens} tokens: {answer}")?;
    }
    Ok(())
}

/// Steps of a draft with a table that is too short, between two with one that is not.
pub(crate) fn tell_short_table(rt: &HostRuntime) -> anyhow::Result<()> {
    let bytes = entries(rt.alloc(), TOKENS, None)?;
    let short = vec![in rt.alloc(); Dummy::FILLER; CELLS - 1]?;
    let source = ListSource::new(&bytes);
    let mut trial = Trial::<Dummy, _>::with_cells(rt, HEIGHTS, source, CELLS)?;
    let mut draft = trial.begin()?;
    let told = tell_two_tables(&mut trial, &mut draft, short);
    trial.tell_end("long table", draft, told)
}

fn tell_two_tables(
    trial: &mut Trial<Dummy, ListSource>,
    draft: &mut Draft,
    short: Vec<Span>,
) -> anyhow::Result<()> {
    trial.tell_step("long table", draft, 7)?;
    let long = mem::replace(&mut trial.table, short);
    tell_steps(trial, "short table", draft)?;
    trial.table = long;
    trial.tell_step("long table", draft, 7)
}

/// Steps of drafts that lack a token.
pub(crate) fn tell_lacks(rt: &HostRuntime) -> anyhow::Result<()> {
    tell_torn(rt, "first token torn", 0)?;
    tell_torn(rt, "token torn", LACKED)?;
    let whole = entries(rt.alloc(), TOKENS, None)?;
    let short = entries(rt.alloc(), LACKED, None)?;
    tell_lack(rt, "short list", &whole, &short)
}

/// Steps of a draft over a list with a torn token.
fn tell_torn(rt: &HostRuntime, name: &str, number: u8) -> anyhow::Result<()> {
    let torn = entries(rt.alloc(), TOKENS, Some(number))?;
    tell_lack(rt, name, &torn, &torn)
}

/// Begins a draft over one list and steps it over another.
fn tell_lack<'a>(
    rt: &'a HostRuntime,
    name: &str,
    begun: &'a [u8],
    stepped: &'a [u8],
) -> anyhow::Result<()> {
    let source = ListSource::new(begun);
    let mut trial = Trial::<Dummy, _>::with_cells(rt, HEIGHTS, source, CELLS)?;
    let mut draft = trial.begin()?;
    trial.source = ListSource::new(stepped);
    let told = tell_steps(&mut trial, name, &mut draft);
    trial.tell_end(name, draft, told)
}

fn tell_steps(
    trial: &mut Trial<Dummy, ListSource>,
    name: &str,
    draft: &mut Draft,
) -> anyhow::Result<()> {
    for budget in BUDGETS {
        trial.tell_step(name, draft, budget)?;
    }
    Ok(())
}

/// Whole drafts in one call, over a list with a torn token and over one without.
pub(crate) fn tell_roots(rt: &HostRuntime) -> anyhow::Result<()> {
    for torn in [Some(LACKED), None] {
        let bytes = entries(rt.alloc(), TOKENS, torn)?;
        tell_root::<Dummy>(rt, &bytes)?;
        tell_root::<Sealed>(rt, &bytes)?;
    }
    Ok(())
}

fn tell_root<M: Tried>(rt: &HostRuntime, bytes: &[u8]) -> anyhow::Result<()> {
    let mut trial = Trial::<M, _>::new(rt, HEIGHTS, ListSource::new(bytes))?;
    let answer = match trial.root() {
        Ok((root, made)) => {
            let root = trial.hex(root)?;
            format!(in rt.alloc(); "root {root}, made {}", Made::from(made))?
        }
        Err(refusal) => format!(in rt.alloc(); "{refusal}")?,
    };
    println!(rt; "root by {}: {answer}, meter {}", M::KIND, trial.meter())?;
    Ok(())
}
