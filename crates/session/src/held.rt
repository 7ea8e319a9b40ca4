use traversal::outcome::TooEarly;
use traversal::refusal::Refusal;
use traversal::state::{Draft, Run};

/// What a session holds: a draft, and after the accepted turn a run.
pub enum Held {
    Drafting(Draft),
    Running(Run),
}

/// A call that can be made on a draft. A closure would be no plainer: `call` says that what it made is what was asked.
#[derive(Clone, Copy, Debug, PartialEq, Eq)]
pub enum Ask {
    Step(u64),
    Turn,
}

/// A call that was made, with what it answered.
#[derive(Clone, Copy, Debug, PartialEq, Eq)]
pub enum Call {
    Step {
        budget: u64,
        answer: Result<(u64, u64), Refusal>,
    },
    Turn {
        answer: Result<(), TooEarly>,
    },
}
