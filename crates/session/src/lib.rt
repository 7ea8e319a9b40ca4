//! Whole sessions of calls: from legal heights to the root, with the law over every list of calls.

#![tactic(auto)]

pub mod call;
pub mod held;
pub mod open;
pub mod root;
