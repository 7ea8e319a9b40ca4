//! Fractal Merkle tree traversal: from a source of tokens to the root, in steps that can be budgeted and
//! interrupted, on a table of nodes that the caller lends.

#![tactic(auto)]

pub mod draft;
pub mod fault;
mod growing;
pub mod lent;
pub mod outcome;
mod plot;
pub mod refusal;
pub mod run;
pub mod state;
mod tail;
mod treehash;
mod unit;
