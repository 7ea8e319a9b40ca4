//! Proof strips: written, read, and checked against the root of a tree.

#![tactic(auto)]

pub mod check;
pub mod figures;
pub mod hex;
pub mod judge;
pub mod layout;
pub mod parse;
pub mod read;
pub mod refusal;
pub mod write;
