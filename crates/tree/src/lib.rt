//! Merkle trees over one-time tokens: what makes nodes, what the full tree is, and the fold from a leaf
//! to the root.

#![tactic(auto)]

pub mod counter;
pub mod digest;
pub mod dummy;
pub mod fault;
pub mod fold;
pub mod geometry;
pub mod height;
pub mod kind;
pub mod list;
pub mod maker;
pub mod refusal;
mod row;
pub mod sealed;
pub mod seed;
pub mod source;
pub mod span;
