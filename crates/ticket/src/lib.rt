//! Job tickets: four lines of text that name a maker, two heights and a secret seed.

#![tactic(auto)]

pub mod job;
mod read;
mod reader;
pub mod ticket;
