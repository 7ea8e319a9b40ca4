//! What the programs print and read: answers, damage and hex digits.

#![tactic(auto)]

pub mod answer;
pub mod bytes;
pub mod damage;
