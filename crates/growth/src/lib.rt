//! How a complete binary tree grows node by node in the cells of a table. The definitions are in specs/ and the
//! laws in proofs/; the traversal is proved over them. The code is the stack of nodes.

#![tactic(auto)]

pub mod stack;
