//! The theory of ordered decision diagrams: what nodes denote, canonicity, and sizes.
//!
//! Definitions stand in `specs/`, lemmas for the crates above in `proofs/`. A node is a number: 0 is
//! the constant false, 1 the constant true, and the others are held with a variable and two children.
#![tactic(auto)]

mod laws;
mod parts;

pub use laws::{
    growth_keeps_functions, joint_size_counts_triples, node_meaning, nodes_are_canonical,
    size_counts_functions, size_is_bounded,
};
pub use parts::Parts;
