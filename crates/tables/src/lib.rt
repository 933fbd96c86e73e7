//! Hash tables by open addressing for decision diagrams, and the theory of their places.
//!
//! A key stands at the place where its search begins, or after it in the circle of places, with no
//! free place between. `NodeTable` is the unique table of one variable.
#![tactic(auto)]

mod node_table;
mod probe;

pub use node_table::NodeTable;
pub use probe::{Probe, places_for};
