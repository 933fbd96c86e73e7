//! Operations on the functions of a store: connectives of three functions by a table, cofactors, and exchange in place.
//!
//! `Diagrams` holds a store with the cache of its connectives, and is what the crates above call.
#![tactic(auto)]

mod connect;
mod diagrams;
mod flipped;
mod node_memo;
mod operands;
mod restrict;
mod short;
mod split;

pub use diagrams::Diagrams;
