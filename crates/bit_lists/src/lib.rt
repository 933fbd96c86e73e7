//! Lists of truth values in lexicographic order, and want of memory.
//!
//! A basis state is a list of bits with qubit 0 first. Lists are ordered lexicographically, 0 before 1.
#![tactic(auto)]

mod bits;
mod laws;
mod order;
mod out_of_memory;
mod partial;
mod place;

pub use bits::Bits;
pub use laws::{lists_by_place, order_by_place};
pub use order::Order;
pub use out_of_memory::OutOfMemory;
pub use partial::Partial;
pub use place::{bit_of, with_bit};
