//! Exchanges two adjacent variables of a store in place.
//!
//! A node of the upper variable that has a child of the lower one gets other parts under its own
//! number. All other nodes stay as they are.
#![tactic(auto)]

mod level;
mod needs;
mod nodes;
mod swapping;

pub use needs::{Room, SwapStop};
pub use swapping::{room, swap, try_swap};
