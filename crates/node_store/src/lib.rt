//! The store of the nodes of shared ordered decision diagrams, each function at most once.
#![tactic(auto)]

mod differ;
mod marks;
mod node;
mod reach;
mod slots;
mod store;
mod walk;

pub use marks::Reached;
pub use node::{FALSE, Node, StoreStop, TRUE};
pub use slots::Slots;
pub use store::Store;
