//! Steps on a vector or matrix over diagrams, with nodes reclaimed and variables sifted where that is due or asked for.
#![tactic(auto)]

mod stepping;
mod upkeep;

pub use stepping::accept;
pub use upkeep::{Schedule, is_due, keep_up, reclaim_to, sift_to};
