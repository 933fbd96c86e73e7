//! Lists of quadruples over one power of √2, with an entry for each basis state: exact sums, factors of 2 that all entries share, and the
//! places of entries. A vector and a matrix that are kept as lists stand on it.
#![tactic(auto)]

mod exact;
mod halving;
mod places;

pub use exact::{Bounds, ExactQuad, ExactSum};
pub use halving::halve_shared;
pub use places::{all_set, place_with, row_of};
