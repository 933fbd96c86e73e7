//! What a matrix over decision diagrams is: a scalar times the identity, or the first position at which it isn't.
#![tactic(auto)]

mod asking;
mod comparing;
mod first;
mod laws;
mod positions;
mod verdict;

pub use amp_printer::Verdict;
pub use comparing::{compare, multiplied};
pub use laws::enough_nodes;
pub use verdict::scalar_of;
