//! Exact weights of the states of a vector over decision diagrams, the outcomes that a measurement of it may have, and how many states have an
//! entry that isn't zero; and the sum of the entries at which a function is true.
//!
//! No basis state is listed: sums are taken once for each different list of nodes that is met on the way down.
#![tactic(auto)]

mod asking;
mod counting;
mod descent;
mod further;
mod integer;
mod kept_sum;
mod on_top;
mod outcome;
mod outcome_walk;
mod path;
mod places;
mod summing;
mod tuple;
mod walk;
mod weighing;

pub use counting::count_nonzero;
pub use kept_sum::sum_kept;
pub use outcome::next_outcome;
pub use outcome_walk::OutcomeWalk;
pub use walk::{Walk, last_nonzero};
pub use weighing::weigh;
