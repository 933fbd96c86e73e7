//! Integers whose bits are Boolean functions in a shared decision diagram.
//!
//! A `Slices` gives an integer for each assignment of the variables: its bits at the assignment, lowest
//! first, in two's complement. Sums, negations and choices work on all assignments at once.
#![tactic(auto)]

mod choice;
mod cofactors;
mod exchange;
mod merging;
mod negation;
mod parity;
mod place;
mod reading;
mod row;
mod shape;
mod slices;
mod sum;

pub use choice::select;
pub use cofactors::fix;
pub use exchange::flip_where;
pub use merging::select_fixed;
pub use negation::negate_where;
pub use parity::{all_even, halve};
pub use reading::value_at;
pub use shape::{fits, trim, zero};
pub use slices::Slices;
pub use sum::add;
