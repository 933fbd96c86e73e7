//! Samples: outcomes of a measurement, drawn by the exact weights of states and by random words.
#![tactic(auto)]

mod dense;
mod drawing;
mod sign;
mod words;

pub use drawing::{Weighs, draw, draws_one};
pub use sign::below_zero;
pub use words::Words;
