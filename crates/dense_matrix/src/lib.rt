//! The comparison of two circuits by a list of all entries of the matrix U·V†.
#![tactic(auto)]

mod comparing;
mod matrix;
mod places;
mod step;
mod witness;

pub use comparing::{MatrixStop, compare};
