//! A matrix of up to 64 qubits, multiplied by gates from both sides and kept as integers over decision diagrams.
#![tactic(auto)]

mod accepted;
mod laws;
mod matrix;
mod weaving;

pub use accepted::MatrixStep;
pub use laws::{each_step_has_an_end, enough_nodes};
pub use matrix::SlicedMatrix;
