//! Comparison of two circuits U and V by the matrix U·V†: when they are the same up to a scalar, in which steps the matrix is made, and what is
//! to be said of it. Definitions for contracts, their laws and lemmas, and which step is next.
#![tactic(auto)]

mod laws;
mod turns;

pub use laws::{
    both_sides, first_differing, halving_of_matrix, matrix_by_last_step, one_verdict,
    order_of_positions, order_of_steps, scalar_test, scalar_told, small_matrices, small_orders,
    working_matrix,
};
pub use turns::{Side, Turn, left_steps, next_turn, right_steps};
