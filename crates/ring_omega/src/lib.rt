//! Exact numbers in the ring of integer polynomials in a primitive eighth root of unity ω, and the lowest form of
//! such a number over a power of √2.
#![tactic(auto)]

mod laws;
mod lowest_form;
mod parity;
mod quad;
mod weight;

pub use laws::{
    lowest_form_is_lowest, lowest_form_is_unique, lowest_form_of_zero,
    lowest_weight_form_is_lowest, lowest_weight_is_unique, lowest_weight_of_zero,
    root_of_two_squared, weight_is_squared_magnitude,
};
pub use lowest_form::lowest;
pub use quad::Quad;
pub use weight::{Weight, lowest_weight};
