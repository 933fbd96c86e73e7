//! Moves variables to the places of the order where the diagrams of given roots are least.
#![tactic(auto)]

mod all;
mod back;
mod laws;
mod least;
mod ranks;
mod shifts;
mod sift;
mod ways;

pub use all::sift_all;
pub use laws::{
    answers_lead_to_the_order, same_functions_sift_alike, sifted_places_are_unique,
    variables_sift_to_one_order,
};
pub use sift::{Sifted, sift_variable};
