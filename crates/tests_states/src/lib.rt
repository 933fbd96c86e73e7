//! Tests of the working vector over diagrams, through public calls.
#![tactic(auto)]

#[cfg(test)]
mod event_tests;
#[cfg(test)]
mod four_tests;
#[cfg(test)]
mod limit_tests;
#[cfg(test)]
mod sift_tests;
#[cfg(test)]
mod state_tests;
#[cfg(test)]
mod tools;
