//! Tests of matrices over decision diagrams and of comparisons of circuits, through public calls.
#![tactic(auto)]

#[cfg(test)]
mod equivalence_tests;
#[cfg(test)]
mod products;
#[cfg(test)]
mod tools;
#[cfg(test)]
mod unitary_tests;
