//! Tests of snapshots, through public calls.
#![tactic(auto)]

#[cfg(test)]
mod loading_tests;
#[cfg(test)]
mod saving_tests;
#[cfg(test)]
mod tools;
