//! The top call: one command on the texts of a shelf, its output on a sink.
#![tactic(auto)]

mod demo;
mod eq;
mod overlaps;
mod perform;
mod prob;
mod reading;
mod sample;
mod sim;
mod simulation;
mod taking;
mod top;

pub use causes::{Cause, Ended, end};
pub use top::run;
