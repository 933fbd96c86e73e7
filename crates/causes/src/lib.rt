//! How a run ends, and how that is told: its cause, the exit status and the lines on err.
#![tactic(auto)]

mod cause;
mod message;

pub use cause::{Cause, Ended};
pub use message::{end, lines_of};
