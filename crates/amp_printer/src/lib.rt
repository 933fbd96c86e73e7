//! The texts that a run writes, each as a line of fixed room. No call takes memory.
#![tactic(auto)]

mod counted;
mod entry;
mod line;
mod listing;
mod outcome;
mod verdict;

pub use counted::{Counted, count_line};
pub use entry::{entry_text, state_line};
pub use line::Line;
pub use listing::ListingLine;
pub use outcome::{fidelity_line, outcome_line, weight_line};
pub use verdict::{Verdict, verdict_text};
