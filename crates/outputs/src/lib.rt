//! What a command writes, and sending it: a working vector, the outcomes of a measurement with their weights or drawn, a summary, the verdict of a comparison, a fidelity.
#![tactic(auto)]

mod fidelity;
mod outcomes;
mod output;
mod shots;
mod summary;
mod verdict;
mod weighed;

pub use fidelity::send_fidelity;
pub use outcomes::send_outcomes;
pub use output::{SendStop, send_amplitudes};
pub use shots::send_shots;
pub use summary::send_summary;
pub use verdict::send_verdict;
