//! The fidelity of two circuits: the squared magnitude of the trace of U·V†, over 4^n.
#![tactic(auto)]

mod kept;
mod laws;
mod overlaps;
mod tracing;

pub use kept::fidelity_in;
pub use laws::fidelity_of_equals;
pub use overlaps::overlap;
pub use tracing::{TraceStop, trace};
