//! Exact probabilities: the weights of states and of the outcomes of a measurement.
#![tactic(auto)]

mod laws;
mod next;
mod outcome;
mod weigh;

pub use laws::states_by_outcome;
pub use next::next_outcome_dense;
pub use outcome::{counted, fixed_to, measured_count};
pub use weigh::{DenseOutcomes, Weigh, WeighStop, plus, weigh_dense};
