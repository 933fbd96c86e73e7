//! The working vector of up to 64 qubits, kept as integers over decision diagrams.
#![tactic(auto)]

mod events;
mod laws;
mod node_upkeep;
mod sliced;
mod upkeep;
mod weighing;

pub use events::{Event, EventStop, Report};
pub use laws::{each_gate_has_an_end, enough_nodes, upkeep_keeps_entries};
pub use sliced::SlicedState;
