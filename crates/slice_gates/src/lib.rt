//! What gates on qubits have to do with steps on variables.
//!
//! A state has a variable for each qubit. A matrix has two, one for the rows and one for the columns, in turns.
#![tactic(auto)]

mod side;
mod step;
mod stepping;

pub use side::Side;
pub use step::step_of;
pub use stepping::gate_step;
