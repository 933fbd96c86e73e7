//! Gates with their matrices over an eighth root of unity ω, and circuits of them.
#![tactic(auto)]

mod circuit;
mod controls;
mod entry;
mod gate;
mod kind;
mod laws;
mod qubits;
mod table;

pub use circuit::Circuit;
pub use controls::Controls;
pub use entry::Entry;
pub use gate::Gate;
pub use kind::Kind;
pub use laws::{inverse_is_adjoint, matrix_is_unitary};
pub use qubits::Qubits;
