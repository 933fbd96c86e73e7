//! Gates by name: those that are built in, and those that a text defines.
#![tactic(auto)]

mod builtin;
mod codes;
mod expanding;
mod gates;
mod hashing;
mod judging;
mod table;

pub use builtin::{Base, Builtin, builtin_named, turns};
pub use expanding::add_gates;
pub use gates::Gates;
pub use hashing::KeyedNames;
pub use judging::Judged;
pub use table::{Callee, Table};
