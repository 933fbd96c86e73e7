//! OpenQASM 2.0 texts as circuits.
//!
//! A text is cut into tokens, its tokens into statements, and these are carried out one after the other.
#![tactic(auto)]

mod apply;
mod calls;
mod draft;
mod laws;
mod profile;
mod reader;
mod reason;
mod registers;
mod targets;

pub use laws::{every_text_reads, one_reading, texts_read_as_circuits};
pub use reader::read;
pub use reason::{ReadStop, Refusal, Why};
