//! The circuit of `demo`: its text, read. The text is one that the reader accepts, always.
#![tactic(auto)]

mod demo;
mod laws;

pub use demo::demo_circuit;
pub use laws::{demo_texts_are_never_refused, demo_texts_are_short, demo_texts_read};
