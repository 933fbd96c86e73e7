//! A snapshot that was loaded, and why none was.
use bit_lists::{Order, OutOfMemory};
use diagram_ops::Diagrams;
use slice_quad::SliceQuad;

/// A snapshot's vector, with the diagrams in which it stands.
#[derive(Drop)]
pub struct Loaded {
    pub diagrams: Diagrams,
    pub quad: SliceQuad,
    pub qubits: u8,
}

/// Why a text was not loaded.
#[derive(Clone, Copy)]
pub enum LoadStop {
    /// It is the text of no snapshot.
    Bad,
    /// It is a snapshot's text, whose width is more than the rules allow.
    Width,
    /// It is a snapshot's text, whose nodes are more than the rules allow: its order, and the limit.
    Nodes { order: Order, held: u32 },
    /// Memory was wanted and refused.
    OutOfMemory,
}
