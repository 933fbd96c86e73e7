//! What an answer is kept under.

/// A connective by its table, and the numbers of its three nodes.
#[derive(Clone, Copy, Debug, PartialEq, Eq, Hash, Drop)]
pub struct Key {
    pub table: u8,
    pub f: u32,
    pub g: u32,
    pub h: u32,
}
