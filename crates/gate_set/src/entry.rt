//! Entries of gate matrices.

/// Zero, a power of ω, at most the seventh, or √2.
#[derive(Clone, Copy, PartialEq, Eq, Debug)]
pub enum Entry {
    Zero,
    Omega(u8),
    Root2,
}
