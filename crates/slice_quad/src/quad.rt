//! A vector or a matrix over a power of √2.
ghost use Rattle.std.specs.Prelude.{◌≡◌, ◌≤◌, length};

use crate::four::Four;
use node_store::Node;

/// A vector or a matrix over a power of √2: four integers of one width for each assignment of the
/// variables, and one more function that is kept beside them.
#[derive(Drop)]
pub struct SliceQuad {
    pub four: Four,
    /// The power of √2 that all entries stand over.
    pub exponent: u32,
    pub kept: Node,
    pub ghost least: { 2 ≤ length four.a },
    pub ghost greatest: { length four.a ≤ 128 },
    pub ghost width_b: { length four.b ≡ length four.a },
    pub ghost width_c: { length four.c ≡ length four.a },
    pub ghost width_d: { length four.d ≡ length four.a },
}
