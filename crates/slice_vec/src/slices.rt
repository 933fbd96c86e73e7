//! Lists of nodes as integers.
ghost use Rattle.std.specs.Prelude.{◌≡◌, ◌<◌, length};
ghost use Rattle.diagram_ops.specs.Cofactors.{numbers_of};
ghost use Rattle.slice_vec.specs.Slices.{bit_node};

use node_store::Node;
use std::alloc::Global;
use std::marker::Model;

/// An integer for each assignment of the variables: 1 to 131 bits, lowest first, the last one the sign.
///
/// Contracts see the numbers of the nodes.
#[derive(Drop)]
pub struct Slices {
    pub bits: Vec<Node>,
}

impl Model for Slices {
    ghost use Rattle.std.specs.Prelude.{ℕ, List, map};

    ghost Value = { List ℕ };

    ghost view = { λ a. map (λ n. n.0) a.bits.items };
}

impl Slices {
    /// How many bits there are.
    pub fn width(&self) -> usize
        ensures { result ≡ length self.now }
    {
        self.bits.len()
    }

    /// A bit's node, and beyond the last bit that of the sign.
    pub fn bit(&self, place: usize) -> Node
        requires { 0 < length self.now }
        ensures { result.0 ≡ bit_node self.now place }
    {
        let bits = &self.bits;
        if place < bits.len() {
            bits[place]
        } else {
            bits[bits.len() - 1]
        }
    }

    pub(crate) fn nodes(&self) -> &[Node]
        ensures { numbers_of result.now ≡ self.now }
    {
        &self.bits
    }

    pub(crate) fn alloc(&self) -> Global {
        *self.bits.allocator()
    }
}
