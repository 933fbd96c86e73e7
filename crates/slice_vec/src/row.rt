//! The bits of a result, in memory that is taken before the first of them.
ghost use Rattle.std.specs.Prelude.{◌≡◌, ◌<◌, ◌≤◌, ◌+◌, ◌++◌, ◌∷◌, [], IfOk, vec_len};

use crate::slices::Slices;
use bit_lists::OutOfMemory;
use node_store::Node;
use std::alloc::Global;
use std::marker::Model;

/// Bits, lowest first, with room for more.
#[derive(Drop)]
pub struct Row {
    bits: Vec<Node>,
}

impl Model for Row {
    ghost use Rattle.std.specs.Prelude.{map, ◌-◌, vec_len, vec_capacity};
    ghost use Rattle.slice_vec.specs.Row.{Reserved};

    ghost Value = { Reserved };

    ghost view = { λ a. record { nodes = map (λ n. n.0) a.bits.items; room = vec_capacity a.bits - vec_len a.bits } };
}

impl Row {
    /// No bit, and room for some.
    pub fn with_room(alloc: Global, room: usize) -> Result<Row, OutOfMemory>
        ensures { IfOk result (λ a. a ≡ record { nodes = []; room = room }) }
    {
        Ok(Row {
            bits: Vec::with_capacity(alloc, room)?,
        })
    }

    /// Adds the next bit.
    pub fn push(&mut self, node: Node)
        requires { 0 < self.old.room }
        ensures nodes { self.new.nodes ≡ self.old.nodes ++ node.0 ∷ [] }
        ensures room { self.old.room ≤ self.new.room + 1 }
    {
        self.bits.push(node).unwrap();
    }

    /// The integer of the bits.
    pub fn into_slices(self) -> Slices
        ensures { result ≡ self.nodes }
    {
        Slices { bits: self.bits }
    }
}
