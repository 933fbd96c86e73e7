//! Nodes by number, and why a node is refused.
use bit_lists::OutOfMemory;

/// A node of a store, by its number. Only the store that gave it out knows its meaning.
#[derive(Clone, Copy, Debug, PartialEq, Eq, Hash, Drop)]
pub struct Node(pub u32);

/// The constant false.
pub const FALSE: Node = Node(0);

/// The constant true.
pub const TRUE: Node = Node(1);

/// Why no node was made.
#[derive(Clone, Copy, Debug, PartialEq, Eq, Drop)]
pub enum StoreStop {
    /// The store holds as many nodes as its limit lets it.
    Full { held: u32 },
    /// Memory was wanted and refused.
    OutOfMemory,
}

impl From<OutOfMemory> for StoreStop {
    ghost use Rattle.std.specs.Prelude.{◌≡◌};
    ghost use Rattle.node_store.specs.declared.node.StoreStop.TheVariants as stops;

    ghost from_gives = { λ _ stop. stop ≡ stops.OutOfMemory };

    fn from(_: OutOfMemory) -> Self {
        StoreStop::OutOfMemory
    }
}
