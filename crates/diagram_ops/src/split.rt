//! Three nodes, parted by the topmost of their variables.
ghost use Rattle.std.specs.Prelude.{◌≡◌, ◌⊎◌, ◌≤◌};
ghost use Rattle.diagram_model.specs.Stores.{IsLive, IsSound};
ghost use Rattle.diagram_ops.specs.Operands.{AreLive, IsSplit};
ghost use Rattle.diagram_ops.specs.Seen.{IsSeen, child_at};

use crate::operands::Operands;
use node_store::{Node, Store};

/// What is read of a node: its variable with the variable's place in the order, and its children.
///
/// A constant stands below all variables and is its own child.
#[derive(Clone, Copy, Drop)]
pub struct Seen {
    pub node: u32,
    pub place: u16,
    pub var: u8,
    pub low: u32,
    pub high: u32,
}

/// The place of the constants, below that of each variable.
const BOTTOM: u16 = 256;

impl Seen {
    pub fn new(store: &Store, n: u32) -> Seen
        requires sound { IsSound store.now }
        requires live { IsLive store.now n }
        ensures { IsSeen store.now n result }
    {
        match store.parts_of(Node(n)) {
            Some(parts) => Seen {
                node: n,
                place: store.place_of(parts.var) as u16,
                var: parts.var,
                low: parts.low,
                high: parts.high,
            },
            None => Seen {
                node: n,
                place: BOTTOM,
                var: 0,
                low: n,
                high: n,
            },
        }
    }

    /// The one that stands higher in the order.
    fn higher(self, other: Seen) -> Seen
        ensures one { (result ≡ self) ⊎ (result ≡ other) }
        ensures above { result.place ≤ self.place }
        ensures above_other { result.place ≤ other.place }
    {
        if self.place <= other.place {
            self
        } else {
            other
        }
    }

    /// What is left of the node once the variable at a place is fixed.
    pub fn child(self, place: u16, bit: bool) -> u32
        ensures { result ≡ child_at place bit self }
    {
        if self.place != place {
            return self.node;
        }
        if bit { self.high } else { self.low }
    }
}

/// The topmost variable of three nodes, and what is left of them once it is fixed either way.
#[derive(Clone, Copy, Drop)]
pub struct Split {
    pub var: u8,
    pub low: Operands,
    pub high: Operands,
}

impl Split {
    pub fn new(store: &Store, at: Operands) -> Split
        requires sound { IsSound store.now }
        requires live { AreLive store.now at }
        requires some { (2 ≤ at.f) ⊎ ((2 ≤ at.g) ⊎ (2 ≤ at.h)) }
        ensures { IsSplit store.now at result }
    {
        let f = Seen::new(store, at.f);
        let g = Seen::new(store, at.g);
        let h = Seen::new(store, at.h);
        let top = f.higher(g).higher(h);
        Split {
            var: top.var,
            low: Operands {
                f: f.child(top.place, false),
                g: g.child(top.place, false),
                h: h.child(top.place, false),
            },
            high: Operands {
                f: f.child(top.place, true),
                g: g.child(top.place, true),
                h: h.child(top.place, true),
            },
        }
    }
}
