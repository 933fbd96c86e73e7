//! The further controls of a gate.
ghost use Rattle.std.specs.Prelude.{◌≡◌, ◌≤◌, length};

use smallvec::SmallVec;
use std::alloc::Global;
use std::marker::Model;

/// A list of at most eight qubits, kept inline.
#[derive(Debug, PartialEq, Eq, Drop)]
pub struct Controls {
    items: SmallVec<u8, 8>,
}

impl Model for Controls {
    ghost use Rattle.std.specs.Prelude.{◌≡◌, ◌≤◌, ℕ, List, length};

    ghost Value = { List ℕ };

    ghost view = { λ q. q.items.items };

    ghost invariant = { λ q. (q.items.capacity ≡ 8) × (length q.items.items ≤ 8) };

    ghost inverse = { λ v. record { items = record { items = v; capacity = 8 } } };
}

impl Controls {
    /// It takes no memory.
    pub fn new(alloc: Global, from: &[u8]) -> Controls
        requires { length from.now ≤ 8 }
        ensures { result ≡ from.now }
    {
        Controls {
            items: SmallVec::from_slice(alloc, from).unwrap(),
        }
    }

    pub fn as_slice(&self) -> &[u8]
        ensures { result.now ≡ self.now }
    {
        self.items.as_slice()
    }

    pub fn len(&self) -> u8
        ensures value { result ≡ length self.now }
        ensures few { result ≤ 8 }
    {
        self.items.len() as u8
    }
}
