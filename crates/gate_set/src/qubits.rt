//! The qubits of a gate's kind.
ghost use Rattle.std.specs.Prelude.{◌≡◌, ◌≤◌, length};

use smallvec::SmallVec;
use std::alloc::Global;
use std::marker::Model;

/// A list of at most three qubits, kept inline.
#[derive(Debug, PartialEq, Eq, Drop)]
pub struct Qubits {
    items: SmallVec<u8, 3>,
}

impl Model for Qubits {
    ghost use Rattle.std.specs.Prelude.{◌≡◌, ◌≤◌, ℕ, List, length};

    ghost Value = { List ℕ };

    ghost view = { λ q. q.items.items };

    ghost invariant = { λ q. (q.items.capacity ≡ 3) × (length q.items.items ≤ 3) };

    ghost inverse = { λ v. record { items = record { items = v; capacity = 3 } } };
}

impl Qubits {
    /// It takes no memory.
    pub fn new(alloc: Global, from: &[u8]) -> Qubits
        requires { length from.now ≤ 3 }
        ensures { result ≡ from.now }
    {
        Qubits {
            items: SmallVec::from_slice(alloc, from).unwrap(),
        }
    }

    pub fn as_slice(&self) -> &[u8]
        ensures { result.now ≡ self.now }
    {
        self.items.as_slice()
    }

    pub fn len(&self) -> u8
        ensures value { result ≡ length self.now }
        ensures few { result ≤ 3 }
    {
        self.items.len() as u8
    }
}
