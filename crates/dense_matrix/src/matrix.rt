//! A matrix as a list of all entries.
ghost use Rattle.std.specs.Prelude.{◌≡◌, ◌<◌, ◌≤◌, ◌+◌, ◌^◌, ◌↔◌, [], ℕ, Bool, List, length, IsTrue, IsFalse, IfOk};
ghost use Rattle.ring_omega.specs.declared.quad.Quad.{Quad as Number};
ghost use Rattle.bit_lists.specs.Lists.{place_of};
ghost use Rattle.gate_set.specs.Shape.{IsOn};
ghost use Rattle.circuit_model.specs.Working.{Scaled, FitsWidth};
ghost use Rattle.comparison.specs.Scalars.{scalar_entry};
ghost use Rattle.comparison.specs.Products.{joined, raw_matrix, step_matrix, work_matrix};
ghost use Rattle.comparison.specs.Sides.{step_of};
ghost use Rattle.dense_matrix.specs.Kept.{IsMatrix};

use crate::places::{column_place, row_place};
use crate::step::write_raw;
use bit_lists::OutOfMemory;
use comparison::Side;
use gate_set::Gate;
use quad_lists::halve_shared;
use ring_omega::Quad;
use std::alloc::Global;
use std::marker::Model;
use std::mem;

const ONE: Quad = Quad {
    a: 0,
    b: 0,
    c: 0,
    d: 1,
};

/// A matrix on at most 6 qubits: its entries by row and then column, over one power of √2.
#[derive(Drop)]
pub struct DenseMatrix {
    pub qubits: u8,
    pub entries: Vec<Quad>,
    spare: Vec<Quad>,
    pub exponent: u32,
}

impl Model for DenseMatrix {
    ghost use Rattle.dense_matrix.specs.Kept.{Entries, IsKept};

    ghost Value = { Entries };

    ghost view = { λ m. record { qubits = m.qubits; entries = m.entries.items; exponent = m.exponent } };

    ghost invariant = { λ m. IsKept m.qubits m.entries.items m.spare.items };
}

impl DenseMatrix {
    /// The identity.
    pub fn identity(alloc: Global, qubits: u8) -> Result<DenseMatrix, OutOfMemory>
        requires { qubits ≤ 6 }
        ensures qubits { IfOk result (λ m. m.qubits ≡ qubits) }
        ensures entries { IfOk result (λ m. IsMatrix m (work_matrix qubits [])) }
        ensures exponent { IfOk result (λ m. m.exponent ≡ 0) }
    {
        let places = 1 << (qubits + qubits);
        let mut entries = Vec::new(alloc);
        'places: for place in 0..places {
            entries.push(scalar_entry(qubits, place, ONE))?;
        }
        Ok(DenseMatrix {
            qubits,
            entries,
            spare: vec![in alloc; Quad::ZERO; places as usize]?,
            exponent: 0,
        })
    }

    /// Multiplies by a gate's matrix from this side and halves, or answers false where a coefficient doesn't fit the width, and leaves the
    /// matrix as it was.
    pub fn multiply(&mut self, side: Side, gate: &Gate, width: u8) -> bool
        requires on { IsOn self.old.qubits gate.now }
        requires least { 2 ≤ width }
        requires greatest { width ≤ 128 }
        requires few { self.old.exponent ≤ 2000000 }
        ensures next { IsTrue result → (w : Scaled) → IsMatrix self.old w → IsMatrix self.new (step_matrix self.old.qubits w (step_of side gate.now)) }
        ensures fits { (w : Scaled) → IsMatrix self.old w → IsTrue result ↔ FitsWidth (self.old.qubits + self.old.qubits) width (raw_matrix self.old.qubits w (step_of side gate.now)).entries }
        ensures qubits { self.new.qubits ≡ self.old.qubits }
        ensures exponent { (w : Scaled) → IsMatrix self.old w → self.new.exponent ≤ self.old.exponent + 1 }
        ensures stopped { IsFalse result → self.new ≡ self.old }
    {
        if !write_raw(
            self.entries.as_slice(),
            self.spare.as_mut_slice(),
            self.qubits,
            side,
            gate,
            width,
        ) {
            return false;
        }
        let exponent = self.exponent + u32::from(gate.half_power());
        self.exponent = halve_shared(self.spare.as_mut_slice(), exponent);
        mem::swap(&mut self.entries, &mut self.spare);
        true
    }
}

/// The entry of a number times the identity at a place.
pub fn scalar_entry(qubits: u8, place: u128, q: Quad) -> Quad
    requires small { qubits ≤ 6 }
    requires in_matrix { place < 2 ^ (qubits + qubits) }
    ensures { (x : List Bool) → length x ≡ qubits + qubits → place_of x ≡ place → result ≡ joined qubits (scalar_entry q) x }
{
    if row_place(qubits, place) == column_place(qubits, place) {
        q
    } else {
        Quad::ZERO
    }
}
