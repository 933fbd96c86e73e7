//! The first position at which the matrix differs from its corner times the identity.
ghost use Rattle.std.specs.Prelude.{◌≡◌, ℕ, ◌+◌, length, IfOk};
ghost use Rattle.slice_quad.specs.Vectors.{Stands};
ghost use Rattle.slice_quad.specs.Walks.{IsNonzeroFrom, IsLeastFrom};
ghost use Rattle.slice_quad.specs.RowsColumns.{KeepsRowEqualsColumn};
ghost use Rattle.equivalence.specs.Matrices.{matrix_in};
ghost use Rattle.equivalence.specs.Positions.{rest_at};

use crate::asking::differs_from;
use bit_lists::{Bits, OutOfMemory};
use diagram_ops::Diagrams;
use slice_quad::SliceQuad;

/// The first position at which the matrix differs: each bit is 0 where it differs at some position then.
pub fn first_differing(
    d: &Diagrams,
    q: &SliceQuad,
    qubits: u8,
    x: Bits,
) -> Result<Bits, OutOfMemory>
    requires stands { Stands d.now.store q.now }
    requires variables { length d.now.store.order ≡ qubits + qubits }
    requires kept { KeepsRowEqualsColumn qubits d.now.store q.now }
    requires len { length x ≡ qubits + qubits }
    requires some { IsNonzeroFrom (qubits + qubits) (rest_at qubits (matrix_in d.now.store q.now)) 0 x }
    ensures { IfOk result (IsLeastFrom (qubits + qubits) (rest_at qubits (matrix_in d.now.store q.now)) 0 x) }
{
    let mut at = x;
    for i in 0..x.len() {
        at.set(i, false);
        if !differs_from(d, q, qubits, &at, i + 1)? {
            at.set(i, true);
        }
    }
    Ok(at)
}
