//! Whether the matrix differs from its corner times the identity, among the positions whose first bits are given.
ghost use Rattle.std.specs.Prelude.{◌≡◌, ℕ, ◌+◌, ◌≤◌, true, false, cond, length, IfOk};
ghost use Rattle.diagram_model.specs.Functions.{bit as bit_of};
ghost use Rattle.diagram_model.specs.Stores.{IsLive, IsSound, function_of};
ghost use Rattle.slice_vec.specs.Slices.{StandsIn};
ghost use Rattle.slice_quad.specs.Vectors.{Stands};
ghost use Rattle.slice_quad.specs.Walks.{IsNonzeroFrom, AreZeroFrom};
ghost use Rattle.slice_quad.specs.RowsColumns.{KeepsRowEqualsColumn};
ghost use Rattle.equivalence.specs.Matrices.{matrix_in};
ghost use Rattle.equivalence.specs.Positions.{rest_at, wanted, IsUnlike, AreAlike};

use crate::positions::fixed_at;
use bit_lists::{Bits, OutOfMemory, Partial};
use diagram_ops::Diagrams;
use node_store::{FALSE, Node, Store};
use slice_quad::SliceQuad;
use slice_vec::Slices;

/// What a bit is in the corner times the identity: the kept node where the bit is set in the corner, and else FALSE.
fn wanted_node(store: &Store, bit: Node, kept: Node, zeros: &Bits) -> Node
    requires live { IsLive store.now bit.0 }
    requires len { length zeros.now ≡ length store.now.order }
    ensures { result.0 ≡ wanted store.now kept.0 zeros.now bit.0 }
{
    if store.value(bit, zeros) { kept } else { FALSE }
}

/// Whether the integer differs from its value in the corner times the identity, at some list that agrees with `p`.
///
/// The bits are asked in turn, up to the first that differs. One whose node is the wanted one takes no search.
fn is_unlike(
    d: &Diagrams,
    x: &Slices,
    kept: Node,
    zeros: &Bits,
    p: &Partial,
) -> Result<bool, OutOfMemory>
    requires stands { StandsIn d.now.store x.now }
    requires kept { IsLive d.now.store kept.0 }
    requires zeros { length zeros.now ≡ length d.now.store.order }
    requires len { length p.now ≡ length d.now.store.order }
    ensures yes { IfOk result (λ b. b ≡ true → IsUnlike d.now.store kept.0 zeros.now x.now p.now) }
    ensures no { IfOk result (λ b. b ≡ false → AreAlike d.now.store kept.0 zeros.now x.now p.now) }
{
    let store = d.store();
    for i in 0..x.width() {
        let bit = x.bit(i);
        if store.differ(bit, wanted_node(store, bit, kept, zeros), p)? {
            return Ok(true);
        }
    }
    Ok(false)
}

/// Whether the matrix differs from its corner times the identity, at some position whose first `k` bits are those of `x`.
pub fn differs_from(
    d: &Diagrams,
    q: &SliceQuad,
    qubits: u8,
    x: &Bits,
    k: u8,
) -> Result<bool, OutOfMemory>
    requires stands { Stands d.now.store q.now }
    requires variables { length d.now.store.order ≡ qubits + qubits }
    requires kept { KeepsRowEqualsColumn qubits d.now.store q.now }
    requires len { length x.now ≡ qubits + qubits }
    requires within { k ≤ qubits + qubits }
    ensures yes { IfOk result (λ b. b ≡ true → IsNonzeroFrom (qubits + qubits) (rest_at qubits (matrix_in d.now.store q.now)) k x.now) }
    ensures no { IfOk result (λ b. b ≡ false → AreZeroFrom (qubits + qubits) (rest_at qubits (matrix_in d.now.store q.now)) k x.now) }
{
    let zeros = Bits::zeros(d.store().order().len());
    let p = fixed_at(x, qubits, k);
    if is_unlike(d, &q.four.a, q.kept, &zeros, &p)? {
        return Ok(true);
    }
    if is_unlike(d, &q.four.b, q.kept, &zeros, &p)? {
        return Ok(true);
    }
    if is_unlike(d, &q.four.c, q.kept, &zeros, &p)? {
        return Ok(true);
    }
    is_unlike(d, &q.four.d, q.kept, &zeros, &p)
}
