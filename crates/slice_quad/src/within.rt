//! Whether some entry isn't zero, among those whose first bits are given.
ghost use Rattle.std.specs.Prelude.{◌≡◌, ℕ, ◌<◌, ◌≤◌, true, false, None, Some, length, slice_index_or, IfOk};
ghost use Rattle.diagram_model.specs.Functions.{bit as bit_of};
ghost use Rattle.slice_vec.specs.Slices.{StandsIn};
ghost use Rattle.slice_quad.specs.declared.coord.Coord.{Coord};
ghost use Rattle.slice_quad.specs.Fours.{nodes_of};
ghost use Rattle.slice_quad.specs.Walks.{entries_in, IsNonzeroWithin, IsZeroWithin, IsNonzeroFrom, AreZeroFrom};

use crate::four::Four;
use bit_lists::{Bits, OutOfMemory, Partial};
use diagram_ops::Diagrams;
use slice_vec::Slices;

/// Whether the integer isn't 0 at some list that agrees with `p`.
///
/// The bits are asked in turn whether they are true somewhere, up to the first that is.
fn is_somewhere(d: &Diagrams, x: &Slices, p: &Partial) -> Result<bool, OutOfMemory>
    requires stands { StandsIn d.now.store x.now }
    requires len { length p.now ≡ length d.now.store.order }
    ensures yes { IfOk result (λ b. b ≡ true → IsNonzeroWithin d.now.store p.now x.now) }
    ensures no { IfOk result (λ b. b ≡ false → IsZeroWithin d.now.store p.now x.now) }
{
    let store = d.store();
    for i in 0..x.width() {
        if store.any(x.bit(i), p)? {
            return Ok(true);
        }
    }
    Ok(false)
}

/// The first bits of a list, with the others free.
fn first_of(x: &Bits, len: u8, k: u8) -> Partial
    requires len { len ≡ length x.now }
    requires few { len ≤ 128 }
    requires within { k ≤ length x.now }
    ensures len { length result ≡ length x.now }
    ensures fixed { (i : ℕ) → i < k → slice_index_or result i None ≡ Some (bit_of x.now i) }
    ensures free { (i : ℕ) → k ≤ i → slice_index_or result i None ≡ None }
{
    let mut p = Partial::free(len);
    for i in 0..k {
        p.fix(i, Some(x.get(i)));
    }
    p
}

/// Whether some entry isn't zero, among those whose first `k` bits are those of `x`.
pub fn some_from(d: &Diagrams, q: &Four, x: &Bits, k: u8) -> Result<bool, OutOfMemory>
    requires stands { (z : Coord) → StandsIn d.now.store (nodes_of q.now z) }
    requires len { length x.now ≡ length d.now.store.order }
    requires within { k ≤ length x.now }
    ensures yes { IfOk result (λ b. b ≡ true → IsNonzeroFrom (length x.now) (entries_in d.now.store q.now) k x.now) }
    ensures no { IfOk result (λ b. b ≡ false → AreZeroFrom (length x.now) (entries_in d.now.store q.now) k x.now) }
{
    let vars = d.store().order().len();
    let p = first_of(x, vars, k);
    if is_somewhere(d, &q.a, &p)? {
        return Ok(true);
    }
    if is_somewhere(d, &q.b, &p)? {
        return Ok(true);
    }
    if is_somewhere(d, &q.c, &p)? {
        return Ok(true);
    }
    is_somewhere(d, &q.d, &p)
}
