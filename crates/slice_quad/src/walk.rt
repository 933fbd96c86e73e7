//! The basis states whose entry isn't zero, one after another.
ghost use Rattle.std.specs.Prelude.{◌≡◌, ℕ, ◌+◌, ◌<◌, ◌≤◌, length, None, Some, IfOk, IfSome, IfNone};
ghost use Rattle.std.specs.Option.{option_copied, ForSome};
ghost use Rattle.slice_vec.specs.Slices.{StandsIn};
ghost use Rattle.slice_quad.specs.declared.coord.Coord.{Coord};
ghost use Rattle.slice_quad.specs.Fours.{nodes_of};
ghost use Rattle.slice_quad.specs.Vectors.{Stands};
ghost use Rattle.slice_quad.specs.Nonzero.{IsNextNonzero, NoneAfter};
ghost use Rattle.slice_quad.specs.Walks.{entries_in, IsNonzeroFrom, IsLeastFrom, IsBranch, AreZeroBeyond};

use crate::four::Four;
use crate::quad::SliceQuad;
use crate::within::some_from;
use bit_lists::{Bits, OutOfMemory};
use diagram_ops::Diagrams;

/// A list that differs from another one at `place` first, by a 1 for a 0.
#[derive(Drop)]
struct Branch {
    at: Bits,
    place: u8,
}

/// The first list whose first `k` bits are those of `x` and whose entry isn't zero: each further bit is 0
/// where some entry isn't zero then.
fn least_from(d: &Diagrams, q: &Four, x: Bits, k: u8) -> Result<Bits, OutOfMemory>
    requires stands { (z : Coord) → StandsIn d.now.store (nodes_of q.now z) }
    requires len { length x ≡ length d.now.store.order }
    requires within { k ≤ length x }
    requires some { IsNonzeroFrom (length x) (entries_in d.now.store q.now) k x }
    ensures { IfOk result (IsLeastFrom (length x) (entries_in d.now.store q.now) k x) }
{
    let mut at = x;
    for i in k..x.len() {
        at.set(i, false);
        if !some_from(d, q, &at, i + 1)? {
            at.set(i, true);
        }
    }
    Ok(at)
}

/// The last place where `x` has 0 and some entry isn't zero that shares the bits before it and has 1 there.
fn branch_of(d: &Diagrams, q: &Four, x: &Bits) -> Result<Option<Branch>, OutOfMemory>
    requires stands { (z : Coord) → StandsIn d.now.store (nodes_of q.now z) }
    requires len { length x.now ≡ length d.now.store.order }
    ensures found { IfOk result (λ b. IfSome b (IsBranch (length x.now) (entries_in d.now.store q.now) x.now)) }
    ensures none { IfOk result (λ b. IfNone b (AreZeroBeyond (length x.now) (entries_in d.now.store q.now) x.now 0)) }
{
    let len = x.len();
    for i in 0..len {
        let place = len - 1 - i;
        if !x.get(place) {
            let mut at = *x;
            at.set(place, true);
            if some_from(d, q, &at, place + 1)? {
                return Ok(Some(Branch { at, place }));
            }
        }
    }
    Ok(None)
}

/// The first list of all whose entry isn't zero.
fn first_nonzero(d: &Diagrams, q: &Four) -> Result<Option<Bits>, OutOfMemory>
    requires stands { (z : Coord) → StandsIn d.now.store (nodes_of q.now z) }
    ensures found { IfOk result (λ next. IfSome next (IsNextNonzero (length d.now.store.order) (entries_in d.now.store q.now) None)) }
    ensures none { IfOk result (λ next. IfNone next (NoneAfter (length d.now.store.order) (entries_in d.now.store q.now) None)) }
{
    let start = Bits::zeros(d.store().order().len());
    if !some_from(d, q, &start, 0)? {
        return Ok(None);
    }
    let x = least_from(d, q, start, 0)?;
    Ok(Some(x))
}

/// The first list after `x` whose entry isn't zero.
fn nonzero_after(d: &Diagrams, q: &Four, x: &Bits) -> Result<Option<Bits>, OutOfMemory>
    requires stands { (z : Coord) → StandsIn d.now.store (nodes_of q.now z) }
    requires len { length x.now ≡ length d.now.store.order }
    ensures found { IfOk result (λ next. IfSome next (IsNextNonzero (length d.now.store.order) (entries_in d.now.store q.now) (Some x.now))) }
    ensures none { IfOk result (λ next. IfNone next (NoneAfter (length d.now.store.order) (entries_in d.now.store q.now) (Some x.now))) }
{
    let Some(branch) = branch_of(d, q, x)? else {
        return Ok(None);
    };
    let y = least_from(d, q, branch.at, branch.place + 1)?;
    Ok(Some(y))
}

/// The first list after the given one, or of all, whose entry isn't zero; None where there is none.
///
/// Asks at most twice a variable whether some entry isn't zero. Each such question goes down the fixed variables
/// of each bit, and where these stand below free ones in the order it meets each node of a bit at most once.
pub fn next_nonzero(
    d: &Diagrams,
    q: &SliceQuad,
    after: Option<&Bits>,
) -> Result<Option<Bits>, OutOfMemory>
    requires stands { Stands d.now.store q.now }
    requires len { ForSome (option_copied after) (λ x. length x ≡ length d.now.store.order) }
    ensures found { IfOk result (λ next. IfSome next (IsNextNonzero (length d.now.store.order) (entries_in d.now.store q.now.four) (option_copied after.entry))) }
    ensures none { IfOk result (λ next. IfNone next (NoneAfter (length d.now.store.order) (entries_in d.now.store q.now.four) (option_copied after.entry))) }
{
    match after {
        None => first_nonzero(d, &q.four),
        Some(x) => nonzero_after(d, &q.four, x),
    }
}
