//! What is to be said of a matrix: its scalar, or the first position at which it is not its corner times the identity.
ghost use Rattle.std.specs.Prelude.{◌≡◌, ◌<◌, ◌≤◌, ◌+◌, ◌++◌, ◌^◌, ◌↔◌, ℕ, Bool, List, length, IsTrue, MatchOption, IfSome};
ghost use Rattle.bit_lists.specs.Lists.{place_of};
ghost use Rattle.circuit_model.specs.Vector.{at};
ghost use Rattle.comparison.specs.Scalars.{IsScalar, IsFirstDiffering};
ghost use Rattle.comparison.specs.Products.{by_position};
ghost use Rattle.comparison.specs.Verdicts.{IsVerdict};

use crate::matrix::{DenseMatrix, scalar_entry};
use crate::places::{column_place, row_place};
use amp_printer::Verdict;
use bit_lists::Bits;
use ring_omega::{Quad, lowest};

/// What is to be said of a matrix.
pub fn verdict_of(m: &DenseMatrix) -> Verdict
    ensures { IsVerdict m.now.qubits (by_position (at m.now.entries)) m.now.exponent result }
{
    let entries = m.entries.as_slice();
    match first_differing(entries, m.qubits) {
        None => {
            let (q, k) = lowest(entries[0], m.exponent);
            Verdict::Scalar(q, k)
        }
        Some(place) => {
            let (row, col) = position(m.qubits, place);
            Verdict::Differs {
                row,
                col,
                value: lowest(entries[place], m.exponent),
                corner: lowest(entries[0], m.exponent),
            }
        }
    }
}

// The row and the column of a place.
fn position(qubits: u8, place: usize) -> (Bits, Bits)
    requires small { qubits ≤ 6 }
    requires in_matrix { place < 2 ^ (qubits + qubits) }
    ensures row { length result.0 ≡ qubits }
    ensures column { length result.1 ≡ qubits }
    ensures place { place_of (result.0 ++ result.1) ≡ place }
{
    let row = Bits::at_place(row_place(qubits, place as u128), qubits);
    let col = Bits::at_place(column_place(qubits, place as u128), qubits);
    (row, col)
}

// The place of the first entry that is not as in the corner times the identity, or None where all are.
fn first_differing(entries: &[Quad], qubits: u8) -> Option<usize>
    requires small { qubits ≤ 6 }
    requires size { length entries.now ≡ 2 ^ (qubits + qubits) }
    ensures first { MatchOption result (IsScalar qubits (by_position (at entries.now)))
        (λ place. (r c : List Bool) → length r ≡ qubits → length c ≡ qubits → place_of (r ++ c) ≡ place → IsFirstDiffering qubits (by_position (at entries.now)) r c) }
    ensures within { IfSome result (λ place. place < length entries.now) }
{
    let corner = entries[0];
    'places: for place in 0..entries.len() {
        if !is_same(entries[place], scalar_entry(qubits, place as u128, corner)) {
            return Some(place);
        }
    }
    None
}

fn is_same(p: Quad, q: Quad) -> bool
    ensures { IsTrue result ↔ p ≡ q }
{
    p == q
}
