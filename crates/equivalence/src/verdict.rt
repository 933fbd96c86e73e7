//! What is to be said of a matrix.
ghost use Rattle.std.specs.Prelude.{◌≡◌, ℕ, ◌+◌, ◌≤◌, length, take, drop, IfOk};
ghost use Rattle.ring_omega.specs.Lowest.{lowest_form};
ghost use Rattle.comparison.specs.Scalars.{corner, IsFirstDiffering};
ghost use Rattle.comparison.specs.Verdicts.{IsVerdict};
ghost use Rattle.slice_quad.specs.Vectors.{Stands};
ghost use Rattle.slice_quad.specs.RowsColumns.{KeepsRowEqualsColumn};
ghost use Rattle.equivalence.specs.Matrices.{matrix_in};

use crate::asking::differs_from;
use crate::first::first_differing;
use crate::positions::{column_of, row_of, values_at};
use amp_printer::Verdict;
use bit_lists::{Bits, OutOfMemory};
use diagram_ops::Diagrams;
use ring_omega::{Quad, lowest};
use slice_quad::{SliceQuad, entry};

/// What is to be said of a matrix on `qubits` qubits: its corner, where it is that times the identity, or the first position at which it
/// isn't, by the row and then the column, with the entry there and the corner.
///
/// The matrix has a row variable and a column variable for each qubit, in turns, and its kept function is "row equals column". Whether it
/// is a scalar is told by the nodes of its bits alone. The first position takes at most 2·qubits questions more, each of which meets a
/// pair of a bit's node and a node of the kept function at most once.
pub fn scalar_of(d: &Diagrams, q: &SliceQuad, qubits: u8) -> Result<Verdict, OutOfMemory>
    requires stands { Stands d.now.store q.now }
    requires variables { length d.now.store.order ≡ qubits + qubits }
    requires kept { KeepsRowEqualsColumn qubits d.now.store q.now }
    ensures { IfOk result (IsVerdict qubits (matrix_in d.now.store q.now) q.now.exponent) }
{
    let zeros = Bits::zeros(d.store().order().len());
    let corner = lowest(entry(d, q, &zeros), q.exponent);
    if !differs_from(d, q, qubits, &zeros, 0)? {
        return Ok(Verdict::Scalar(corner.0, corner.1));
    }
    let first = first_differing(d, q, qubits, zeros)?;
    Ok(difference_at(d, q, qubits, &first, corner))
}

/// What is to be said of a matrix that differs at this position first.
fn difference_at(d: &Diagrams, q: &SliceQuad, qubits: u8, at: &Bits, own: (Quad, u32)) -> Verdict
    requires stands { Stands d.now.store q.now }
    requires variables { length d.now.store.order ≡ qubits + qubits }
    requires first { IsFirstDiffering qubits (matrix_in d.now.store q.now) (take qubits at.now) (drop qubits at.now) }
    requires len { length at.now ≡ qubits + qubits }
    requires own { own ≡ lowest_form (corner qubits (matrix_in d.now.store q.now)) q.now.exponent }
    ensures { IsVerdict qubits (matrix_in d.now.store q.now) q.now.exponent result }
{
    let _order = d.store().order().len();
    Verdict::Differs {
        row: row_of(at, qubits),
        col: column_of(at, qubits),
        value: lowest(entry(d, q, &values_at(at, qubits)), q.exponent),
        corner: own,
    }
}
