//! The steps of a matrix.
ghost use Rattle.std.specs.Prelude.{◌≤◌};
ghost use Rattle.gate_set.specs.Shape.{IsOn};
ghost use Rattle.comparison.specs.Products.{gate_of};
ghost use Rattle.unitary_update.specs.Kept.{step_in};
ghost use Rattle.unitary_update.specs.Sided.{IsSided};

use gate_set::Gate;
use slice_gates::{Side, step_of};
use slice_quad::Step;

/// A multiplication by a gate's matrix, from the left or from the right.
#[derive(Drop)]
pub enum MatrixStep {
    Left(Gate),
    Right(Gate),
}

/// The step on variables: on those of the rows from the left, and transposed on those of the columns from the right.
pub fn sided(factor: &MatrixStep, qubits: u8) -> Step
    requires few { qubits ≤ 64 }
    requires on { IsOn qubits (gate_of (step_in factor.now)) }
    ensures { IsSided qubits (step_in factor.now) result }
{
    match factor {
        MatrixStep::Left(gate) => step_of(gate, Side::Rows, 2 * qubits),
        MatrixStep::Right(gate) => step_of(gate, Side::Columns, 2 * qubits),
    }
}
