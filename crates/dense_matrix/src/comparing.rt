//! The comparison of two circuits, step by step.
ghost use Rattle.std.specs.Prelude.{◌≡◌, ◌≤◌, length, All, IfOk, OnOk, IfErr};
ghost use Rattle.gate_set.specs.Shape.{IsOn};
ghost use Rattle.circuit_model.specs.Product.{exponent};
ghost use Rattle.comparison.specs.Scalars.{comparison, compared};
ghost use Rattle.comparison.specs.Products.{work_matrix, AllStepsFit};
ghost use Rattle.comparison.specs.Steps.{steps_of};
ghost use Rattle.comparison.specs.Verdicts.{IsVerdict};
ghost use Rattle.dense_matrix.specs.Stops.{StopMeans};
ghost use Rattle.dense_matrix.specs.Kept.{IsMatrix};

use crate::matrix::DenseMatrix;
use crate::witness::verdict_of;
use amp_printer::Verdict;
use bit_lists::OutOfMemory;
use comparison::{Turn, left_steps, next_turn, right_steps};
use gate_set::{Circuit, Gate};
use std::alloc::Global;

/// Why two circuits were not compared. Steps are counted from 1, left and right ones together.
#[derive(Clone, Copy, Debug, PartialEq, Eq)]
pub enum MatrixStop {
    /// After this step a coefficient is wider than the width lets it be.
    Width { step: u32 },
    /// Memory was wanted and refused.
    OutOfMemory,
}

impl From<OutOfMemory> for MatrixStop {
    ghost use Rattle.std.specs.Prelude.{◌≡◌};
    ghost use Rattle.dense_matrix.specs.declared.comparing.MatrixStop.TheVariants.{OutOfMemory};

    ghost from_gives = { λ e stop. stop ≡ OutOfMemory };

    fn from(_: OutOfMemory) -> Self {
        MatrixStop::OutOfMemory
    }
}

/// What is to be said of U·V† for two circuits on the same number of qubits, at most 6.
///
/// It keeps two lists of 4^qubits entries, and each gate of the circuits takes the time of one of them.
pub fn compare(alloc: Global, u: &Circuit, v: &Circuit, width: u8) -> Result<Verdict, MatrixStop>
    requires same { u.now.qubits ≡ v.now.qubits }
    requires small { u.now.qubits ≤ 6 }
    requires least { 2 ≤ width }
    requires greatest { width ≤ 128 }
    ensures verdict { IfOk result (IsVerdict u.now.qubits (compared u.now.gates v.now.gates) (exponent (comparison u.now.gates v.now.gates))) }
    ensures fits { OnOk result (AllStepsFit width u.now.qubits (steps_of u.now.gates v.now.gates)) }
    ensures stop { IfErr result (StopMeans width u.now.qubits (steps_of u.now.gates v.now.gates)) }
{
    let qubits = u.qubits();
    let us = u.gates();
    let vs = v.gates();
    let matrix = multiplied(alloc, qubits, us, vs, width)?;
    Ok(verdict_of(&matrix))
}

// The working matrix after all steps of the comparison of two lists of gates.
fn multiplied(
    alloc: Global,
    qubits: u8,
    us: &[Gate],
    vs: &[Gate],
    width: u8,
) -> Result<DenseMatrix, MatrixStop>
    requires small { qubits ≤ 6 }
    requires few_us { length us.now ≤ 1000000 }
    requires few_vs { length vs.now ≤ 1000000 }
    requires on_us { All (IsOn qubits) us.now }
    requires on_vs { All (IsOn qubits) vs.now }
    requires least { 2 ≤ width }
    requires greatest { width ≤ 128 }
    ensures entries { IfOk result (λ m. IsMatrix m (work_matrix qubits (steps_of us.now vs.now))) }
    ensures qubits { IfOk result (λ m. m.qubits ≡ qubits) }
    ensures fits { OnOk result (AllStepsFit width qubits (steps_of us.now vs.now)) }
    ensures stop { IfErr result (StopMeans width qubits (steps_of us.now vs.now)) }
{
    let mut matrix = DenseMatrix::identity(alloc, qubits)?;
    let mut i = 0;
    let mut j = 0;
    'steps: for step in 0..us.len() + vs.len() {
        let Turn { side, gate } = next_turn(alloc, us, vs, i, j);
        if !matrix.multiply(side, &gate, width) {
            return Err(MatrixStop::Width {
                step: step as u32 + 1,
            });
        }
        i += left_steps(side);
        j += right_steps(side);
    }
    Ok(matrix)
}
