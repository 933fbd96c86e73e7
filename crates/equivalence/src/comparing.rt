//! The comparison of two circuits, step by step.
ghost use Rattle.std.specs.Prelude.{◌≡◌, ◌<◌, ◌≤◌, length, All, Ok, IfOk, OnOk, IfErr, OnErr};
ghost use Rattle.gate_set.specs.Circuits.{IsCircuit};
ghost use Rattle.gate_set.specs.Shape.{IsOn};
ghost use Rattle.circuit_model.specs.Product.{exponent};
ghost use Rattle.amp_dense.specs.Chains.{MayStop};
ghost use Rattle.comparison.specs.Scalars.{comparison, compared};
ghost use Rattle.comparison.specs.Sides.{step_of};
ghost use Rattle.comparison.specs.Steps.{steps_of};
ghost use Rattle.comparison.specs.Verdicts.{IsVerdict};
ghost use Rattle.unitary_update.specs.Kept.{Standing, standing_of, Steps, Multiplies};

use crate::verdict::scalar_of;
use amp_dense::{Rules, Stop};
use amp_printer::Verdict;
use comparison::{Side, Turn, left_steps, next_turn, right_steps};
use gate_set::{Circuit, Gate};
use std::alloc::Global;
use unitary_update::SlicedMatrix;

/// What is to be said of U·V† for two circuits on the same number of qubits, at most 64.
///
/// A stop numbers the steps of the comparison from 1, left and right ones together. Where three nodes a qubit are more than the rules
/// allow, it is `Nodes` with 0; at a step it is `Nodes` only where, in the order in force, the step's work functions alone need at least as
/// many as the rules allow. A step is passed only where the functions that the matrix is stored by after it need no more. What the steps cost depends on how
/// many functions the bits of the matrix share. Where the rules want sifts, the order in force changes at them.
pub fn compare(alloc: Global, u: &Circuit, v: &Circuit, rules: &Rules) -> Result<Verdict, Stop>
    requires same { u.now.qubits ≡ v.now.qubits }
    requires small { u.now.qubits ≤ 64 }
    ensures verdict { IfOk result (IsVerdict u.now.qubits (compared u.now.gates v.now.gates) (exponent (comparison u.now.gates v.now.gates))) }
    ensures comes { OnOk result ((m : Standing) × Multiplies rules.now u.now.qubits (steps_of u.now.gates v.now.gates) (Ok m)) }
    ensures stop { IfErr result (MayStop (Multiplies rules.now u.now.qubits (steps_of u.now.gates v.now.gates))) }
{
    let matrix = multiplied(alloc, u, v, rules)?;
    let (diagrams, quad) = matrix.parts();
    let verdict = scalar_of(diagrams, quad, u.qubits())?;
    Ok(verdict)
}

/// The matrix U·V† of two circuits on the same number of qubits, at most 64, after all steps of their comparison. Its stops are those of `compare`.
pub fn multiplied(
    alloc: Global,
    u: &Circuit,
    v: &Circuit,
    rules: &Rules,
) -> Result<SlicedMatrix, Stop>
    requires same { u.now.qubits ≡ v.now.qubits }
    requires small { u.now.qubits ≤ 64 }
    ensures first { IsCircuit u.now }
    ensures second { IsCircuit v.now }
    ensures qubits { IfOk result (λ m. m.qubits ≡ u.now.qubits) }
    ensures comes { IfOk result (λ m. Multiplies rules.now u.now.qubits (steps_of u.now.gates v.now.gates) (Ok (standing_of m))) }
    ensures stop { IfErr result (MayStop (Multiplies rules.now u.now.qubits (steps_of u.now.gates v.now.gates))) }
{
    stepped(alloc, u.qubits(), u.gates(), v.gates(), rules)
}

/// The matrix after all steps of the comparison of two lists of gates.
fn stepped(
    alloc: Global,
    qubits: u8,
    us: &[Gate],
    vs: &[Gate],
    rules: &Rules,
) -> Result<SlicedMatrix, Stop>
    requires small { qubits ≤ 64 }
    requires few_us { length us.now ≤ 1000000 }
    requires few_vs { length vs.now ≤ 1000000 }
    requires on_us { All (IsOn qubits) us.now }
    requires on_vs { All (IsOn qubits) vs.now }
    ensures qubits { IfOk result (λ m. m.qubits ≡ qubits) }
    ensures comes { IfOk result (λ m. Multiplies rules.now qubits (steps_of us.now vs.now) (Ok (standing_of m))) }
    ensures stop { IfErr result (MayStop (Multiplies rules.now qubits (steps_of us.now vs.now))) }
{
    let mut matrix = SlicedMatrix::identity(alloc, qubits, rules)?;
    let mut i = 0;
    let mut j = 0;
    'steps: for _step in 0..us.len() + vs.len() {
        let turn = next_turn(alloc, us, vs, i, j);
        multiply(alloc, &mut matrix, &turn)?;
        i += left_steps(turn.side);
        j += right_steps(turn.side);
    }
    Ok(matrix)
}

/// Multiplies by a gate from its side.
fn multiply(alloc: Global, matrix: &mut SlicedMatrix, turn: &Turn) -> Result<(), Stop>
    requires within { IsOn matrix.old.qubits turn.now.gate }
    requires few { length matrix.old.steps < 2000000 }
    ensures { Steps matrix.old (step_of turn.now.side turn.now.gate) result matrix.new }
{
    match turn.side {
        Side::Left => matrix.left(alloc, &turn.gate),
        Side::Right => matrix.right(alloc, &turn.gate),
    }
}
