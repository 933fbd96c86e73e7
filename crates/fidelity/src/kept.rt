//! The fidelity by a kept matrix.
ghost use Rattle.std.specs.Prelude.{◌≡◌, IfOk, OnOk, IsErrOf};
ghost use Rattle.comparison.specs.Products.{work_matrix};
ghost use Rattle.fidelity.specs.Traces.{fidelity_in};
ghost use Rattle.fidelity.specs.Widths.{IsTooWide};

use crate::overlaps::overlap;
use crate::tracing::{TraceStop, trace};
use ring_omega::Weight;
use std::alloc::Global;
use unitary_update::SlicedMatrix;

/// The fidelity of two circuits, by the matrix U·V† that all steps of their comparison lead to: (A, B) and k for (A + B√2)/2^k, in lowest
/// form. `TooWide` comes exactly where the qubits and the least width of at least 2 bits that the matrix fits are together more than 63.
pub fn fidelity_in(alloc: Global, matrix: &SlicedMatrix) -> Result<(Weight, u32), TraceStop>
    ensures value { IfOk result (λ f. f ≡ fidelity_in matrix.now.qubits (work_matrix matrix.now.qubits matrix.now.steps)) }
    ensures narrow { OnOk result (¬ IsTooWide matrix.now.qubits (work_matrix matrix.now.qubits matrix.now.steps).entries) }
    ensures too_wide { IsErrOf result TraceStop.TooWide → IsTooWide matrix.now.qubits (work_matrix matrix.now.qubits matrix.now.steps).entries }
{
    let _few = matrix.accepted();
    let qubits = matrix.order().len() / 2;
    let (diagrams, quad) = matrix.parts();
    let _sound = diagrams.cached();
    match trace(alloc, diagrams, quad, qubits) {
        Ok(t) => Ok(overlap(t, matrix.exponent(), qubits)),
        Err(stop) => Err(stop),
    }
}
