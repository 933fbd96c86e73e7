//! `fidelity`: how near two circuits are to being the same up to a scalar.
ghost use Rattle.std.specs.Prelude.{◌≡◌, ◌≤◌, length, IfOk, IfErr, OnOk, IsErrOf};
ghost use Rattle.outside.specs.Outside.{Rose};
ghost use Rattle.causes.specs.declared.cause.Cause.TheVariants.{FidelityTooWide};
ghost use Rattle.comparison.specs.Products.{work_matrix};
ghost use Rattle.fidelity.specs.Traces.{fidelity_in};
ghost use Rattle.fidelity.specs.Widths.{IsTooWide};
ghost use Rattle.phases.specs.Phases.{StopsWhere};
ghost use Rattle.sliq_engine.specs.Fidelity.{Overlaps};
ghost use Rattle.sliq_engine.specs.Ending.{MayEnd, MayStopBy};

use crate::reading::read_circuit;
use crate::simulation::check_qubits;
use amp_dense::Rules;
use causes::Cause;
use equivalence::multiplied;
use fidelity::{TraceStop, fidelity_in};
use outputs::send_fidelity;
use outside::Sink;
use ring_omega::Weight;
use std::alloc::Global;
use unitary_update::SlicedMatrix;

/// Carries out `fidelity` on the texts of its files. Nothing is written before the trace was taken.
pub fn overlaps<K: Sink>(
    alloc: Global,
    out: &mut K,
    one: &[u8],
    two: &[u8],
    rules: &Rules,
) -> Result<(), Cause>
    requires first { length one.now ≤ 16777216 }
    requires second { length two.now ≤ 16777216 }
    ensures done { OnOk result (MayEnd (Overlaps rules.now one.now two.now) Cause.Done (K.written out.old) (K.written out.new)) }
    ensures stop { IfErr result (λ cause. MayEnd (Overlaps rules.now one.now two.now) cause (K.written out.old) (K.written out.new)) }
    ensures fault { IsErrOf result Cause.WriteFault → Rose (K.faults out.old) (K.faults out.new) }
    ensures counts { K.faults out.old ≤ K.faults out.new }
{
    let u = read_circuit(alloc, 1, one)?;
    let v = read_circuit(alloc, 2, two)?;
    check_qubits(u.qubits(), v.qubits())?;
    let matrix = multiplied(alloc, &u, &v, rules)?;
    let overlap = fidelity_by(alloc, &matrix)?;
    send_fidelity(out, overlap.0, overlap.1)?;
    Ok(())
}

// The fidelity by the matrix of the comparison.
fn fidelity_by(alloc: Global, matrix: &SlicedMatrix) -> Result<(Weight, u32), Cause>
    ensures value { IfOk result (λ f. f ≡ fidelity_in matrix.now.qubits (work_matrix matrix.now.qubits matrix.now.steps)) }
    ensures narrow { OnOk result (¬ IsTooWide matrix.now.qubits (work_matrix matrix.now.qubits matrix.now.steps).entries) }
    ensures stop { IfErr result (MayStopBy (StopsWhere (IsTooWide matrix.now.qubits (work_matrix matrix.now.qubits matrix.now.steps).entries) FidelityTooWide)) }
{
    match fidelity_in(alloc, matrix) {
        Ok(fidelity) => Ok(fidelity),
        Err(TraceStop::TooWide) => Err(Cause::FidelityTooWide),
        Err(TraceStop::OutOfMemory) => Err(Cause::OutOfMemory),
    }
}
