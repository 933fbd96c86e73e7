//! `sample`: outcomes of a circuit's measurement, drawn by random words.
ghost use Rattle.std.specs.Prelude.{◌≡◌, ◌≤◌, length, IfErr, OnOk, IsErrOf};
ghost use Rattle.outside.specs.Outside.{Rose};
ghost use Rattle.causes.specs.declared.cause.Cause.TheVariants.{SampleTooWide};
ghost use Rattle.phases.specs.Phases.{StopsWhere};
ghost use Rattle.amp_dense.specs.Standing.{vector};
ghost use Rattle.sliq_engine.specs.Sample.{IsTooHeavyToDraw, Samples};
ghost use Rattle.sliq_engine.specs.Ending.{MayEnd, MayStopBy};

use crate::reading::read_circuit;
use crate::simulation::{simulated, zeros_of};
use amp_dense::Rules;
use bit_lists::Partial;
use causes::Cause;
use outputs::send_shots;
use outside::Sink;
use probabilities::{Weigh, WeighStop, counted};
use state_update::SlicedState;
use std::alloc::Global;

/// Carries out `sample` on the text of its file. Nothing is written before the last gate was applied and all states were weighed.
pub fn sample<K: Sink>(
    alloc: Global,
    out: &mut K,
    text: &[u8],
    shots: u32,
    seed: u64,
    rules: &Rules,
) -> Result<(), Cause>
    requires text { length text.now ≤ 16777216 }
    requires shots { shots ≤ 1000000 }
    ensures done { OnOk result (MayEnd (Samples shots seed rules.now text.now) Cause.Done (K.written out.old) (K.written out.new)) }
    ensures stop { IfErr result (λ cause. MayEnd (Samples shots seed rules.now text.now) cause (K.written out.old) (K.written out.new)) }
    ensures fault { IsErrOf result Cause.WriteFault → Rose (K.faults out.old) (K.faults out.new) }
    ensures counts { K.faults out.old ≤ K.faults out.new }
{
    let circuit = read_circuit(alloc, 1, text)?;
    let input = zeros_of(&circuit);
    let state = simulated::<SlicedState>(alloc, &input, &circuit, rules)?;
    check_draws(alloc, circuit.qubits(), &state)?;
    let measured = counted(circuit.measured());
    send_shots(alloc, out, &measured, &state, shots, seed)?;
    Ok(())
}

// Stops where all states together weigh 2^60 or more.
fn check_draws<A: Weigh>(alloc: Global, qubits: u8, state: &A) -> Result<(), Cause>
    requires few { qubits ≤ 64 }
    requires size { length (A.standing state.now).input ≡ qubits }
    ensures light { OnOk result (¬ IsTooHeavyToDraw qubits (vector (A.standing state.now)).entries) }
    ensures stop { IfErr result (MayStopBy (StopsWhere (IsTooHeavyToDraw qubits (vector (A.standing state.now)).entries) SampleTooWide)) }
{
    let all = Partial::free(qubits);
    match state.weigh(alloc, &all) {
        Ok(w) => {
            if w.a < 1 << 60 {
                Ok(())
            } else {
                Err(Cause::SampleTooWide)
            }
        }
        Err(WeighStop::TooWide) => Err(Cause::SampleTooWide),
        Err(WeighStop::OutOfMemory) => Err(Cause::OutOfMemory),
    }
}
