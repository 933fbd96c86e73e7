//! `demo`: a circuit that is made of a seed, and a summary of its working vector.
ghost use Rattle.std.specs.Prelude.{◌≡◌, ◌≤◌, IfOk, IfErr, OnOk, IsErrOf, Ok};
ghost use Rattle.outside.specs.Outside.{Rose};
ghost use Rattle.demo_text.specs.Generator.{demo_text};
ghost use Rattle.sliq_engine.specs.Demo.{Demonstrates};
ghost use Rattle.sliq_engine.specs.Ending.{MayEnd};
ghost use Rattle.sliq_engine.specs.Steps.{Reads};

use crate::simulation::{simulated, zeros_of};
use amp_dense::Rules;
use causes::Cause;
use demo_reads::demo_circuit;
use gate_set::Circuit;
use outputs::send_summary;
use outside::Sink;
use state_update::SlicedState;
use std::alloc::Global;

/// Carries out `demo`: makes a circuit's text, reads it, applies its gates and writes the summary. No file is taken.
pub fn demo<K: Sink>(
    alloc: Global,
    out: &mut K,
    qubits: u8,
    gates: u32,
    seed: u64,
    rules: &Rules,
) -> Result<(), Cause>
    requires some { 1 ≤ qubits }
    requires qubits { qubits ≤ 64 }
    requires gates { gates ≤ 500000 }
    ensures done { OnOk result (MayEnd (Demonstrates rules.now qubits gates seed) Cause.Done (K.written out.old) (K.written out.new)) }
    ensures stop { IfErr result (λ cause. MayEnd (Demonstrates rules.now qubits gates seed) cause (K.written out.old) (K.written out.new)) }
    ensures fault { IsErrOf result Cause.WriteFault → Rose (K.faults out.old) (K.faults out.new) }
    ensures counts { K.faults out.old ≤ K.faults out.new }
{
    let circuit = drawn(alloc, qubits, gates, seed)?;
    let input = zeros_of(&circuit);
    let state = simulated::<SlicedState>(alloc, &input, &circuit, rules)?;
    send_summary(alloc, out, circuit.qubits(), &state)?;
    Ok(())
}

/// The circuit of these numbers, which is never refused.
fn drawn(alloc: Global, qubits: u8, gates: u32, seed: u64) -> Result<Circuit, Cause>
    requires some { 1 ≤ qubits }
    requires qubits { qubits ≤ 64 }
    requires gates { gates ≤ 500000 }
    ensures reads { IfOk result (λ c. Reads 1 (demo_text qubits gates seed) (Ok c)) }
    ensures memory { IfErr result (λ cause. cause ≡ Cause.OutOfMemory) }
{
    match demo_circuit(alloc, qubits, gates, seed) {
        Ok(circuit) => Ok(circuit),
        Err(_) => Err(Cause::OutOfMemory),
    }
}
