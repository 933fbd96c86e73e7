//! `sim`: the nonzero amplitudes of a circuit.
ghost use Rattle.std.specs.Prelude.{◌≡◌, ◌≤◌, length, IfErr, OnOk, IsErrOf};
ghost use Rattle.outside.specs.Outside.{Rose};
ghost use Rattle.sliq_engine.specs.Sim.{Sims, input_for};
ghost use Rattle.sliq_engine.specs.Ending.{MayEnd};

use crate::reading::read_circuit;
use crate::simulation::{check_qubits, simulated};
use amp_dense::Rules;
use bit_lists::Bits;
use causes::Cause;
use outputs::send_amplitudes;
use outside::Sink;
use state_update::SlicedState;
use std::alloc::Global;

/// Carries out `sim` on the text of its file, from the basis state of these bits. Nothing is written before the last gate was applied.
pub fn sim<K: Sink>(
    alloc: Global,
    out: &mut K,
    text: &[u8],
    bits: Option<Bits>,
    rules: &Rules,
) -> Result<(), Cause>
    requires { length text.now ≤ 16777216 }
    ensures done { OnOk result (MayEnd (Sims bits rules.now text.now) Cause.Done (K.written out.old) (K.written out.new)) }
    ensures stop { IfErr result (λ cause. MayEnd (Sims bits rules.now text.now) cause (K.written out.old) (K.written out.new)) }
    ensures fault { IsErrOf result Cause.WriteFault → Rose (K.faults out.old) (K.faults out.new) }
    ensures counts { K.faults out.old ≤ K.faults out.new }
{
    let circuit = read_circuit(alloc, 1, text)?;
    let input = input_for(bits, circuit.qubits());
    check_qubits(circuit.qubits(), input.len())?;
    let state = simulated::<SlicedState>(alloc, &input, &circuit, rules)?;
    send_amplitudes(alloc, out, circuit.qubits(), &state)?;
    Ok(())
}

/// The basis state at the start.
fn input_for(bits: Option<Bits>, qubits: u8) -> Bits
    requires { qubits ≤ 64 }
    ensures { result ≡ input_for bits qubits }
{
    match bits {
        Some(input) => input,
        None => Bits::zeros(qubits),
    }
}
