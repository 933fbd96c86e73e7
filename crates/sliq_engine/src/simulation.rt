//! The gates of a circuit, applied to a basis state.
ghost use Rattle.std.specs.Prelude.{◌≡◌, ◌≤◌, length, IfOk, IfErr, OnOk, Ok};
ghost use Rattle.sliq_engine.specs.Steps.{SameQubits, Simulates, zeros};
ghost use Rattle.sliq_engine.specs.Ending.{MayStopBy};

use amp_dense::{Amplitudes, Rules};
use bit_lists::Bits;
use causes::Cause;
use gate_set::Circuit;
use std::alloc::Global;

/// Stops where two numbers of qubits differ.
pub fn check_qubits(first: u8, second: u8) -> Result<(), Cause>
    ensures same { OnOk result (first ≡ second) }
    ensures stop { IfErr result (MayStopBy (SameQubits first second)) }
{
    if first != second {
        return Err(Cause::QubitsDiffer { first, second });
    }
    Ok(())
}

/// The basis state of all zeros that the circuit begins with.
pub fn zeros_of(circuit: &Circuit) -> Bits
    ensures { result ≡ zeros circuit.now.qubits }
{
    Bits::zeros(circuit.qubits())
}

/// The working vector after the last gate.
pub fn simulated<A: Amplitudes + Drop>(
    alloc: Global,
    input: &Bits,
    circuit: &Circuit,
    rules: &Rules,
) -> Result<A, Cause>
    requires size { length input.now ≡ circuit.now.qubits }
    requires few { length input.now ≤ A.MOST }
    ensures simulates { IfOk result (λ s. Simulates A.policy rules.now input.now circuit.now.gates (Ok (A.standing s))) }
    ensures stop { IfErr result (MayStopBy (Simulates A.policy rules.now input.now circuit.now.gates)) }
{
    let mut state = A::start(alloc, input, rules)?;
    'gates: for gate in circuit.gates() {
        state.apply(alloc, gate)?;
    }
    Ok(state)
}
