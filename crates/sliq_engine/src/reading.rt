//! The text of a file, read as a circuit.
ghost use Rattle.std.specs.Prelude.{◌≤◌, length, IfOk, IfErr, Ok};
ghost use Rattle.sliq_engine.specs.Steps.{Reads};
ghost use Rattle.sliq_engine.specs.Ending.{MayStopBy};

use causes::Cause;
use gate_set::Circuit;
use qasm_reader::{ReadStop, read};
use std::alloc::Global;

/// The most qubits of a circuit.
const QUBITS: u8 = 64;

/// The circuit of the text of the file of this number.
pub fn read_circuit(alloc: Global, file: u8, text: &[u8]) -> Result<Circuit, Cause>
    requires { length text.now ≤ 16777216 }
    ensures reads { IfOk result (λ c. Reads file text.now (Ok c)) }
    ensures stop { IfErr result (MayStopBy (Reads file text.now)) }
{
    match read(alloc, text, QUBITS) {
        Ok(circuit) => Ok(circuit),
        Err(ReadStop::Refused(refusal)) => Err(Cause::Refused { file, refusal }),
        Err(ReadStop::OutOfMemory) => Err(Cause::OutOfMemory),
    }
}
