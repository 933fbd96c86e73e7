//! The circuit of `demo`.
ghost use Rattle.std.specs.Prelude.{◌≡◌, ◌≤◌, IfOk};
ghost use Rattle.gate_set.specs.Circuits.{IsCircuit};
ghost use Rattle.qasm_reader.specs.Reading.{ReadsAs, circuit};
ghost use Rattle.demo_text.specs.Generator.{demo_text};
ghost use Rattle.demo_reads.specs.Drawn.{drawn_circuit};

use bit_lists::OutOfMemory;
use demo_text::generated;
use gate_set::Circuit;
use qasm_reader::{ReadStop, read};
use std::alloc::Global;

/// The circuit that the text of `demo` reads as. It is never refused.
///
/// The work is linear in the gates, in the making of the text and in its reading; at most 26 bytes of text are made for a gate.
pub fn demo_circuit(
    alloc: Global,
    qubits: u8,
    gates: u32,
    seed: u64,
) -> Result<Circuit, OutOfMemory>
    requires some { 1 ≤ qubits }
    requires qubits { qubits ≤ 64 }
    requires gates { gates ≤ 500000 }
    ensures drawn { IfOk result (λ c. c ≡ drawn_circuit qubits gates seed) }
    ensures reads { IfOk result (λ c. ReadsAs (demo_text qubits gates seed) 64 (circuit c)) }
    ensures sound { IfOk result (λ c. IsCircuit c) }
{
    let text = generated(alloc, qubits, gates, seed)?;
    match read(alloc, text.as_slice(), 64) {
        Ok(circuit) => Ok(circuit),
        Err(ReadStop::Refused(_)) => unreachable!(),
        Err(ReadStop::OutOfMemory) => Err(OutOfMemory),
    }
}
