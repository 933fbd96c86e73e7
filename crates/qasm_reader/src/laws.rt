//! Laws of the definitions, each the contract of a call that does nothing.
ghost use Rattle.std.specs.Prelude.{◌≡◌, ◌≤◌, List, ℕ};
ghost use Rattle.gate_set.specs.Circuits.{Circuit, IsCircuit};
ghost use Rattle.qasm_reader.specs.Reading.{Reading, ReadsAs, circuit};

/// A text reads in one way: as one circuit, or by one refusal.
pub fn one_reading()
    ensures { (text : List ℕ) (limit : ℕ) (a b : Reading) → ReadsAs text limit a → ReadsAs text limit b → a ≡ b }
{}

/// Every text reads: as a circuit, or by a refusal.
pub fn every_text_reads()
    ensures { (text : List ℕ) (limit : ℕ) → (reading : Reading) × ReadsAs text limit reading }
{}

/// A circuit as which a text reads has at most as many qubits as the limit, at most 1,000,000 gates, each on different ones of its
/// qubits, and a flag for each qubit.
pub fn texts_read_as_circuits()
    ensures sound { (text : List ℕ) (limit : ℕ) (c : Circuit) → limit ≤ 64 → ReadsAs text limit (circuit c) → IsCircuit c }
    ensures few { (text : List ℕ) (limit : ℕ) (c : Circuit) → limit ≤ 64 → ReadsAs text limit (circuit c) → c.qubits ≤ limit }
{}
