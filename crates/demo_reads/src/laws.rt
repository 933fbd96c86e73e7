//! Laws of the text of `demo`, each the contract of a call that does nothing.
ghost use Rattle.std.specs.Prelude.{◌≤◌, ℕ, length};
ghost use Rattle.qasm_reader.specs.declared.reason.Why.{Why};
ghost use Rattle.qasm_reader.specs.Reading.{ReadsAs, circuit, refusal};
ghost use Rattle.demo_text.specs.Generator.{demo_text};
ghost use Rattle.demo_reads.specs.Drawn.{drawn_circuit};

/// The text of `demo` reads as the circuit of its calls.
pub fn demo_texts_read()
    ensures { (q n seed : ℕ) → 1 ≤ q → q ≤ 64 → n ≤ 500000 → ReadsAs (demo_text q n seed) 64 (circuit (drawn_circuit q n seed)) }
{}

/// No text of `demo` is refused.
pub fn demo_texts_are_never_refused()
    ensures { (q n seed : ℕ) → 1 ≤ q → q ≤ 64 → n ≤ 500000 → (number : ℕ) (why : Why) → ¬ ReadsAs (demo_text q n seed) 64 (refusal number why) }
{}

/// The text of `demo` is no longer than a text may be.
pub fn demo_texts_are_short()
    ensures { (q n seed : ℕ) → 1 ≤ q → q ≤ 64 → n ≤ 500000 → length (demo_text q n seed) ≤ 16777216 }
{}
