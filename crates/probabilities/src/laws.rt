//! Laws of outcomes. Each is the contract of a function without a body.
ghost use Rattle.std.specs.Prelude.{◌≡◌, ◌↔◌, List, Bool, true, length};
ghost use Rattle.bit_lists.specs.Partials.{agrees};
ghost use Rattle.probabilities.specs.Outcomes.{measured_count, measured_bits, fixed_to};

/// A state has an outcome exactly where the bits of its measured qubits are that outcome.
pub fn states_by_outcome()
    ensures { (measured x y : List Bool) → length x ≡ length measured → length y ≡ measured_count measured → (agrees (fixed_to measured y) x ≡ true) ↔ (measured_bits measured x ≡ y) }
{}
