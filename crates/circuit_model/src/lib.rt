//! What circuits mean: the product of their gates' matrices, and the working vector that carries its values, as definitions for
//! contracts, with their lemmas.
#![tactic(auto)]

ghost use Rattle.std.specs.Prelude.{◌≡◌, ◌+◌, ◌++◌, ◌∷◌, [], ℕ, List, Bool, length};
ghost use Rattle.ring_omega.specs.declared.quad.Quad.{Quad};
ghost use Rattle.ring_omega.specs.Ring.{one_quad, zero_quad};
ghost use Rattle.ring_omega.specs.Value.{SameValue};
ghost use Rattle.gate_set.specs.declared.gate.Gate.{Gate};
ghost use Rattle.gate_set.specs.Matrix.{half_power_of};
ghost use Rattle.circuit_model.specs.Product.{amp, applied, exponent, basis_state};
ghost use Rattle.circuit_model.specs.Working.{IsHalved, halved, scaled, step, work};

/// The product by its last gate: of no gate it is 1 at the input and 0 elsewhere, and one gate more is its matrix times what the others give.
pub fn product_by_last_gate()
    ensures at_input { (x : List Bool) → amp [] x x ≡ one_quad }
    ensures elsewhere { (input x : List Bool) → (x ≡ input → ⊥) → amp [] input x ≡ zero_quad }
    ensures last { (gates : List Gate) (g : Gate) (input x : List Bool) → amp (gates ++ g ∷ []) input x ≡ applied g (amp gates input) x }
    ensures power { (gates : List Gate) (g : Gate) → exponent (gates ++ g ∷ []) ≡ exponent gates + half_power_of g.kind }
{}

/// The working vector by its last gate: of no gate it is that of the product with the exponent 0, and one gate more is its matrix
/// times what the others give, halved.
pub fn work_by_last_gate()
    ensures none { (input : List Bool) → work [] input ≡ scaled (basis_state input) 0 }
    ensures last { (gates : List Gate) (g : Gate) (input : List Bool) → work (gates ++ g ∷ []) input ≡ step (length input) (work gates input) g }
{}

/// Halving takes factors of 2 out of all entries, lowering the exponent by 2 for each, and ends where it is below 2 or some coefficient is
/// odd.
pub fn halving_ends()
    ensures { (n : ℕ) (v : List Bool → Quad) (k : ℕ) → IsHalved n v k (halved n v k) }
{}

/// At each basis state the entry of the working vector over its exponent has the value of the amplitude.
pub fn working_value()
    ensures { (gates : List Gate) (input x : List Bool) → length x ≡ length input → SameValue ((work gates input).entries x) (work gates input).exponent (amp gates input x) (exponent gates) }
{}
