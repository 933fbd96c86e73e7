//! Laws of the definitions. Each call does nothing: its contract is the law.
ghost use Rattle.std.specs.Prelude.{◌≤◌, ℕ, ◌+◌, ◌*◌, ◌^◌, List, All, Err};
ghost use Rattle.gate_set.specs.declared.gate.Gate.{Gate};
ghost use Rattle.gate_set.specs.Shape.{IsOn};
ghost use Rattle.amp_dense.specs.declared.stop.Stop.TheVariants.{Nodes};
ghost use Rattle.amp_dense.specs.Rules.{Settings};
ghost use Rattle.comparison.specs.Steps.{steps_of};
ghost use Rattle.unitary_update.specs.Kept.{Multiplies};

/// Where the rules let the diagrams hold (64·(width + 2) + 130)·2^(2·qubits) nodes, no comparison of two circuits stops for want of nodes, neither at the
/// identity nor at a step.
pub fn enough_nodes()
    ensures { (rules : Settings) (n : ℕ) (us vs : List Gate) → All (IsOn n) us → All (IsOn n) vs → (64 * (rules.width + 2) + 130) * 2 ^ (2 * n) ≤ rules.nodes → (number : ℕ) (order : List ℕ) (held : ℕ) → ¬ Multiplies rules n (steps_of us vs) (Err (Nodes number order held)) }
{}
