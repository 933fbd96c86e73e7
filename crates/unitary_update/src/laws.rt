//! Laws of the definitions. Each call does nothing: its contract is the law.
ghost use Rattle.std.specs.Prelude.{◌≡◌, ◌≤◌, ℕ, ◌+◌, ◌*◌, ◌^◌, List, [], ◌∷◌, ◌++◌, length, Err};
ghost use Rattle.bit_lists.specs.Orders.{IsOrder};
ghost use Rattle.gate_set.specs.Shape.{IsOn};
ghost use Rattle.circuit_model.specs.Working.{FitsWidth};
ghost use Rattle.comparison.specs.Products.{Step, gate_of, work_matrix, RawStepFits};
ghost use Rattle.amp_dense.specs.declared.stop.Stop.{Stop};
ghost use Rattle.amp_dense.specs.declared.stop.Stop.TheVariants.{Nodes};
ghost use Rattle.phases.specs.Phases.{HasSomeEnd};
ghost use Rattle.unitary_update.specs.Kept.{Standing, Applies};

/// A step on a working matrix whose coefficients fit the width has an end, whatever order is in force and whether a sift is due: it is accepted, or
/// doesn't fit, or may be refused for want of nodes. The coefficients fit at the start, and after each step that fits.
pub fn each_step_has_an_end()
    ensures begun { (n width : ℕ) → 2 ≤ width → FitsWidth (n + n) width (work_matrix n []).entries }
    ensures ends { (s : Standing) (t : Step) → 2 ≤ s.rules.width → IsOrder s.order → IsOn s.input (gate_of t) → FitsWidth (s.input + s.input) s.rules.width (work_matrix s.input s.gates).entries → HasSomeEnd (λ (stop : Stop). Unit {0}) (Applies s t) }
    ensures fits { (n width : ℕ) (steps : List Step) (t : Step) → RawStepFits width n steps t → FitsWidth (n + n) width (work_matrix n (steps ++ t ∷ [])).entries }
{}

/// Where the rules let the diagrams hold (64·(width + 2) + 130)·2^(2·qubits) nodes, no step is refused for want of nodes: it has fewer work functions
/// than the first factor says, and each of them, over two variables a qubit, needs fewer nodes than the second.
pub fn enough_nodes()
    ensures { (s : Standing) (t : Step) → IsOn s.input (gate_of t) → IsOrder s.order → length s.order ≡ 2 * s.input → (64 * (s.rules.width + 2) + 130) * 2 ^ (2 * s.input) ≤ s.rules.nodes → (number : ℕ) (order : List ℕ) (held : ℕ) → ¬ Applies s t (Err (Nodes number order held)) }
{}
