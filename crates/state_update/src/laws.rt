//! Laws of the definitions. Each call does nothing: its contract is the law.
ghost use Rattle.std.specs.Prelude.{◌≡◌, ◌≤◌, ◌⊎◌, ℕ, ◌+◌, ◌*◌, ◌^◌, ◌++◌, [], Bool, List, length};
ghost use Rattle.bit_lists.specs.Orders.{AreVars};
ghost use Rattle.gate_set.specs.declared.gate.Gate.{Gate};
ghost use Rattle.gate_set.specs.Shape.{IsOn};
ghost use Rattle.circuit_model.specs.Working.{FitsWidth};
ghost use Rattle.amp_dense.specs.Rules.{Settings};
ghost use Rattle.amp_dense.specs.Standing.{Standing, Fits, vector, begun, with_gate};
ghost use Rattle.amp_dense.specs.declared.stop.Stop.{Stop};
ghost use Rattle.circuit_model.specs.Working.{work};
ghost use Rattle.slice_quad.specs.Vectors.{vector_in, Stands};
ghost use Rattle.state_update.specs.declared.events.Event.{Event};
ghost use Rattle.state_update.specs.declared.events.Report.{Report};
ghost use Rattle.state_update.specs.Kept.{State, sliced_policy, standing_of};
ghost use Rattle.state_update.specs.Events.{Reports, EventStops, gate_of};

/// A gate on a working vector whose coefficients fit the width may be accepted, or be refused for want of nodes. The
/// coefficients fit at the start, and after each gate that fits.
pub fn each_gate_has_an_end()
    ensures begun { (input : List Bool) (rules : Settings) → 2 ≤ rules.width → FitsWidth (length input) rules.width (vector (begun input rules)).entries }
    ensures ends { (s : Standing) (g : Gate) → 2 ≤ s.rules.width → AreVars (length s.order) s.order → IsOn (length s.input) g → FitsWidth (length s.input) s.rules.width (vector s).entries → sliced_policy.may_accept s g ⊎ sliced_policy.may_refuse s g }
    ensures fits { (s : Standing) (g : Gate) → Fits s g → FitsWidth (length s.input) s.rules.width (vector (with_gate s g)).entries }
{}

/// Where the rules let the diagrams hold (64·(width + 2) + 130)·2^qubits nodes, no gate is refused for want of nodes: it has fewer work functions
/// than the first factor says, and each of them needs fewer nodes than the second.
pub fn enough_nodes()
    ensures { (s : Standing) (g : Gate) → IsOn (length s.input) g → length s.order ≡ length s.input → (64 * (s.rules.width + 2) + 130) * 2 ^ length s.input ≤ s.rules.nodes → ¬ sliced_policy.may_refuse s g }
{}

/// An event leaves the working vector of the accepted gates and its own gate, if it is one. A stop leaves that of the accepted gates. Upkeep
/// keeps what the diagrams say at each basis state.
pub fn upkeep_keeps_entries()
    ensures after { (s t : State) (e : Event) (r : Report) → Reports s e r t → vector (standing_of t) ≡ work (s.gates ++ gate_of e) s.input }
    ensures stopped { (s t : State) (e : Event) (stop : Stop) → EventStops s e stop t → vector (standing_of t) ≡ vector (standing_of s) }
    ensures entries { (s t : State) (e : Event) (r : Report) → Reports s e r t → gate_of e ≡ [] → Stands s.diagrams.store s.quad → vector_in t.diagrams.store t.quad.four ≡ vector_in s.diagrams.store s.quad.four }
{}
