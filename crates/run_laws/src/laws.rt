//! Laws of the top call's definitions. Each call does nothing: its contract is the law.
ghost use Rattle.std.specs.Prelude.{◌≡◌, ◌⊎◌, ◌↔◌, ◌≤◌, ◌∷◌, [], List, ℕ, ◌*◌, Bool, length, All, codes, Result, Ok, Err, Option, Some, IsSome};
ghost use Rattle.gate_set.specs.declared.gate.Gate.{Gate};
ghost use Rattle.gate_set.specs.Circuits.{Circuit};
ghost use Rattle.gate_set.specs.Shape.{IsOn};
ghost use Rattle.circuit_model.specs.Working.{work, AllFit};
ghost use Rattle.comparison.specs.Products.{Step, gate_of, work_matrix, AllStepsFit};
ghost use Rattle.comparison.specs.Scalars.{AreSame};
ghost use Rattle.comparison.specs.Steps.{steps_of};
ghost use Rattle.amp_dense.specs.Rules.{Settings};
ghost use Rattle.qasm_reader.specs.declared.reason.Refusal.{Refusal};
ghost use Rattle.qasm_reader.specs.Reading.{ReadsAs, circuit};
ghost use Rattle.std.specs.List.{AllByRecursion};
ghost use Rattle.demo_reads.specs.Drawn.{drawn_circuit};
ghost use Rattle.outside.specs.Memory.{Shelved, text_of, memory};
ghost use Rattle.phases.specs.Phases.{Agree, HasOneEnd, HasSomeEnd};
ghost use Rattle.sliq_words.specs.Asked.{Request, asked_of};
ghost use Rattle.sliq_words.specs.declared.reading.Task.{Task};
ghost use Rattle.sliq_engine.specs.Comes.{CarriesOut, Comes};
ghost use Rattle.run_laws.specs.Laws.{AreEnough, ComesTo, GatesHaveNodes, HasEnough, HasTexts, IsNoFault, IsSure, IsSureOf, NeverLacksNodes, StepsHaveNodes, TellsFirst};
ghost use Rattle.sliq_engine.specs.Steps.{Output, zeros};
ghost use Rattle.sliq_engine.specs.Sim.{input_for, sim_output, Sims};
ghost use Rattle.sliq_engine.specs.Prob.{IsHeavy, prob_output, Weighs};
ghost use Rattle.sliq_engine.specs.Eq.{Says, Compares};
ghost use Rattle.sliq_engine.specs.Demo.{demo_output, Demonstrates};
ghost use Rattle.fidelity.specs.Widths.{IsTooWide};
ghost use Rattle.sliq_engine.specs.Sample.{IsTooHeavyToDraw, sample_output, Samples};
ghost use Rattle.sliq_engine.specs.Fidelity.{fidelity_output, Overlaps};

use causes::Cause;
use gate_set::Kind;

/// Whatever is asked for, on whatever texts, comes to one output at most, or to one cause, but for a want of nodes at a gate or a step. One at step 0, before the
/// first step of `eq`, comes exactly where three nodes a qubit are more than are allowed.
pub fn one_end()
    ensures { (asked : Request) (texts : List (List ℕ)) → HasOneEnd (IsSure asked.task) (CarriesOut asked.task asked.rules texts) }
{}

/// And what words ask for, on whatever texts, comes to some output, or to some cause.
pub fn some_end()
    ensures { (words : List (List ℕ)) (asked : Request) → asked_of words ≡ Some asked → (texts : List (List ℕ)) → HasSomeEnd IsNoFault (CarriesOut asked.task asked.rules texts) }
{}

/// Where a shelf in memory has the files of the words, a run on it comes to one output at most, or to one cause, but for faults of the shelf and a want of
/// nodes at a gate or a step.
pub fn one_run()
    ensures { (words : List (List ℕ)) (old new other : Shelved) → ((asked : Request) → asked_of words ≡ Some asked → AllByRecursion (λ name. IsSome (text_of old name)) asked.files)
        → Agree (IsSureOf (asked_of words)) (Comes memory words old new) (Comes memory words old other) }
{}

/// Where a shelf in memory has texts for all files of the words, none too long, a run on it comes to what the command that is asked for comes to on these
/// texts, or to a fault of the shelf. So what the laws below say of a command on texts, they say of whole runs.
pub fn run_on_texts()
    ensures { (words : List (List ℕ)) (asked : Request) (texts : List (List ℕ)) (old new : Shelved) → asked_of words ≡ Some asked → HasTexts old asked.files texts
        → (end : Result Output Cause) → Comes memory words old new end → CarriesOut asked.task asked.rules texts end ⊎ (end ≡ Err Cause.ReadFault) }
{
    let _ = Cause::ReadFault;
}

/// Enough nodes are always enough: where W bits a coefficient and N nodes are allowed, and N is (64·(W + 2) + 130)·2^n or more, no run on a text that reads as a
/// circuit on n qubits ends for want of nodes. `eq` and `fidelity` want as many for twice the qubits, since their diagrams have two variables for each. Each gate, or step, then
/// has nodes, as `complete` asks.
pub fn enough_nodes()
    ensures never { (task : Task) (rules : Settings) (texts : List (List ℕ)) → HasEnough task rules texts → NeverLacksNodes (CarriesOut task rules texts) }
    ensures gates { (rules : Settings) (input : List Bool) (gates : List Gate) → All (IsOn (length input)) gates → AreEnough rules (length input)
        → GatesHaveNodes rules input gates }
    ensures steps { (rules : Settings) (n : ℕ) (steps : List Step) → All (λ t. IsOn n (gate_of t)) steps → AreEnough rules (2 * n)
        → (3 * n ≤ rules.nodes) × StepsHaveNodes rules n steps }
{}

/// Completeness. Where a text reads as a circuit, an input has as many bits as it has qubits, each gate fits the width, for `prob` all states weigh less than
/// 2^127 and for `sample` less than 2^60, and each gate's work functions need fewer nodes than are allowed, in the order in force at it, a run comes to the output of that circuit, and to no
/// cause and no other output; `eq`, where three nodes a qubit are allowed besides, to what is to be said of two circuits on as many qubits, and `fidelity`, where the
/// matrix isn't too wide, to the line of their fidelity. So it ends as Done, or for `eq` as Differs, but for a fault of the shelf or the sink, or a want of memory.
pub fn complete()
    ensures sim { (rules : Settings) (bits : Option (List Bool)) (text : List ℕ) (c : Circuit) → ReadsAs text 64 (circuit c) → c.qubits ≡ length (input_for bits c.qubits) → 2 ≤ rules.width
        → AllFit rules.width (input_for bits c.qubits) c.gates → GatesHaveNodes rules (input_for bits c.qubits) c.gates
        → ComesTo (Sims bits rules text) (record { cause = Cause.Done; bytes = sim_output c.qubits (input_for bits c.qubits) c.gates }) }
    ensures prob { (rules : Settings) (text : List ℕ) (c : Circuit) → ReadsAs text 64 (circuit c) → 2 ≤ rules.width
        → AllFit rules.width (zeros c.qubits) c.gates → ¬ IsHeavy c.qubits (work c.gates (zeros c.qubits)).entries → GatesHaveNodes rules (zeros c.qubits) c.gates
        → ComesTo (Weighs rules text) (record { cause = Cause.Done; bytes = prob_output c }) }
    ensures demo { (rules : Settings) (qubits gates seed : ℕ) → 1 ≤ qubits → qubits ≤ 64 → gates ≤ 500000 → 2 ≤ rules.width
        → AllFit rules.width (zeros qubits) (drawn_circuit qubits gates seed).gates → GatesHaveNodes rules (zeros qubits) (drawn_circuit qubits gates seed).gates
        → ComesTo (Demonstrates rules qubits gates seed) (record { cause = Cause.Done; bytes = demo_output qubits (drawn_circuit qubits gates seed).gates }) }
    ensures eq { (rules : Settings) (one two : List ℕ) (u v : Circuit) → ReadsAs one 64 (circuit u) → ReadsAs two 64 (circuit v) → u.qubits ≡ v.qubits → 2 ≤ rules.width
        → AllStepsFit rules.width u.qubits (steps_of u.gates v.gates) → 3 * u.qubits ≤ rules.nodes → StepsHaveNodes rules u.qubits (steps_of u.gates v.gates)
        → (end : Result Output Cause) → Compares rules one two end ↔ Says u v end }
    ensures sample { (rules : Settings) (shots seed : ℕ) (text : List ℕ) (c : Circuit) → ReadsAs text 64 (circuit c) → 2 ≤ rules.width
        → AllFit rules.width (zeros c.qubits) c.gates → ¬ IsTooHeavyToDraw c.qubits (work c.gates (zeros c.qubits)).entries → GatesHaveNodes rules (zeros c.qubits) c.gates
        → ComesTo (Samples shots seed rules text) (record { cause = Cause.Done; bytes = sample_output shots seed c }) }
    ensures fidelity { (rules : Settings) (one two : List ℕ) (u v : Circuit) → ReadsAs one 64 (circuit u) → ReadsAs two 64 (circuit v) → u.qubits ≡ v.qubits → 2 ≤ rules.width
        → AllStepsFit rules.width u.qubits (steps_of u.gates v.gates) → ¬ IsTooWide u.qubits (work_matrix u.qubits (steps_of u.gates v.gates)).entries
        → 3 * u.qubits ≤ rules.nodes → StepsHaveNodes rules u.qubits (steps_of u.gates v.gates)
        → ComesTo (Overlaps rules one two) (record { cause = Cause.Done; bytes = fidelity_output u.qubits u.gates v.gates }) }
{
    let _ = Cause::Done;
}

/// Where two texts read as circuits on as many qubits, a run of `eq` that wrote its output ends as Done exactly where the circuits are the
/// same up to one unit scalar, and else as Differs, with the first position at which U·V† isn't its corner times the identity.
pub fn eq_exactly()
    ensures done { (one two : List ℕ) (u v : Circuit) (output : Output) → ReadsAs one 64 (circuit u) → ReadsAs two 64 (circuit v) → u.qubits ≡ v.qubits → Says u v (Ok output)
        → (output.cause ≡ Cause.Done) ↔ AreSame u.qubits u.gates v.gates }
    ensures differs { (one two : List ℕ) (u v : Circuit) (output : Output) → ReadsAs one 64 (circuit u) → ReadsAs two 64 (circuit v) → u.qubits ≡ v.qubits → Says u v (Ok output)
        → (output.cause ≡ Cause.Differs) ↔ (¬ AreSame u.qubits u.gates v.gates) }
    ensures first { (one two : List ℕ) (u v : Circuit) (output : Output) → ReadsAs one 64 (circuit u) → ReadsAs two 64 (circuit v) → u.qubits ≡ v.qubits → Says u v (Ok output)
        → (¬ AreSame u.qubits u.gates v.gates) → TellsFirst u v output }
{
    let _ = Cause::Differs;
}

/// Where two texts read as circuits that are the same up to one unit scalar, a run of `fidelity` that writes an output writes that their fidelity is 1. The other
/// direction isn't claimed.
pub fn equal_circuits_overlap()
    ensures { (rules : Settings) (one two : List ℕ) (u v : Circuit) (output : Output) → ReadsAs one 64 (circuit u) → ReadsAs two 64 (circuit v) → AreSame u.qubits u.gates v.gates
        → Overlaps rules one two (Ok output) → output ≡ record { cause = Cause.Done; bytes = codes "fidelity (1,0)/2^0\n" } }
{
    let _ = Cause::Done;
}

/// No `demo` comes to a refusal.
pub fn demo_is_never_refused()
    ensures { (rules : Settings) (qubits gates seed : ℕ) → 1 ≤ qubits → qubits ≤ 64 → gates ≤ 500000 → (file : ℕ) (r : Refusal) → ¬ Demonstrates rules qubits gates seed (Err (Cause.Refused file r)) }
{}

/// What `sim` writes of small circuits: a Bell pair, no gate, H twice, and H T H; what `demo` writes of H and the inverse of T; and what `fidelity` writes of T and no gate.
pub fn small_outputs()
    ensures bell_pair { sim_output 2 (zeros 2) (record { kind = Kind.H; on = 0 ∷ []; extra = [] } ∷ record { kind = Kind.Cx; on = 0 ∷ 1 ∷ []; extra = [] } ∷ [])
        ≡ codes "qubits 2\n|00> (0,0,0,1)/sqrt2^1\n|11> (0,0,0,1)/sqrt2^1\nstates 2\n" }
    ensures no_gates { sim_output 1 (zeros 1) [] ≡ codes "qubits 1\n|0> (0,0,0,1)/sqrt2^0\nstates 1\n" }
    ensures h_twice { sim_output 1 (zeros 1) (record { kind = Kind.H; on = 0 ∷ []; extra = [] } ∷ record { kind = Kind.H; on = 0 ∷ []; extra = [] } ∷ [])
        ≡ codes "qubits 1\n|0> (0,0,0,1)/sqrt2^0\nstates 1\n" }
    ensures h_t_h { sim_output 1 (zeros 1) (record { kind = Kind.H; on = 0 ∷ []; extra = [] } ∷ record { kind = Kind.T; on = 0 ∷ []; extra = [] } ∷ record { kind = Kind.H; on = 0 ∷ []; extra = [] } ∷ [])
        ≡ codes "qubits 1\n|0> (0,0,1,1)/sqrt2^2\n|1> (0,0,-1,1)/sqrt2^2\nstates 2\n" }
    ensures summary { demo_output 1 (record { kind = Kind.H; on = 0 ∷ []; extra = [] } ∷ record { kind = Kind.Tdg; on = 0 ∷ []; extra = [] } ∷ [])
        ≡ codes "qubits 1\ngates 2\nexponent 1\nstates 2\nfirst |0> (0,0,0,1)/sqrt2^1\nlast |1> (-1,0,0,0)/sqrt2^1\n" }
    ensures overlap { fidelity_output 1 (record { kind = Kind.T; on = 0 ∷ []; extra = [] } ∷ []) [] ≡ codes "fidelity (2,1)/2^2\n" }
{
    // The clauses name kinds; an import wants a use in code too.
    let _ = Kind::H;
}

/// That is far fewer than are always enough: a Bell pair over two bits a coefficient has nodes where 64 are allowed.
pub fn few_nodes()
    ensures { GatesHaveNodes (record { width = 2; nodes = 64; cache = 1; reclaim = 0; sift = 0 }) (zeros 2) (record { kind = Kind.H; on = 0 ∷ []; extra = [] } ∷ record { kind = Kind.Cx; on = 0 ∷ 1 ∷ []; extra = [] } ∷ []) }
{
    let _ = Kind::H;
}
