//! Laws of nodes and sizes. Each is the contract of a function without a body.
ghost use Rattle.std.specs.Prelude.{◌≡◌, ℕ, ◌*◌, ◌^◌, ◌-◌, ◌≤◌, true, false, cond, List, [], ◌∷◌, Some, length};
ghost use Rattle.bit_lists.specs.Orders.{AreVars};
ghost use Rattle.diagram_model.specs.declared.parts.Parts.{Parts};
ghost use Rattle.diagram_model.specs.Bryant.{IsCounted, IsNumberOf};
ghost use Rattle.diagram_model.specs.Functions.{Assignment, Function};
ghost use Rattle.diagram_model.specs.Joint.{Trio, joint_size, IsCountedTrio};
ghost use Rattle.diagram_model.specs.Nodes.{parts_of, value, SameFunction};
ghost use Rattle.diagram_model.specs.Size.{size};
ghost use Rattle.diagram_model.specs.Stores.{Diagram, IsSound, IsLive, Extends, KeepsFunctions};

/// The equations of a node's meaning: the constants, and a held node by its variable and children.
pub fn node_meaning()
    ensures constants { (d : Diagram) (x : Assignment) → IsSound d → (value d.slots d.order x 0 ≡ false) × (value d.slots d.order x 1 ≡ true) }
    ensures held { (d : Diagram) (n : ℕ) (p : Parts) (x : Assignment) → IsSound d → parts_of d.slots n ≡ Some p → value d.slots d.order x n ≡ cond (x p.var) (value d.slots d.order x p.high) (value d.slots d.order x p.low) }
{}

/// Live nodes that denote the same function are one node.
pub fn nodes_are_canonical()
    ensures { (d : Diagram) (n m : ℕ) → IsSound d → IsLive d n → IsLive d m → SameFunction d.slots d.order n m → n ≡ m }
{}

/// A store that has the nodes of another one keeps their functions.
pub fn growth_keeps_functions()
    ensures { (d e : Diagram) → IsSound d → IsSound e → Extends d e → KeepsFunctions d e }
{}

/// The size of functions of k variables is the number of different functions that arise from them by
/// fixing the variables of a prefix of the order, and that depend on the next variable.
pub fn size_counts_functions()
    ensures { (k : ℕ) (order : List ℕ) (fs : List Function) → AreVars k order → IsNumberOf (IsCounted k order fs) (size k order fs) }
{}

/// The size is at most the number of functions times one less than two to the number of variables.
pub fn size_is_bounded()
    ensures { (k : ℕ) (order : List ℕ) (fs : List Function) → size k order fs ≤ length fs * (2 ^ length order - 1) }
{}

/// The joint size of three functions is the number of different triples that arise from them by fixing
/// the variables of a prefix of the order in all three, and that have one which depends on the next
/// variable.
pub fn joint_size_counts_triples()
    ensures { (k : ℕ) (order : List ℕ) (t : Trio) → AreVars k order → IsNumberOf (IsCountedTrio k order t) (joint_size k order (t ∷ [])) }
{}
