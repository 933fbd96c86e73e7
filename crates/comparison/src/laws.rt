//! Laws of the comparison. Each call does nothing: its contract is the law.
ghost use Rattle.std.specs.Prelude.{◌≡◌, ◌↔◌, ◌⊎◌, ◌≤◌, ◌+◌, ◌*◌, ◌++◌, ◌∷◌, [], ℕ, List, Bool, length, map, All, pos, negsuc, true, false};
ghost use Rattle.ring_omega.specs.declared.quad.Quad.{Quad};
ghost use Rattle.ring_omega.specs.Ring.{quad, zero_quad, one_quad};
ghost use Rattle.ring_omega.specs.Value.{SameValue};
ghost use Rattle.ring_omega.specs.Lowest.{lowest_form};
ghost use Rattle.bit_lists.specs.Lists.{IsBefore};
ghost use Rattle.gate_set.specs.declared.gate.Gate.{Gate};
ghost use Rattle.gate_set.specs.Shape.{IsOn};
ghost use Rattle.gate_set.specs.Circuits.{inverse_gate};
ghost use Rattle.circuit_model.specs.Product.{exponent};
ghost use Rattle.circuit_model.specs.Working.{Scaled, scaled, IsHalved};
ghost use Rattle.amp_printer.specs.declared.verdict.Verdict.{Verdict};
ghost use Rattle.amp_printer.specs.declared.verdict.Verdict.TheVariants.{Scalar};
ghost use Rattle.comparison.specs.Scalars.{Matrix, SameUpTo, AreSame, scalar_entry, comparison, compared, corner, IsScalar, IsEarlier, IsFirstDiffering};
ghost use Rattle.comparison.specs.Products.{Step, joined, raw_matrix, step_matrix, work_matrix};
ghost use Rattle.comparison.specs.Products.Step.{left, right};
ghost use Rattle.comparison.specs.Verdicts.{IsVerdict};
ghost use Rattle.comparison.specs.Steps.{steps_of, left_gates, right_gates, IsLeft, IsLeftNext};

use gate_set::Kind;

/// U·V† is its corner times the identity exactly where the two circuits are the same up to a scalar, and then that scalar has the corner's
/// value.
pub fn scalar_test()
    ensures scalar { (n : ℕ) (us vs : List Gate) → All (IsOn n) us → All (IsOn n) vs → IsScalar n (compared us vs)
        → SameUpTo n us vs (corner n (compared us vs)) (exponent (comparison us vs)) }
    ensures same { (n : ℕ) (us vs : List Gate) → All (IsOn n) us → All (IsOn n) vs → (q : Quad) (k : ℕ) → SameUpTo n us vs q k
        → IsScalar n (compared us vs) × SameValue q k (corner n (compared us vs)) (exponent (comparison us vs)) }
{}

/// A matrix is its corner times the identity, or there is one first position at which it isn't.
pub fn first_differing()
    ensures some { (n : ℕ) (m : Matrix) → IsScalar n m ⊎ ((r c : List Bool) × IsFirstDiffering n m r c) }
    ensures apart { (n : ℕ) (m : Matrix) (r c : List Bool) → IsScalar n m → IsFirstDiffering n m r c → ⊥ }
    ensures one { (n : ℕ) (m : Matrix) (r c s d : List Bool) → IsFirstDiffering n m r c → IsFirstDiffering n m s d → (r ≡ s) × (c ≡ d) }
{}

/// Of each matrix one thing is to be said.
pub fn one_verdict()
    ensures some { (n : ℕ) (m : Matrix) (k : ℕ) → (v : Verdict) × IsVerdict n m k v }
    ensures one { (n : ℕ) (m : Matrix) (k : ℕ) (v w : Verdict) → IsVerdict n m k v → IsVerdict n m k w → v ≡ w }
{}

/// Of U·V† a scalar is told exactly where the circuits are the same up to a scalar.
pub fn scalar_told()
    ensures { (n : ℕ) (us vs : List Gate) (v : Verdict) → All (IsOn n) us → All (IsOn n) vs → IsVerdict n (compared us vs) (exponent (comparison us vs)) v
        → AreSame n us vs ↔ ((q : Quad) × (k : ℕ) × (v ≡ Scalar q k)) }
{}

/// Positions are ordered as the lists of the row's bits and then the column's.
pub fn order_of_positions()
    ensures { (s d r c : List Bool) → length s ≡ length r → IsEarlier s d r c ↔ IsBefore (s ++ d) (r ++ c) }
{}

/// After all steps of a comparison the working matrix has the values of U·V†.
pub fn working_matrix()
    ensures { (n : ℕ) (us vs : List Gate) (r c : List Bool) → All (IsOn n) us → All (IsOn n) vs → length r ≡ n → length c ≡ n
        → SameValue ((work_matrix n (steps_of us vs)).entries (r ++ c)) (work_matrix n (steps_of us vs)).exponent (compared us vs r c) (exponent (comparison us vs)) }
{}

/// The working matrix by its last step: of no step it is the identity with the exponent 0, and one step more is its product, halved.
pub fn matrix_by_last_step()
    ensures none { (n : ℕ) → work_matrix n [] ≡ scaled (joined n (scalar_entry one_quad)) 0 }
    ensures last { (n : ℕ) (steps : List Step) (s : Step) → work_matrix n (steps ++ s ∷ []) ≡ step_matrix n (work_matrix n steps) s }
{}

/// A step takes a factor of 2 out of all entries as often as it can.
pub fn halving_of_matrix()
    ensures { (n : ℕ) (w : Scaled) (s : Step) → IsHalved (n + n) (raw_matrix n w s).entries (raw_matrix n w s).exponent (step_matrix n w s) }
{}

/// The steps of a comparison are U's gates from the left, each once and in their order, and the inverses of V's gates from the right, each
/// once and in their order.
pub fn both_sides()
    ensures left { (us vs : List Gate) → left_gates (steps_of us vs) ≡ us }
    ensures right { (us vs : List Gate) → right_gates (steps_of us vs) ≡ map inverse_gate vs }
{}

/// The next step is a left one exactly where one is left and, of both sides, the left one has not done more than its part.
pub fn order_of_steps()
    ensures { (us vs : List Gate) (front rest : List Step) (s : Step) → steps_of us vs ≡ front ++ s ∷ rest
        → IsLeft s ↔ IsLeftNext (length us) (length vs) (length (left_gates front)) (length (right_gates front)) }
{}

/// Matrices of small circuits: x z against z x, t against tdg, h s h against a quarter turn about x, and x against nothing.
pub fn small_matrices()
    ensures xz_against_zx { corner 1 (compared (record { kind = Kind.X; on = 0 ∷ []; extra = [] } ∷ record { kind = Kind.Z; on = 0 ∷ []; extra = [] } ∷ [])
        (record { kind = Kind.Z; on = 0 ∷ []; extra = [] } ∷ record { kind = Kind.X; on = 0 ∷ []; extra = [] } ∷ [])) ≡ quad (pos 0) (pos 0) (pos 0) (negsuc 0) }
    ensures t_against_tdg { compared (record { kind = Kind.T; on = 0 ∷ []; extra = [] } ∷ []) (record { kind = Kind.Tdg; on = 0 ∷ []; extra = [] } ∷ []) (true ∷ []) (true ∷ []) ≡ quad (pos 0) (pos 1) (pos 0) (pos 0) }
    ensures its_corner { corner 1 (compared (record { kind = Kind.T; on = 0 ∷ []; extra = [] } ∷ []) (record { kind = Kind.Tdg; on = 0 ∷ []; extra = [] } ∷ [])) ≡ one_quad }
    ensures hsh_against_rx { lowest_form (corner 1 (compared (record { kind = Kind.H; on = 0 ∷ []; extra = [] } ∷ record { kind = Kind.S; on = 0 ∷ []; extra = [] } ∷ record { kind = Kind.H; on = 0 ∷ []; extra = [] } ∷ [])
        (record { kind = Kind.RxP; on = 0 ∷ []; extra = [] } ∷ []))) 3 ≡ (quad (pos 0) (pos 0) (pos 1) (pos 0), 0) }
    ensures x_against_nothing { compared (record { kind = Kind.X; on = 0 ∷ []; extra = [] } ∷ []) [] (false ∷ []) (true ∷ []) ≡ one_quad }
{
    let _ = Kind::H;
}

/// The order of two left steps and one right one, and of one left step and three right ones.
pub fn small_orders()
    ensures two_and_one { (a b c : Gate) → steps_of (a ∷ b ∷ []) (c ∷ []) ≡ left a ∷ right (inverse_gate c) ∷ left b ∷ [] }
    ensures one_and_three { (a b c d : Gate) → steps_of (a ∷ []) (b ∷ c ∷ d ∷ []) ≡ left a ∷ right (inverse_gate b) ∷ right (inverse_gate c) ∷ right (inverse_gate d) ∷ [] }
{}
