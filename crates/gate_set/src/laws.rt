//! Laws of the gates' matrices. Each call does nothing: its contract is the law.
ghost use Rattle.std.specs.Prelude.{ℕ};
ghost use Rattle.gate_set.specs.declared.kind.Kind.{Kind};
ghost use Rattle.gate_set.specs.Matrix.{inverse_of, IsKind};
ghost use Rattle.gate_set.specs.Unitary.{IsUnitary, IsAdjoint};

/// Each matrix times its conjugate transpose is the identity, with any number of further controls.
pub fn matrix_is_unitary()
    ensures { (e : ℕ) (k : Kind) → IsKind k → IsUnitary e k }
{}

/// The matrix of the inverse kind is the conjugate transpose, with any number of further controls.
pub fn inverse_is_adjoint()
    ensures { (e : ℕ) (k : Kind) → IsKind k → IsAdjoint e k (inverse_of k) }
{}
