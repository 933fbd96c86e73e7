//! Laws of the definitions, each the contract of a call that does nothing.
ghost use Rattle.std.specs.Prelude.{◌≡◌, Bool, List, ℕ};
ghost use Rattle.qasm_forms.specs.Statements.{Statement, IsStatement, written};

/// No two statements are written alike, whichever first words are left out.
pub fn statements_are_unambiguous()
    ensures { (leaves : List ℕ → Bool) (s t : Statement) → IsStatement leaves s → IsStatement leaves t → written s ≡ written t → s ≡ t }
{}
