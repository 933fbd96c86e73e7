//! What is left out of OpenQASM 2.0.
ghost use Rattle.std.specs.Prelude.{◌≡◌};
ghost use Rattle.qasm_forms.specs.Cutting.{begins_left};
ghost use Rattle.qasm_gates.specs.Private.Views.{view_of, IsGates};
ghost use Rattle.qasm_reader.specs.Private.Scope.{leaves_by};

use qasm_forms::Lexemes;
use qasm_gates::Gates;
use qasm_lex::is_one_of;

/// Whether a word is one with which statements and calls begin that are left out, where these gates are defined.
pub fn is_left_out(first: &[u8], gates: &Gates<'_>) -> bool
    requires { IsGates gates.now }
    ensures { result ≡ leaves_by (view_of gates.now).definitions first.now }
{
    is_one_of(first, &[b"gate", b"opaque", b"reset", b"if", b"U", b"CX"])
        || is_one_of(first, &[b"rz", b"u2", b"u3", b"crz", b"cu3"]) && gates.find(first).is_none()
}

/// Whether a statement is left out.
pub fn begins_left(part: &Lexemes<'_>, gates: &Gates<'_>) -> bool
    requires { IsGates gates.now }
    ensures { result ≡ begins_left (leaves_by (view_of gates.now).definitions) part.now }
{
    match part.first_word() {
        Some(first) => is_left_out(first, gates),
        None => false,
    }
}
