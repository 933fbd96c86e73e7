//! Quarter turns, and eighths of a turn.
ghost use Rattle.std.specs.Prelude.{◌≡◌, ◌<◌, ◌≤ℤ◌, ◌*ℤ◌, ◌+ℤ◌, ℤ, ℕ, pos, IfSome, Some};
ghost use Rattle.qasm_lex.specs.Angles.{ratio_of};
ghost use Rattle.qasm_lex.specs.Quarters.{IsQuarters, IsEighths};

use crate::pi_fraction::PiFraction;

fn twice(x: i64) -> i128
    ensures { result ≡ x *ℤ pos 2 }
{
    i128::from(x) * 2
}

fn four_times(x: i64) -> i128
    ensures { result ≡ x *ℤ pos 4 }
{
    i128::from(x) * 4
}

/// The whole number that `x / by` is.
fn whole_quotient(x: i128, by: i128) -> Option<i128>
    requires { pos 1 ≤ℤ by }
    ensures found { IfSome result (λ q. x ≡ q *ℤ by) }
    ensures only { (q : ℤ) → x ≡ q *ℤ by → result ≡ Some q }
{
    if x % by == 0 { Some(x / by) } else { None }
}

/// What is left of a number of turns when multiples of eight are taken away.
fn within_eight(turns: i128) -> u8
    ensures below { result < 8 }
    ensures found { (k : ℤ) × (turns ≡ pos result +ℤ (k *ℤ pos 8)) }
    ensures only { (m : ℕ) (k : ℤ) → m < 8 → turns ≡ pos m +ℤ (k *ℤ pos 8) → result ≡ m }
{
    turns.rem_euclid(8) as u8
}

/// The number m below 8 for which the angle is m quarter turns, that is m·π/2, modulo two full turns. None where the
/// angle isn't a multiple of a quarter turn.
pub fn quarter(f: PiFraction) -> Option<u8>
    ensures found { IfSome result (λ m. IsQuarters (ratio_of f) m) }
    ensures only { (m : ℕ) → IsQuarters (ratio_of f) m → result ≡ Some m }
{
    let quarters = whole_quotient(twice(f.num), i128::from(f.den))?;
    Some(within_eight(quarters))
}

/// The number m below 8 for which the angle is m eighths of a full turn, that is m·π/4, modulo a full turn. None where the
/// angle isn't a multiple of π/4.
pub fn eighth(f: PiFraction) -> Option<u8>
    ensures found { IfSome result (λ m. IsEighths (ratio_of f) m) }
    ensures only { (m : ℕ) → IsEighths (ratio_of f) m → result ≡ Some m }
{
    let eighths = whole_quotient(four_times(f.num), i128::from(f.den))?;
    Some(within_eight(eighths))
}
