//! Parities, and halves of sums and differences that may not fit themselves.
ghost use Rattle.std.specs.Prelude.{◌≡◌, pos, ◌+ℤ◌, ◌-ℤ◌, ◌≤ℤ◌, ◌↔◌, IsTrue};
ghost use Rattle.ring_omega.specs.Private.{SameParity};

// Twice the first number plus the second one is `x`; the second one is 0 or 1.
fn halves(x: i128) -> (i128, i128)
    ensures whole { x ≡ result.0 +ℤ result.0 +ℤ result.1 }
    ensures low { pos 0 ≤ℤ result.1 }
    ensures high { result.1 ≤ℤ pos 1 }
{
    if x % 2 == 0 {
        (x / 2, 0)
    } else if x > 0 {
        (x / 2, 1)
    } else {
        (x / 2 - 1, 1)
    }
}

pub fn same_parity(x: i128, y: i128) -> bool
    ensures { IsTrue result ↔ SameParity x y }
{
    halves(x).1 == halves(y).1
}

pub fn half_difference(x: i128, y: i128) -> i128
    requires { SameParity x y }
    ensures { result +ℤ result ≡ x -ℤ y }
{
    halves(x).0 - halves(y).0
}

pub fn half_sum(x: i128, y: i128) -> i128
    requires { SameParity x y }
    ensures { result +ℤ result ≡ x +ℤ y }
{
    let (half, rest) = halves(x);
    half + halves(y).0 + rest
}
