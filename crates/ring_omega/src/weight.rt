//! Squared magnitudes, and their lowest form over a power of 2.
ghost use Rattle.std.specs.Prelude.{◌≡◌, ◌↔◌, IsTrue, IfSome, ◌^◌, pos, ◌+ℤ◌, ◌*ℤ◌, ◌≤ℤ◌, ◌<ℤ◌};
ghost use Rattle.std.specs.Option.{SomeIff};
ghost use Rattle.ring_omega.specs.Weights.{weight_of, IsLowestWeight, lowest_weight_form};
ghost use Rattle.ring_omega.specs.Halving.{IsDouble, twice};

use crate::parity::{half_sum, same_parity};
use crate::quad::Quad;

/// The real number a + b√2.
#[derive(Clone, Copy, PartialEq, Eq, Debug)]
pub struct Weight {
    pub a: i128,
    pub b: i128,
}

impl Quad {
    /// The squared magnitude.
    pub fn weight(self) -> Option<Weight>
        ensures { SomeIff result ((weight_of self).a <ℤ pos (2 ^ 127)) (weight_of self) }
    {
        let a = sum_of_squares(self)?;
        let b = sum_of_neighbours(self);
        Some(Weight { a, b })
    }
}

fn sum_of_squares(q: Quad) -> Option<i128>
    ensures { SomeIff result ((weight_of q).a <ℤ pos (2 ^ 127)) (weight_of q).a }
{
    let first = plus_square(0, q.a)?;
    let second = plus_square(first, q.b)?;
    let third = plus_square(second, q.c)?;
    plus_square(third, q.d)
}

fn plus_square(sum: i128, x: i128) -> Option<i128>
    requires { pos 0 ≤ℤ sum }
    ensures value { SomeIff result ((sum +ℤ x *ℤ x) <ℤ pos (2 ^ 127)) (sum +ℤ x *ℤ x) }
    ensures nonnegative { IfSome result (λ total. pos 0 ≤ℤ total) }
{
    sum.checked_add(x.checked_mul(x)?)
}

// The coefficient of √2: no partial sum is larger than the sum of squares.
fn sum_of_neighbours(q: Quad) -> i128
    requires { (weight_of q).a <ℤ pos (2 ^ 127) }
    ensures { result ≡ (weight_of q).b }
{
    q.a * q.b + q.b * q.c + q.c * q.d - q.d * q.a
}

fn is_double(w: Weight) -> bool
    ensures { IsTrue result ↔ IsDouble w }
{
    same_parity(w.a, 0) && same_parity(w.b, 0)
}

fn halved(w: Weight) -> Weight
    requires { IsDouble w }
    ensures { w ≡ twice result }
{
    Weight {
        a: half_sum(w.a, 0),
        b: half_sum(w.b, 0),
    }
}

/// The pair (v, j) that has the value of `w` over the `k`-th power of 2, with the least exponent j.
///
/// It halves at most 128 times, whatever `k` is.
pub fn lowest_weight(w: Weight, k: u32) -> (Weight, u32)
    ensures least { IsLowestWeight w k result.0 result.1 }
    ensures computed { result ≡ lowest_weight_form w k }
{
    if w == (Weight { a: 0, b: 0 }) {
        return (w, 0);
    }
    let mut v = w;
    let mut j = k;
    while j > 0 && is_double(v) {
        v = halved(v);
        j -= 1;
    }
    (v, j)
}
