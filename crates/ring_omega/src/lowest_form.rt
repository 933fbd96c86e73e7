//! The lowest form of a number over a power of √2.
ghost use Rattle.std.specs.Prelude.{◌≡◌, ◌↔◌, IsTrue};
ghost use Rattle.ring_omega.specs.Private.{IsDivisible};
ghost use Rattle.ring_omega.specs.Ring.{product_of, root_of_two};
ghost use Rattle.ring_omega.specs.Value.{IsLowestForm};
ghost use Rattle.ring_omega.specs.Lowest.{lowest_form};

use crate::parity::{half_difference, half_sum, same_parity};
use crate::quad::Quad;

fn is_divisible(q: Quad) -> bool
    ensures { IsTrue result ↔ IsDivisible q }
{
    same_parity(q.a, q.c) && same_parity(q.b, q.d)
}

// The number divided by √2.
fn divided(q: Quad) -> Quad
    requires { IsDivisible q }
    ensures { product_of result root_of_two ≡ q }
{
    Quad {
        a: half_difference(q.b, q.d),
        b: half_sum(q.a, q.c),
        c: half_sum(q.b, q.d),
        d: half_difference(q.c, q.a),
    }
}

/// The pair (p, j) that has the value of `q` over the `k`-th power of √2, with the least exponent j.
///
/// It divides at most 256 times, whatever `k` is.
pub fn lowest(q: Quad, k: u32) -> (Quad, u32)
    ensures least { IsLowestForm q k result.0 result.1 }
    ensures computed { result ≡ lowest_form q k }
{
    if q.is_zero() {
        return (q, 0);
    }
    let mut p = q;
    let mut j = k;
    while j > 0 && is_divisible(p) {
        p = divided(p);
        j -= 1;
    }
    (p, j)
}
