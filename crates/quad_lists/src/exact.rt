//! Sums that may leave 128 bits on the way, so that only the finished sum is judged.
ghost use Rattle.std.specs.Prelude.{◌≡◌, ◌≤◌, ◌+◌, ◌^◌, ℕ, ◌-◌, ◌↔◌, pos, neg_ℤ, ◌+ℤ◌, ◌-ℤ◌};
ghost use Rattle.std.specs.Option.{SomeIff};
ghost use Rattle.ring_omega.specs.Bounds.{IntWithin, IsWithin};
ghost use Rattle.ring_omega.specs.Ring.{quad, sum_of, product_of, times_power, omega_unit, root_of_two, zero_quad};
ghost use Rattle.gate_set.specs.Matrix.{times_entry, IsReduced};
ghost use Rattle.circuit_model.specs.Working.{IntFits, QuadFits};
ghost use Rattle.quad_lists.specs.Sums.{sum_value, quad_value, AreBounds};

use gate_set::Entry;
use ring_omega::Quad;

/// The least and the greatest coefficient of a width.
#[derive(Clone, Copy)]
pub struct Bounds {
    least: i128,
    greatest: i128,
}

impl Bounds {
    pub fn of(width: u8) -> Bounds
        requires least { 2 ≤ width }
        requires greatest { width ≤ 128 }
        ensures { AreBounds width result }
    {
        let quarter = 1 << (width - 2);
        Bounds {
            least: -quarter - quarter,
            greatest: quarter - 1 + quarter,
        }
    }
}

/// A sum of 128-bit numbers: `low` plus 2^128 times `high`.
///
/// Past the greatest number `low` keeps 2^128 less and `high` one more, before the least one the other way round.
#[derive(Clone, Copy)]
pub struct ExactSum {
    low: i128,
    high: i8,
}

impl ExactSum {
    const ZERO: ExactSum = ExactSum { low: 0, high: 0 };

    fn plus(self, x: i128) -> ExactSum
        requires { IntWithin (2 ^ 130) (sum_value self) }
        ensures { sum_value result ≡ sum_value self +ℤ x }
    {
        let ExactSum { low, high } = self;
        match low.checked_add(x) {
            Some(low) => ExactSum { low, high },
            None if x > 0 => ExactSum {
                low: low + i128::MIN + x + i128::MIN,
                high: high + 1,
            },
            None => ExactSum {
                low: low - i128::MIN + x - i128::MIN,
                high: high - 1,
            },
        }
    }

    fn minus(self, x: i128) -> ExactSum
        requires { IntWithin (2 ^ 130) (sum_value self) }
        ensures { sum_value result ≡ sum_value self -ℤ x }
    {
        let ExactSum { low, high } = self;
        match low.checked_sub(x) {
            Some(low) => ExactSum { low, high },
            None if x > 0 => ExactSum {
                low: low - i128::MIN - x - i128::MIN,
                high: high - 1,
            },
            None => ExactSum {
                low: low + i128::MIN - x + i128::MIN,
                high: high + 1,
            },
        }
    }

    // The sum, if it lies within the bounds.
    fn fitted(self, width: u8, bounds: Bounds) -> Option<i128>
        requires small { width ≤ 128 }
        requires bounds { AreBounds width bounds }
        ensures { SomeIff result (IntFits width (sum_value self)) (sum_value self) }
    {
        if self.high == 0 && bounds.least <= self.low && self.low <= bounds.greatest {
            Some(self.low)
        } else {
            None
        }
    }
}

/// A sum of quadruples, coordinate by coordinate.
#[derive(Clone, Copy)]
pub struct ExactQuad {
    a: ExactSum,
    b: ExactSum,
    c: ExactSum,
    d: ExactSum,
}

impl ExactQuad {
    pub const ZERO: ExactQuad = ExactQuad {
        a: ExactSum::ZERO,
        b: ExactSum::ZERO,
        c: ExactSum::ZERO,
        d: ExactSum::ZERO,
    };

    /// The sum with ω to the power `j` times `q` added.
    pub fn plus_turned(self, j: u8, q: Quad) -> ExactQuad
        requires power { j ≤ 7 }
        requires bounded { IsWithin (2 ^ 130) (quad_value self) }
        ensures value { quad_value result ≡ sum_of (quad_value self) (times_power omega_unit j q) }
        ensures bounded { (m : ℕ) → IsWithin m (quad_value self) → IsWithin (m + 2 ^ 127) (quad_value result) }
    {
        let ExactQuad { a, b, c, d } = self;
        match j {
            0 => gathered(a.plus(q.a), b.plus(q.b), c.plus(q.c), d.plus(q.d)),
            1 => gathered(a.plus(q.b), b.plus(q.c), c.plus(q.d), d.minus(q.a)),
            2 => gathered(a.plus(q.c), b.plus(q.d), c.minus(q.a), d.minus(q.b)),
            3 => gathered(a.plus(q.d), b.minus(q.a), c.minus(q.b), d.minus(q.c)),
            4 => gathered(a.minus(q.a), b.minus(q.b), c.minus(q.c), d.minus(q.d)),
            5 => gathered(a.minus(q.b), b.minus(q.c), c.minus(q.d), d.plus(q.a)),
            6 => gathered(a.minus(q.c), b.minus(q.d), c.plus(q.a), d.plus(q.b)),
            _ => gathered(a.minus(q.d), b.plus(q.a), c.plus(q.b), d.plus(q.c)),
        }
    }

    /// √2 times `q`.
    pub fn root_times(q: Quad) -> ExactQuad
        ensures { quad_value result ≡ product_of q root_of_two }
    {
        gathered(
            less(q.b, q.d),
            both(q.a, q.c),
            both(q.b, q.d),
            less(q.c, q.a),
        )
    }

    /// An entry of a matrix times `q`.
    pub fn entry_times(entry: Entry, q: Quad) -> ExactQuad
        requires { IsReduced entry }
        ensures { quad_value result ≡ times_entry entry q }
    {
        match entry {
            Entry::Zero => ExactQuad::ZERO,
            Entry::Omega(j) => ExactQuad::ZERO.plus_turned(j, q),
            Entry::Root2 => ExactQuad::root_times(q),
        }
    }

    /// The sum, if all of its coordinates lie within the bounds of the width.
    pub fn fitted(self, width: u8, bounds: Bounds) -> Option<Quad>
        requires small { width ≤ 128 }
        requires bounds { AreBounds width bounds }
        ensures { SomeIff result (QuadFits width (quad_value self)) (quad_value self) }
    {
        Some(Quad {
            a: self.a.fitted(width, bounds)?,
            b: self.b.fitted(width, bounds)?,
            c: self.c.fitted(width, bounds)?,
            d: self.d.fitted(width, bounds)?,
        })
    }
}

fn both(x: i128, y: i128) -> ExactSum
    ensures { sum_value result ≡ x +ℤ y }
{
    ExactSum::ZERO.plus(x).plus(y)
}

fn less(x: i128, y: i128) -> ExactSum
    ensures { sum_value result ≡ x -ℤ y }
{
    ExactSum::ZERO.plus(x).minus(y)
}

fn gathered(a: ExactSum, b: ExactSum, c: ExactSum, d: ExactSum) -> ExactQuad
    ensures { quad_value result ≡ quad (sum_value a) (sum_value b) (sum_value c) (sum_value d) }
{
    ExactQuad { a, b, c, d }
}
