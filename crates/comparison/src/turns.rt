//! Which step of a comparison is next.
ghost use Rattle.std.specs.Prelude.{◌≡◌, ◌<◌, ◌≤◌, ◌+◌, ◌*◌, ◌∷◌, ◌↔◌, ℕ, length, drop, All, IsTrue};
ghost use Rattle.gate_set.specs.Shape.{IsOn};
ghost use Rattle.comparison.specs.Steps.{IsLeftNext, mixed};
ghost use Rattle.comparison.specs.Sides.{step_of, lefts, rights};

use gate_set::Gate;
use std::alloc::Global;

/// The side from which a matrix is multiplied.
#[derive(Clone, Copy, Debug, PartialEq, Eq)]
pub enum Side {
    Left,
    Right,
}

/// A gate and the side from which it is multiplied.
#[derive(Drop)]
pub struct Turn {
    pub side: Side,
    pub gate: Gate,
}

// Whether, of m left and p right steps, the next one is a left one, where i and j of them are done.
fn is_left_next(m: usize, p: usize, i: usize, j: usize) -> bool
    requires m { m ≤ 1000000 }
    requires p { p ≤ 1000000 }
    requires i { i ≤ m }
    requires j { j ≤ p }
    ensures { IsTrue result ↔ IsLeftNext m p i j }
{
    i < m && (j == p || i * p <= j * m)
}

/// The next step, where i left and j right ones are done: the next gate of U, or the inverse of the next gate of V. It takes no memory.
pub fn next_turn(alloc: Global, us: &[Gate], vs: &[Gate], i: usize, j: usize) -> Turn
    requires few_us { length us.now ≤ 1000000 }
    requires few_vs { length vs.now ≤ 1000000 }
    requires i { i ≤ length us.now }
    requires j { j ≤ length vs.now }
    requires some { i + j < length us.now + length vs.now }
    ensures step { mixed (length us.now) (length vs.now) i j (drop i us.now) (drop j vs.now) ≡ step_of result.side result.gate
        ∷ mixed (length us.now) (length vs.now) (i + lefts result.side) (j + rights result.side) (drop (i + lefts result.side) us.now) (drop (j + rights result.side) vs.now) }
    ensures on { (n : ℕ) → All (IsOn n) us.now → All (IsOn n) vs.now → IsOn n result.gate }
    ensures i { i + lefts result.side ≤ length us.now }
    ensures j { j + rights result.side ≤ length vs.now }
{
    if is_left_next(us.len(), vs.len(), i, j) {
        let gate = &us[i];
        Turn {
            side: Side::Left,
            gate: gate.copied(alloc),
        }
    } else {
        let gate = &vs[j];
        Turn {
            side: Side::Right,
            gate: gate.copied(alloc).inverse(),
        }
    }
}

/// How many left steps a step on this side is.
pub fn left_steps(side: Side) -> usize
    ensures { result ≡ lefts side }
{
    match side {
        Side::Left => 1,
        Side::Right => 0,
    }
}

/// How many right steps a step on this side is.
pub fn right_steps(side: Side) -> usize
    ensures { result ≡ rights side }
{
    match side {
        Side::Left => 0,
        Side::Right => 1,
    }
}
