//! Factors of 2 that all coordinates share, taken out.
ghost use Rattle.std.specs.Prelude.{◌≡◌, ◌<◌, ◌≤◌, ◌↔◌, IsTrue, length};
ghost use Rattle.diagram_model.specs.Stores.{Diagram, IsSound};
ghost use Rattle.slice_vec.specs.Slices.{StandsIn, AreEven, IsDouble};
ghost use Rattle.slice_quad.specs.declared.coord.Coord.{Coord};
ghost use Rattle.slice_quad.specs.Mix.{Vector};
ghost use Rattle.slice_quad.specs.Fours.{nodes_of};
ghost use Rattle.slice_quad.specs.Vectors.{AreValues};
ghost use Rattle.slice_quad.specs.Settled.{HasBits, AreDoubles, IsSettled, widest};

use crate::four::Four;
use slice_vec::{Slices, all_even, halve};

/// Half of an integer that is even for each assignment. An integer of one bit is then 0, and stays.
fn half_of(x: &mut Slices)
    requires some { 0 < length x.old }
    ensures some { 0 < length x.new }
    ensures shorter { length x.new ≤ length x.old }
    ensures stands { (d : Diagram) → StandsIn d x.old → StandsIn d x.new }
    ensures half { (d : Diagram) → StandsIn d x.old → AreEven d x.old → IsDouble d x.old x.new }
{
    if x.width() >= 2 {
        halve(x);
    }
}

/// Half of each coordinate.
fn halve_four(f: &mut Four)
    requires some { HasBits f.old }
    ensures some { HasBits f.new }
    ensures narrower { widest f.new ≤ widest f.old }
    ensures half { (d : Diagram) → ((z : Coord) → StandsIn d (nodes_of f.old z)) → ((z : Coord) → AreEven d (nodes_of f.old z)) → AreDoubles d f.old f.new }
{
    half_of(&mut f.a);
    half_of(&mut f.b);
    half_of(&mut f.c);
    half_of(&mut f.d);
}

/// Whether all four are even for each assignment.
fn are_even(f: &Four) -> bool
    requires some { HasBits f.now }
    ensures { (d : Diagram) → IsSound d → ((z : Coord) → StandsIn d (nodes_of f.now z)) → IsTrue result ↔ ((z : Coord) → AreEven d (nodes_of f.now z)) }
{
    all_even(&f.a) && (all_even(&f.b) && (all_even(&f.c) && all_even(&f.d)))
}

/// Whether two roots are left, and all four are even.
pub fn goes_on(f: &Four, roots: u32) -> bool
    requires some { HasBits f.now }
    ensures roots { IsTrue result → 2 ≤ roots }
    ensures even { (d : Diagram) → IsSound d → ((z : Coord) → StandsIn d (nodes_of f.now z)) → IsTrue result → (z : Coord) → AreEven d (nodes_of f.now z) }
    ensures ended { (d : Diagram) → IsSound d → ((z : Coord) → StandsIn d (nodes_of f.now z)) → 2 ≤ roots → ((z : Coord) → AreEven d (nodes_of f.now z)) → IsTrue result }
{
    roots >= 2 && are_even(f)
}

/// Takes out factors of 2, two roots for each, until too few roots are left or some coefficient is odd: how many
/// roots are left. It takes no memory.
pub fn settle(f: &mut Four, roots: u32) -> u32
    requires some { HasBits f.old }
    ensures some { HasBits f.new }
    ensures narrower { widest f.new ≤ widest f.old }
    ensures settled { (d : Diagram) (v : Vector) → IsSound d → AreValues d v f.old → IsSettled d v roots f.new result }
{
    let mut left = roots;
    while goes_on(f, left) {
        halve_four(f);
        left -= 2;
    }
    left
}
