//! One width for four integers.
ghost use Rattle.std.specs.Prelude.{◌≡◌, ℕ, ◌<◌, ◌≤◌, ◌↔◌, IfOk, length, max};
ghost use Rattle.diagram_model.specs.Stores.{Diagram, IsSound};
ghost use Rattle.slice_vec.specs.Slices.{StandsIn, IsSame};
ghost use Rattle.slice_quad.specs.declared.coord.Coord.{Coord};
ghost use Rattle.slice_quad.specs.Fours.{nodes_of};
ghost use Rattle.slice_quad.specs.Mix.{Vector};
ghost use Rattle.slice_quad.specs.Settled.{HasBits, AreSame, widest};
ghost use Rattle.slice_quad.specs.Vectors.{AreValues, FitsWidth};

use crate::four::Four;
use bit_lists::OutOfMemory;
use slice_vec::{Slices, trim};

/// How many bits the widest of the four has.
pub fn widest_of(f: &Four) -> usize
    ensures { result ≡ widest f.now }
{
    let low = f.a.width().max(f.b.width());
    let high = f.c.width().max(f.d.width());
    low.max(high)
}

/// Drops the bits that repeat the sign, down to two bits. The four are then as wide as their values ask for.
pub fn trim_four(f: &mut Four)
    requires some { HasBits f.old }
    ensures some { HasBits f.new }
    ensures values { (d : Diagram) (v : Vector) → IsSound d → AreValues d v f.old → AreValues d v f.new }
    ensures fits { (d : Diagram) (v : Vector) (w : ℕ) → IsSound d → AreValues d v f.old → 2 ≤ w → FitsWidth w v ↔ (widest f.new ≤ w) }
{
    trim(&mut f.a);
    trim(&mut f.b);
    trim(&mut f.c);
    trim(&mut f.d);
}

/// The integer with its sign repeated up to a width.
fn widened(x: Slices, width: usize) -> Result<Slices, OutOfMemory>
    requires some { 0 < length x }
    requires within { length x ≤ width }
    requires few { width ≤ 131 }
    ensures width { IfOk result (λ y. length y ≡ width) }
    ensures same { IfOk result (λ y. (d : Diagram) → StandsIn d x → IsSame d x y) }
{
    let from = x.width();
    let sign = x.bit(from - 1);
    let mut bits = x.bits;
    for _place in from..width {
        bits.push(sign)?;
    }
    Ok(Slices { bits })
}

/// The four with their signs repeated up to the widest of them, and up to two bits. Takes memory only where an
/// integer has no room for the signs.
pub fn evened(f: Four) -> Result<Four, OutOfMemory>
    requires some { HasBits f }
    requires few { widest f ≤ 131 }
    ensures width { IfOk result (λ g. (z : Coord) → length (nodes_of g z) ≡ max (widest f) 2) }
    ensures same { IfOk result (λ g. (d : Diagram) → ((z : Coord) → StandsIn d (nodes_of f z)) → AreSame d f g) }
{
    let width = widest_of(&f).max(2);
    let a = widened(f.a, width)?;
    let b = widened(f.b, width)?;
    let c = widened(f.c, width)?;
    let d = widened(f.d, width)?;
    Ok(Four { a, b, c, d })
}
