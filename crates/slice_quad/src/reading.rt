//! An entry.
ghost use Rattle.std.specs.Prelude.{◌≡◌, length};
ghost use Rattle.slice_quad.specs.Vectors.{Stands};
ghost use Rattle.slice_quad.specs.Walks.{entries_in};

use crate::quad::SliceQuad;
use bit_lists::Bits;
use diagram_ops::Diagrams;
use ring_omega::Quad;
use slice_vec::value_at;

/// The coefficients at `x`, where bit v is the value of variable v. At most one step a variable and bit, and no memory.
pub fn entry(d: &Diagrams, q: &SliceQuad, x: &Bits) -> Quad
    requires stands { Stands d.now.store q.now }
    requires len { length x.now ≡ length d.now.store.order }
    ensures { result ≡ entries_in d.now.store q.now.four x.now }
{
    Quad {
        a: value_at(d, &q.four.a, x),
        b: value_at(d, &q.four.b, x),
        c: value_at(d, &q.four.c, x),
        d: value_at(d, &q.four.d, x),
    }
}
