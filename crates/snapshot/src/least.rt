//! Whether a vector is settled: what its text alone doesn't tell.
ghost use Rattle.std.specs.Prelude.{◌≡◌, ◌≤◌, ◌<◌, true, false, length};
ghost use Rattle.diagram_model.specs.Stores.{Diagram, IsSound};
ghost use Rattle.slice_vec.specs.Slices.{StandsIn};
ghost use Rattle.slice_quad.specs.declared.coord.Coord.{Coord};
ghost use Rattle.slice_quad.specs.Fours.{nodes_of};
ghost use Rattle.slice_quad.specs.Vectors.{FitsWidth, Stands, vector_in};
ghost use Rattle.snapshot.specs.Snapshots.{AllEven, snapshot_of};
ghost use Rattle.snapshot.specs.Judging.{IsNarrow, IsReduced};

use slice_quad::{Four, SliceQuad};
use slice_vec::{all_even, fits};

/// Whether all four integers are signed numbers of `width` bits.
fn four_fit(f: &Four, width: u8) -> bool
    requires some { (z : Coord) → 0 < length (nodes_of f.now z) }
    requires two { 2 ≤ width }
    ensures yes { result ≡ true → (d : Diagram) → IsSound d → ((z : Coord) → StandsIn d (nodes_of f.now z)) → FitsWidth width (vector_in d f.now) }
    ensures other { result ≡ false → (d : Diagram) → IsSound d → ((z : Coord) → StandsIn d (nodes_of f.now z)) → FitsWidth width (vector_in d f.now) → ⊥ }
{
    if !fits(&f.a, width) {
        return false;
    }
    if !fits(&f.b, width) {
        return false;
    }
    if !fits(&f.c, width) {
        return false;
    }
    if !fits(&f.d, width) {
        return false;
    }
    true
}

/// Whether all four integers are even.
fn four_even(f: &Four) -> bool
    requires some { (z : Coord) → 0 < length (nodes_of f.now z) }
    ensures yes { result ≡ true → (d : Diagram) → IsSound d → ((z : Coord) → StandsIn d (nodes_of f.now z)) → AllEven (vector_in d f.now) }
    ensures other { result ≡ false → (d : Diagram) → IsSound d → ((z : Coord) → StandsIn d (nodes_of f.now z)) → AllEven (vector_in d f.now) → ⊥ }
{
    if !all_even(&f.a) {
        return false;
    }
    if !all_even(&f.b) {
        return false;
    }
    if !all_even(&f.c) {
        return false;
    }
    if !all_even(&f.d) {
        return false;
    }
    true
}

/// Whether no smaller width of at least 2 would do.
pub fn is_narrow(q: &SliceQuad) -> bool
    ensures yes { result ≡ true → (d : Diagram) → IsSound d → Stands d q.now → IsNarrow (snapshot_of d q.now) }
    ensures other { result ≡ false → (d : Diagram) → IsSound d → Stands d q.now → IsNarrow (snapshot_of d q.now) → ⊥ }
{
    let width = q.four.a.width() as u8;
    if width == 2 {
        return true;
    }
    if four_fit(&q.four, width - 1) {
        return false;
    }
    true
}

/// Whether no factor of 2 is left that could be taken out.
pub fn is_reduced(q: &SliceQuad) -> bool
    ensures yes { result ≡ true → (d : Diagram) → IsSound d → Stands d q.now → IsReduced (snapshot_of d q.now) }
    ensures other { result ≡ false → (d : Diagram) → IsSound d → Stands d q.now → IsReduced (snapshot_of d q.now) → ⊥ }
{
    if q.exponent < 2 {
        return true;
    }
    if four_even(&q.four) {
        return false;
    }
    true
}
