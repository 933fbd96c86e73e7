//! What is asked of a vector.
ghost use Rattle.std.specs.Prelude.{◌≡◌, ◌≤◌, length};
ghost use Rattle.slice_quad.specs.Vectors.{Stands};

use crate::walks::tell_walk;
use crate::weights::{tell_following, tell_outcomes, tell_total, tell_weights};
use bit_lists::Bits;
use call_rows::{Page, Row};
use diagram_ops::Diagrams;
use slice_quad::{Coord, SliceQuad, bits, entry, exponent, kept, next_nonzero, roots, width};
use slice_weights::count_nonzero;

pub fn ask(question: &str, d: &Diagrams, q: &SliceQuad, row: &mut Row<'_>, page: &mut Page)
    requires { Stands d.now.store q.now }
{
    let n = d.store().order().len();
    match question {
        "entry" => page.show(&entry(d, q, &row.bits_of(n))),
        "after" => page.show(&next_nonzero(d, q, Some(&row.bits_of(n)))),
        "exponent" => page.show(&exponent(q)),
        "held" => page.show(&(width(q), d.store().held())),
        "known" => tell_known(q, page),
        "walk" => tell_walk(d, q, page),
        "count" => tell_count(d, q, page),
        "total" => tell_total(d, q, page),
        "weights" => tell_weights(d, q, page),
        "following" => tell_following(d, q, &row.bits_of(n), page),
        "outcomes" => tell_outcomes(d, q, &row.bits_of(n), page),
        _ => page.text(" no such question"),
    }
}

// The kept function, whether a coordinate has the width of the vector, and whether there is a root for each of its bits and the kept
// function.
fn tell_known(q: &SliceQuad, page: &mut Page) {
    let wide = usize::from(width(q));
    page.show(&(kept(q), bits(q, Coord::C).width() == wide));
    match roots(page.alloc, q) {
        Ok(nodes) => page.show(&(nodes.len() == 4 * wide + 1)),
        Err(stop) => page.show(&stop),
    }
}

fn tell_count(d: &Diagrams, q: &SliceQuad, page: &mut Page)
    requires { Stands d.now.store q.now }
{
    if d.store().order().len() <= 127 {
        page.show(&count_nonzero(page.alloc, d, q));
    }
}
