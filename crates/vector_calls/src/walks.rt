//! Walks through the basis states whose entry isn't zero.
ghost use Rattle.std.specs.Prelude.{◌≡◌, length};
ghost use Rattle.std.specs.Option.{ForSome};
ghost use Rattle.slice_quad.specs.Vectors.{Stands};
ghost use Rattle.slice_weights.specs.Paths.{IsWalk};

use bit_lists::Bits;
use call_rows::Page;
use diagram_ops::Diagrams;
use slice_quad::{SliceQuad, next_nonzero};
use slice_weights::{Walk, last_nonzero};

/// Walks on 19 times, and tells the last basis state.
pub fn tell_walk(d: &Diagrams, q: &SliceQuad, page: &mut Page)
    requires { Stands d.now.store q.now }
{
    match Walk::begin(page.alloc, d, q) {
        Ok(mut walk) => tell_states(d, q, &mut walk, page),
        Err(stop) => page.show(&stop),
    }
    page.show(&last_nonzero(page.alloc, d, q));
}

// Each basis state with its entry, and whether it is the one that follows the last one; after the last one that there is none, and none
// follows.
fn tell_states(d: &Diagrams, q: &SliceQuad, walk: &mut Walk, page: &mut Page)
    requires stands { Stands d.now.store q.now }
    requires walk { IsWalk d.now.store q.now.four walk.old }
{
    let mut last: Option<Bits> = None;
    for _ in 0..19u8 {
        let Ok(found) = walk.advance(d, q) else {
            return page.text(" no memory");
        };
        let next = next_nonzero(d, q, last.as_ref()).unwrap_or(None);
        match found {
            Some((x, e)) => page.show(&(x.place(), x.len(), e, is_at(next, x.place()))),
            None => page.show(&next.is_none()),
        }
        if next.is_some() {
            last = next;
        }
    }
}

fn is_at(x: Option<Bits>, place: u128) -> bool {
    match x {
        Some(x) => x.place() == place,
        None => false,
    }
}
