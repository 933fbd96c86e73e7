//! The greatest total weight: integers at the two states of one variable, given by their bits.
ghost use Rattle.std.specs.Prelude.{◌≡◌, length, IfOk};
ghost use Rattle.slice_quad.specs.Vectors.{Stands};

use crate::integers::stands;
use bit_lists::Partial;
use call_rows::{Page, Row};
use diagram_ops::Diagrams;
use node_store::{FALSE, Node, StoreStop, TRUE};
use slice_quad::{Four, SliceQuad};
use slice_vec::Slices;
use slice_weights::weigh;
use std::alloc::Global;

/// The weight of both states: the first coordinate is the same at both, and the others are 0 at the first state.
pub fn tell(row: &mut Row<'_>, page: &mut Page) {
    match Diagrams::new(page.alloc, 1, 16, 16) {
        Ok(mut d) => {
            tell_in(&mut d, row, page);
            drop(d);
        }
        Err(stop) => page.show(&stop),
    }
}

fn tell_in(d: &mut Diagrams, row: &mut Row<'_>, page: &mut Page)
    requires { length d.old.store.order ≡ 1 }
{
    match d.variable(0) {
        Ok(n) => tell_vector(d, n, row, page),
        Err(stop) => page.show(&stop),
    }
}

fn tell_vector(d: &Diagrams, n: Node, row: &mut Row<'_>, page: &mut Page)
    requires { length d.now.store.order ≡ 1 }
{
    match four_of(page.alloc, n, row) {
        Ok(four) => match vector_of(d, four) {
            Ok(q) => page.show(&weigh(page.alloc, d, &q, &Partial::free(1))),
            Err(stop) => page.show(&stop),
        },
        Err(stop) => page.show(&stop),
    }
}

fn four_of(alloc: Global, n: Node, row: &mut Row<'_>) -> Result<Four, StoreStop> {
    Ok(Four {
        a: number_at(alloc, row.number(), TRUE)?,
        b: number_at(alloc, row.number(), n)?,
        c: number_at(alloc, row.number(), n)?,
        d: number_at(alloc, row.number(), n)?,
    })
}

// The integer that is a number below 2^64 where a node is true, and else 0.
fn number_at(alloc: Global, number: i128, on: Node) -> Result<Slices, StoreStop> {
    let mut bits = Vec::new(alloc);
    for i in 0..65u8 {
        let bit = if (number >> i) % 2 == 1 { on } else { FALSE };
        if bits.push(bit).is_err() {
            return Err(StoreStop::OutOfMemory);
        }
    }
    Ok(Slices { bits })
}

// The vector of four integers, if they are of one width, and all nodes are live.
fn vector_of(d: &Diagrams, four: Four) -> Result<SliceQuad, StoreStop>
    ensures { IfOk result (Stands d.now.store) }
{
    let width = four.a.width();
    let same = four.b.width() == width && four.c.width() == width && four.d.width() == width;
    let live = stands(d, &four.a) && stands(d, &four.b) && stands(d, &four.c) && stands(d, &four.d);
    if !same || width < 2 || width > 128 || !live {
        return Err(StoreStop::OutOfMemory);
    }
    Ok(SliceQuad {
        four,
        exponent: 0,
        kept: FALSE,
    })
}
