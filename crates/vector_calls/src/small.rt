//! Turns, the steps of some gates, the identity of two qubits, and when upkeep is due.
ghost use Rattle.std.specs.Prelude.{◌≡◌, ◌≤◌, length};
ghost use Rattle.std.specs.List.{range_with_len};
ghost use Rattle.diagram_model.specs.Stores.{held};
ghost use Rattle.slice_quad.specs.Vectors.{Stands};

use bit_lists::Bits;
use call_rows::Page;
use diagram_ops::Diagrams;
use gate_set::{Gate, Kind};
use slice_gates::{Side, step_of};
use slice_quad::{Coord, SliceQuad, Step, bits, entry, exponent, identity, kept, rotate};
use step_upkeep::is_due;

/// Whether upkeep is due after each so many gates, after these.
pub fn tell_due(every: u32, gates: u32, page: &mut Page) {
    page.show(&is_due(every, gates));
}

/// The coordinate of each power of ω times a number, for each coordinate.
pub fn tell_turns(page: &mut Page) {
    for z in [Coord::A, Coord::B, Coord::C, Coord::D] {
        page.show(&(
            rotate::<0>(z),
            rotate::<1>(z),
            rotate::<2>(z),
            rotate::<3>(z),
        ));
        page.show(&(
            rotate::<4>(z),
            rotate::<5>(z),
            rotate::<6>(z),
            rotate::<7>(z),
        ));
        page.text("\n");
    }
}

/// The steps of some gates on three qubits' states, and on columns and rows.
pub fn tell_steps(page: &mut Page) {
    let alloc = page.alloc;
    let cx = step_of(&Gate::new(alloc, Kind::Cx, &[2, 0]), Side::State, 3);
    tell_step(&cx, page);
    let y = step_of(&Gate::new(alloc, Kind::Y, &[1]), Side::Columns, 4);
    tell_step(&y, page);
    let cswap = step_of(&Gate::new(alloc, Kind::Cswap, &[1, 2, 0]), Side::Rows, 6);
    tell_step(&cswap, page);
}

// The controls of a step, its target and half, or the variables that it exchanges, and its rows, if it has a matrix.
fn tell_step(s: &Step, page: &mut Page) {
    match s {
        Step::Mix {
            controls,
            target,
            rows,
            half,
        } => {
            page.bits(controls);
            page.show(&(*target, *half, *rows));
        }
        Step::Exchange {
            controls,
            first,
            second,
        } => {
            page.bits(controls);
            page.show(&(*first, *second));
        }
    }
    page.text("\n");
}

/// The identity of two qubits over so many nodes.
pub fn tell_identity(limit: u32, page: &mut Page) {
    if limit < 1 || limit > 6 {
        return;
    }
    match Diagrams::new(page.alloc, 4, limit, 16) {
        Ok(mut d) => {
            tell_identity_in(&mut d, page);
            drop(d);
        }
        Err(stop) => page.show(&stop),
    }
}

fn tell_identity_in(d: &mut Diagrams, page: &mut Page)
    requires empty { held d.old.store ≡ 0 }
    requires order { d.old.store.order ≡ range_with_len 0 4 }
{
    match identity(page.alloc, d, 2) {
        Ok(q) => tell_entries(d, &q, page),
        Err(stop) => page.show(&stop),
    }
}

// The last coordinate of each entry, how many nodes are held, the exponent, and whether the last coordinate is 1 where the kept function is
// true.
fn tell_entries(d: &Diagrams, q: &SliceQuad, page: &mut Page)
    requires stands { Stands d.now.store q.now }
    requires four { length d.now.store.order ≡ 4 }
{
    for place in 0..16u8 {
        page.show(&entry(d, q, &Bits::at_place(u128::from(place), 4)));
    }
    let ones = bits(q, Coord::D).bit(0) == kept(q);
    page.show(&(d.store().held(), exponent(q), ones));
}
