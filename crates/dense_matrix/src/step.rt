//! One step on a list of all entries of a matrix.
ghost use Rattle.std.specs.Prelude.{◌≡◌, ◌<◌, ◌≤◌, ◌^◌, ◌*◌, ◌+◌, ◌++◌, ◌↔◌, List, Bool, length, map, All, IsTrue};
ghost use Rattle.ring_omega.specs.declared.quad.Quad.{Quad};
ghost use Rattle.bit_lists.specs.Lists.{place_of, all_lists};
ghost use Rattle.gate_set.specs.Matrix.{arity_of, IsPower};
ghost use Rattle.gate_set.specs.Shape.{IsOn};
ghost use Rattle.circuit_model.specs.Product.{sum_over};
ghost use Rattle.circuit_model.specs.Vector.{at};
ghost use Rattle.circuit_model.specs.Working.{FitsWidth};
ghost use Rattle.quad_lists.specs.Sums.{quad_value};
ghost use Rattle.comparison.specs.Products.{times_step, joined, by_position};
ghost use Rattle.comparison.specs.Sides.{step_of};
ghost use Rattle.dense_matrix.specs.Sides.{own, put, entry_on, part};

use crate::places::{column_place, joined_place, row_place};
use comparison::Side;
use gate_set::{Entry, Gate};
use quad_lists::{Bounds, ExactQuad, all_set, place_with, row_of};
use ring_omega::Quad;

/// Writes the entries after the step into `next`, as long as their coefficients fit the width, and says whether all did. The entry in a
/// row and a column stands at the place of the row's bits and then the column's.
pub fn write_raw(
    state: &[Quad],
    next: &mut [Quad],
    qubits: u8,
    side: Side,
    gate: &Gate,
    width: u8,
) -> bool
    requires small { qubits ≤ 6 }
    requires size { length state.now ≡ 2 ^ (qubits + qubits) }
    requires room { length next.old ≡ 2 ^ (qubits + qubits) }
    requires on { IsOn qubits gate.now }
    requires least { 2 ≤ width }
    requires greatest { width ≤ 128 }
    ensures raw { IsTrue result → next.new ≡ map (joined qubits (times_step (step_of side gate.now) (by_position (at state.now)))) (all_lists (qubits + qubits)) }
    ensures fits { IsTrue result ↔ FitsWidth (qubits + qubits) width (joined qubits (times_step (step_of side gate.now) (by_position (at state.now)))) }
{
    let bounds = Bounds::of(width);
    'places: for place in 0..state.len() {
        let row = row_place(qubits, place as u128);
        let column = column_place(qubits, place as u128);
        let Some(entry) = entry_after(state, qubits, side, gate, row, column).fitted(width, bounds)
        else {
            return false;
        };
        next[place] = entry;
    }
    true
}

// The entry after the step in one row and column: that of the kind's matrix where all further controls are 1, and elsewhere the old one,
// times √2 where the matrix leaves out a factor 1/√2.
fn entry_after(
    state: &[Quad],
    qubits: u8,
    side: Side,
    gate: &Gate,
    row: u128,
    column: u128,
) -> ExactQuad
    requires small { qubits ≤ 6 }
    requires size { length state.now ≡ 2 ^ (qubits + qubits) }
    requires on { IsOn qubits gate.now }
    requires row { row < 2 ^ qubits }
    requires column { column < 2 ^ qubits }
    ensures { (r c : List Bool) → length r ≡ qubits → length c ≡ qubits → place_of r ≡ row → place_of c ≡ column
        → quad_value result ≡ times_step (step_of side gate.now) (by_position (at state.now)) r c }
{
    let here = own(side, row, column);
    if all_set(qubits, here, gate.extra()) {
        return block_after(state, qubits, side, gate, row, column);
    }
    let place = joined_place(qubits, row, column);
    ExactQuad::entry_times(gate.beside(), state[place as usize])
}

// The entry after the kind's matrix in one row and column.
fn block_after(
    state: &[Quad],
    qubits: u8,
    side: Side,
    gate: &Gate,
    row: u128,
    column: u128,
) -> ExactQuad
    requires small { qubits ≤ 6 }
    requires size { length state.now ≡ 2 ^ (qubits + qubits) }
    requires on { IsOn qubits gate.now }
    requires row { row < 2 ^ qubits }
    requires column { column < 2 ^ qubits }
    ensures { (r c : List Bool) → length r ≡ qubits → length c ≡ qubits → place_of r ≡ row → place_of c ≡ column
        → quad_value result ≡ sum_over (all_lists (length gate.now.on)) (part side gate.now state.now r c) }
{
    let on = gate.on();
    let here = own(side, row, column);
    let bits = row_of(qubits, here, on);
    let mut sum = ExactQuad::ZERO;
    'terms: for y in 0..gate.side() {
        let Entry::Omega(j) = entry_on(side, gate, bits, y) else {
            continue;
        };
        let other = place_with(qubits, here, on, y);
        let from = place_put(qubits, side, row, column, other);
        sum = sum.plus_turned(j, state[from as usize]);
    }
    sum
}

// The one of row and column that a gate on this side reads and sets.
fn own(side: Side, row: u128, column: u128) -> u128
    ensures { result ≡ own side row column }
{
    match side {
        Side::Left => row,
        Side::Right => column,
    }
}

fn entry_on(side: Side, gate: &Gate, bits: u8, y: u8) -> Entry
    requires bits { bits < 2 ^ arity_of gate.now.kind }
    requires y { y < 2 ^ arity_of gate.now.kind }
    ensures value { result ≡ entry_on side gate.now.kind bits y }
    ensures power { IsPower result }
{
    match side {
        Side::Left => gate.block_entry(bits, y),
        Side::Right => gate.block_entry(y, bits),
    }
}

// The place of a row and a column, one of them replaced.
fn place_put(qubits: u8, side: Side, row: u128, column: u128, other: u128) -> u128
    requires small { qubits ≤ 6 }
    requires row { row < 2 ^ qubits }
    requires column { column < 2 ^ qubits }
    requires other { other < 2 ^ qubits }
    ensures in_matrix { result < 2 ^ (qubits + qubits) }
    ensures value { (r c z : List Bool) → length r ≡ qubits → length c ≡ qubits → length z ≡ qubits → place_of r ≡ row → place_of c ≡ column → place_of z ≡ other
        → place_of (put side r c z) ≡ result }
{
    match side {
        Side::Left => joined_place(qubits, other, column),
        Side::Right => joined_place(qubits, row, other),
    }
}
