//! Products of a matrix on four qubits with gates from both sides, against dense states by columns.
ghost use Rattle.std.specs.Prelude.{◌≡◌, ◌≤◌, ◌<◌, length, IfSome};
ghost use Rattle.gate_set.specs.Shape.{IsOn};

use crate::tools::{Row, gate_of, kind_of};
use crate::unitary_tests::{is_multiplied, multiplied};
use amp_dense::{Amplitudes, DenseState, Rules, Stop};
use bit_lists::Bits;
use comparison::Side;
use gate_set::{Gate, Kind};
use ring_omega::lowest;
use std::alloc::Global;
use unitary_update::SlicedMatrix;

/// All orders of four qubits.
static ORDERS: [[u8; 4]; 24] = [
    [0, 1, 2, 3],
    [0, 1, 3, 2],
    [0, 2, 1, 3],
    [0, 2, 3, 1],
    [0, 3, 1, 2],
    [0, 3, 2, 1],
    [1, 0, 2, 3],
    [1, 0, 3, 2],
    [1, 2, 0, 3],
    [1, 2, 3, 0],
    [1, 3, 0, 2],
    [1, 3, 2, 0],
    [2, 0, 1, 3],
    [2, 0, 3, 1],
    [2, 1, 0, 3],
    [2, 1, 3, 0],
    [2, 3, 0, 1],
    [2, 3, 1, 0],
    [3, 0, 1, 2],
    [3, 0, 2, 1],
    [3, 1, 0, 2],
    [3, 1, 2, 0],
    [3, 2, 0, 1],
    [3, 2, 1, 0],
];

/// Gates whose product has no entry that is zero, and 64 different ones.
static FACTORS: [Row; 16] = [
    (Kind::RyP, 0, [0, 1, 2, 3]),
    (Kind::T, 0, [2, 3, 0, 1]),
    (Kind::Cx, 0, [2, 1, 0, 3]),
    (Kind::RyP, 0, [3, 0, 1, 2]),
    (Kind::T, 0, [3, 0, 1, 2]),
    (Kind::H, 0, [2, 3, 0, 1]),
    (Kind::H, 0, [1, 2, 3, 0]),
    (Kind::Ccx, 0, [0, 2, 3, 1]),
    (Kind::S, 0, [3, 0, 1, 2]),
    (Kind::RyP, 0, [0, 1, 2, 3]),
    (Kind::H, 0, [2, 3, 0, 1]),
    (Kind::T, 0, [1, 2, 3, 0]),
    (Kind::Cx, 0, [2, 3, 0, 1]),
    (Kind::T, 0, [3, 0, 1, 2]),
    (Kind::Ccx, 0, [0, 1, 3, 2]),
    (Kind::RyP, 0, [2, 3, 0, 1]),
];

/// The state that begins with a basis state of four qubits.
fn begun<A: Amplitudes>(alloc: Global, y: &Bits) -> Option<A>
    requires len { length y.now ≡ 4 }
    requires most { 4 ≤ A.MOST }
    ensures { IfSome result (λ s. length (A.standing s).input ≡ 4) }
{
    match A::start(alloc, y, &Rules::usual()) {
        Ok(state) => Some(state),
        Err(_) => None,
    }
}

/// Applies a gate.
fn applied<A: Amplitudes>(alloc: Global, state: &mut A, gate: &Gate) -> Result<(), Stop>
    requires { IsOn (length (A.standing state.old).input) gate.now }
    ensures { (A.standing state.new).input ≡ (A.standing state.old).input }
{
    if state.accepted() >= 2_000_000 {
        return Err(Stop::OutOfMemory);
    }
    state.apply(alloc, gate)
}

/// Applies the gate of a row. Whether it is there and accepted.
fn is_applied<A: Amplitudes>(alloc: Global, state: &mut A, row: Row) -> bool
    requires { length (A.standing state.old).input ≡ 4 }
    ensures { length (A.standing state.new).input ≡ 4 }
{
    match gate_of(alloc, row, 4) {
        Some(gate) => applied(alloc, state, &gate).is_ok(),
        None => false,
    }
}

/// Applies the factors. Whether all are accepted.
fn are_applied<A: Amplitudes>(alloc: Global, state: &mut A) -> bool
    requires { length (A.standing state.old).input ≡ 4 }
    ensures { length (A.standing state.new).input ≡ 4 }
{
    let mut all = true;
    for row in &FACTORS {
        all = is_applied(alloc, state, *row) && all;
    }
    all
}

/// Applies the factors and a gate, which acts last on the left of their product, and first on its right. Whether all are accepted.
fn is_product<A: Amplitudes>(alloc: Global, state: &mut A, side: Side, row: Row) -> bool
    requires { length (A.standing state.old).input ≡ 4 }
    ensures { length (A.standing state.new).input ≡ 4 }
{
    match side {
        Side::Left => are_applied(alloc, state) && is_applied(alloc, state, row),
        Side::Right => is_applied(alloc, state, row) && are_applied(alloc, state),
    }
}

/// How many entries of a column are those of a state.
fn each_entry<A: Amplitudes>(m: &SlicedMatrix, state: &A, y: &Bits) -> u32
    requires matrix { m.now.qubits ≡ 4 }
    requires state { length (A.standing state.now).input ≡ 4 }
    requires column { length y.now ≡ 4 }
{
    let mut count = 0u32;
    for place in 0..16u8 {
        let x = Bits::at_place(u128::from(place), 4);
        let entry = lowest(m.entry(&x, y), m.exponent());
        if entry == lowest(state.entry(&x), state.exponent()) {
            count = count.wrapping_add(1);
        }
    }
    count
}

/// The exponent of the product's column, if all entries are the matrix's.
fn exponent_of<A: Amplitudes>(
    alloc: Global,
    m: &SlicedMatrix,
    state: &mut A,
    y: &Bits,
    side: Side,
    row: Row,
) -> Option<u32>
    requires matrix { m.now.qubits ≡ 4 }
    requires state { length (A.standing state.old).input ≡ 4 }
    requires column { length y.now ≡ 4 }
{
    if is_product(alloc, state, side, row) && each_entry(m, state, y) == 16 {
        Some(state.exponent())
    } else {
        None
    }
}

/// The same of a state that begins with the column.
fn column<A: Amplitudes + Drop>(
    alloc: Global,
    m: &SlicedMatrix,
    place: u8,
    side: Side,
    row: Row,
) -> Option<u32>
    requires matrix { m.now.qubits ≡ 4 }
    requires place { place < 16 }
    requires most { 4 ≤ A.MOST }
{
    let y = Bits::at_place(u128::from(place), 4);
    let mut state: A = begun(alloc, &y)?;
    let exponent = exponent_of(alloc, m, &mut state, &y, side, row);
    drop(state);
    exponent
}

/// Whether the matrix is the product of the factors and a gate: all entries, and over the greatest exponent of a column.
fn are_columns(alloc: Global, m: &SlicedMatrix, side: Side, row: Row) -> bool
    requires { m.now.qubits ≡ 4 }
{
    let mut greatest = 0u32;
    for place in 0..16u8 {
        match column::<DenseState>(alloc, m, place, side, row) {
            Some(exponent) => greatest = greatest.max(exponent),
            None => return false,
        }
    }
    m.exponent() == greatest
}

/// Multiplies by the inverse of the gate of a row. Whether it is accepted.
fn is_undone(alloc: Global, m: &mut SlicedMatrix, side: Side, row: Row) -> bool
    requires { m.old.qubits ≡ 4 }
    ensures { m.new.qubits ≡ 4 }
{
    match gate_of(alloc, row, 4) {
        Some(gate) => {
            let inverse = gate.inverse();
            multiplied(alloc, m, side, &inverse).is_ok()
        }
        None => false,
    }
}

/// Whether the product with a gate is right. It is undone after it.
fn is_right(alloc: Global, m: &mut SlicedMatrix, side: Side, row: Row) -> bool
    requires { m.old.qubits ≡ 4 }
    ensures { m.new.qubits ≡ 4 }
{
    let done = is_multiplied(alloc, m, 4, side, row);
    let right = are_columns(alloc, m, side, row);
    done && is_undone(alloc, m, side, row) && right
}

/// The row at a number, of each kind in each order.
fn row_at(number: u16, controls: u8) -> Row {
    match ORDERS.get(usize::from(number / 26)) {
        Some(on) => (kind_of(u32::from(number % 26)), controls, *on),
        None => (Kind::Id, 0, [0, 0, 0, 0]),
    }
}

/// How many products with the factors are right, of each kind in each order from each side, where the further controls leave so many qubits.
pub fn each_product(alloc: Global, m: &mut SlicedMatrix, controls: u8) -> u32
    requires { m.old.qubits ≡ 4 }
    ensures { m.new.qubits ≡ 4 }
{
    if !are_multiplied(alloc, m) {
        return 0;
    }
    let mut count = 0u32;
    for number in 0..624u16 {
        let row = row_at(number, controls);
        let left = is_right(alloc, m, Side::Left, row);
        let right = is_right(alloc, m, Side::Right, row);
        count = count
            .wrapping_add(u32::from(left))
            .wrapping_add(u32::from(right));
    }
    count
}

/// Multiplies by the factors from the left. Whether all are accepted.
fn are_multiplied(alloc: Global, m: &mut SlicedMatrix) -> bool
    requires { m.old.qubits ≡ 4 }
    ensures { m.new.qubits ≡ 4 }
{
    let mut all = true;
    for row in &FACTORS {
        all = is_multiplied(alloc, m, 4, Side::Left, *row) && all;
    }
    all
}
