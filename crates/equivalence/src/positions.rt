//! Positions of a matrix as lists of bits, the row's first, and the variables that stand for them.
ghost use Rattle.std.specs.Prelude.{◌≡◌, ℕ, ◌+◌, ◌<◌, ◌≤◌, length, take, drop};
ghost use Rattle.equivalence.specs.Positions.{variable_at, in_turns, AreFixed};

use bit_lists::{Bits, Partial};

/// The variable of a bit of a position: rows have the even variables, and columns the odd ones.
fn variable_at(qubits: u8, place: u8) -> u8
    requires few { qubits ≤ 64 }
    requires within { place < qubits + qubits }
    ensures value { result ≡ variable_at qubits place }
    ensures within { result < qubits + qubits }
{
    if place < qubits {
        2 * place
    } else {
        2 * (place - qubits) + 1
    }
}

/// The first bits of a position, at their variables, with the others free.
pub fn fixed_at(x: &Bits, qubits: u8, k: u8) -> Partial
    requires few { qubits ≤ 64 }
    requires len { length x.now ≡ qubits + qubits }
    requires within { k ≤ qubits + qubits }
    ensures { AreFixed qubits x.now k result }
{
    let mut p = Partial::free(qubits + qubits);
    for i in 0..k {
        p.fix(variable_at(qubits, i), Some(x.get(i)));
    }
    p
}

/// The values of the variables at a position.
pub fn values_at(x: &Bits, qubits: u8) -> Bits
    requires few { qubits ≤ 64 }
    requires len { length x.now ≡ qubits + qubits }
    ensures { result ≡ in_turns qubits x.now }
{
    let mut values = Bits::zeros(qubits + qubits);
    for i in 0..qubits + qubits {
        values.set(variable_at(qubits, i), x.get(i));
    }
    values
}

/// The row of a position.
pub fn row_of(x: &Bits, qubits: u8) -> Bits
    requires few { qubits ≤ 64 }
    requires len { length x.now ≡ qubits + qubits }
    ensures { result ≡ take qubits x.now }
{
    let mut row = Bits::zeros(qubits);
    for i in 0..qubits {
        row.set(i, x.get(i));
    }
    row
}

/// The column of a position.
pub fn column_of(x: &Bits, qubits: u8) -> Bits
    requires few { qubits ≤ 64 }
    requires len { length x.now ≡ qubits + qubits }
    ensures { result ≡ drop qubits x.now }
{
    let mut column = Bits::zeros(qubits);
    for i in 0..qubits {
        column.set(i, x.get(qubits + i));
    }
    column
}
