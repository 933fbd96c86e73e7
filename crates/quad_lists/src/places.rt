//! The bits of a gate's qubits in basis states that are given by their places.
ghost use Rattle.std.specs.Prelude.{◌≡◌, ◌<◌, ◌≤◌, ◌^◌, ◌*◌, ◌+◌, List, Bool, length, All};
ghost use Rattle.bit_lists.specs.Lists.{bit_value, place_of, bits_at, with_bits};
ghost use Rattle.circuit_model.specs.Vector.{all_set};

use bit_lists::{bit_of, with_bit};

/// The place of the values at `on` of the list at a place: the row of a gate's matrix.
pub fn row_of(qubits: u8, place: u128, on: &[u8]) -> u8
    requires small { qubits ≤ 12 }
    requires few { length on.now ≤ 3 }
    requires below { All (λ q. q < qubits) on.now }
    ensures below { result < 2 ^ length on.now }
    ensures value { (x : List Bool) → length x ≡ qubits → place_of x ≡ place → place_of (bits_at x on.now) ≡ result }
{
    let mut row = 0;
    for q in on {
        row = with_last(row, bit_of(qubits, place, *q));
    }
    row
}

fn with_last(row: u8, b: bool) -> u8
    requires { row < 2 ^ 3 }
    ensures { result ≡ row * 2 + bit_value b }
{
    if b { row * 2 + 1 } else { row * 2 }
}

/// Whether all bits at `on` of the list at a place are 1.
pub fn all_set(qubits: u8, place: u128, on: &[u8]) -> bool
    requires small { qubits ≤ 12 }
    requires below { All (λ q. q < qubits) on.now }
    ensures { (x : List Bool) → length x ≡ qubits → place_of x ≡ place → all_set x on.now ≡ result }
{
    let mut rest = on;
    while let Some((q, after)) = rest.split_first() {
        if !bit_of(qubits, place, *q) {
            return false;
        }
        rest = after;
    }
    true
}

/// The place of the list whose bits at `on` are those of the list at place `col`, and whose others are those of the list at `place`.
pub fn place_with(qubits: u8, place: u128, on: &[u8], col: u8) -> u128
    requires small { qubits ≤ 12 }
    requires few { length on.now ≤ 3 }
    requires below { All (λ q. q < qubits) on.now }
    requires in_state { place < 2 ^ qubits }
    ensures in_state { result < 2 ^ qubits }
    ensures value { (x y : List Bool) → length x ≡ qubits → place_of x ≡ place → length y ≡ length on.now → place_of y ≡ col → place_of (with_bits x on.now y) ≡ result }
{
    let arity = on.len() as u8;
    let mut here = place;
    for (i, q) in on.iter().enumerate() {
        here = with_bit(qubits, here, *q, bit_of(arity, col as u128, i as u8));
    }
    here
}
