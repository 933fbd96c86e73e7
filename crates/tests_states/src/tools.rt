//! What the tests share: gates whose conditions are tested, and states.
//!
//! A call whose conditions don't hold is answered like want of memory, which no test expects.
ghost use Rattle.std.specs.Prelude.{◌≡◌, ◌≤◌, ◌<◌, true, length, IfSome};
ghost use Rattle.gate_set.specs.Matrix.{IsKind};
ghost use Rattle.gate_set.specs.Shape.{IsOn};

use amp_dense::{Amplitudes, Rules, Stop};
use bit_lists::Bits;
use gate_set::{Gate, Kind};
use ring_omega::Quad;
use state_update::SlicedState;
use std::alloc::Global;

pub const ONE: Quad = Quad {
    a: 0,
    b: 0,
    c: 0,
    d: 1,
};

/// A kind of gate, and qubits, of which it is on the first ones.
pub type Row = (Kind, [u8; 3]);

/// Whether it is a kind: the power of a phase is at most 7.
fn is_kind(kind: Kind) -> bool
    ensures { result ≡ true → IsKind kind }
{
    match kind {
        Kind::Phase(power) => power <= 7,
        _ => true,
    }
}

/// The gate of a kind on the first of four qubits, as many as it asks for, with so many of the next ones as further controls, if they are
/// different ones of `n`.
pub fn gate_under(alloc: Global, kind: Kind, controls: u8, on: [u8; 4], n: u8) -> Option<Gate>
    ensures { IfSome result (IsOn n) }
{
    if n > 64 || controls > 3 || !is_kind(kind) {
        return None;
    }
    let [a, b, c, d] = on;
    match kind.arity() + controls {
        1 => on_one(alloc, kind, a, n),
        2 => on_two(alloc, kind, a, b, n),
        3 => on_three(alloc, kind, a, b, c, n),
        4 => on_four(alloc, kind, [a, b, c, d], n),
        _ => None,
    }
}

fn on_one(alloc: Global, kind: Kind, a: u8, n: u8) -> Option<Gate>
    requires few { n ≤ 64 }
    requires kind { IsKind kind }
    ensures { IfSome result (IsOn n) }
{
    if kind.arity() == 1 && a < n {
        Some(Gate::new(alloc, kind, &[a]))
    } else {
        None
    }
}

fn on_two(alloc: Global, kind: Kind, a: u8, b: u8, n: u8) -> Option<Gate>
    requires few { n ≤ 64 }
    requires kind { IsKind kind }
    ensures { IfSome result (IsOn n) }
{
    if a >= n || b >= n || a == b {
        return None;
    }
    match kind.arity() {
        1 => Some(Gate::controlled(alloc, &[b], kind, &[a])),
        2 => Some(Gate::new(alloc, kind, &[a, b])),
        _ => None,
    }
}

fn on_three(alloc: Global, kind: Kind, a: u8, b: u8, c: u8, n: u8) -> Option<Gate>
    requires few { n ≤ 64 }
    requires kind { IsKind kind }
    ensures { IfSome result (IsOn n) }
{
    if a >= n || b >= n || c >= n || a == b || a == c || b == c {
        return None;
    }
    match kind.arity() {
        1 => Some(Gate::controlled(alloc, &[b, c], kind, &[a])),
        2 => Some(Gate::controlled(alloc, &[c], kind, &[a, b])),
        _ => Some(Gate::new(alloc, kind, &[a, b, c])),
    }
}

fn on_four(alloc: Global, kind: Kind, on: [u8; 4], n: u8) -> Option<Gate>
    requires few { n ≤ 64 }
    requires kind { IsKind kind }
    ensures { IfSome result (IsOn n) }
{
    let [a, b, c, d] = on;
    if a >= n || b >= n || c >= n || d >= n || a == b || a == c || b == c {
        return None;
    }
    if a == d || b == d || c == d {
        return None;
    }
    match kind.arity() {
        1 => Some(Gate::controlled(alloc, &[b, c, d], kind, &[a])),
        2 => Some(Gate::controlled(alloc, &[c, d], kind, &[a, b])),
        _ => Some(Gate::controlled(alloc, &[d], kind, &[a, b, c])),
    }
}

/// The gate of a row, if its qubits are different ones of `n`.
pub fn gate_on(alloc: Global, row: Row, n: u8) -> Option<Gate>
    ensures { IfSome result (IsOn n) }
{
    let (kind, [a, b, c]) = row;
    gate_under(alloc, kind, 0, [a, b, c, 0], n)
}

/// The list of so many zeros.
pub fn zeros_of(len: u8) -> Bits
    requires { len ≤ 128 }
    ensures { length result ≡ len }
{
    Bits::zeros(len)
}

/// The state of an input.
pub fn begun<A: Amplitudes>(alloc: Global, input: &Bits, rules: &Rules) -> Option<A>
    requires { length input.now ≤ A.MOST }
    ensures { IfSome result (λ s. length (A.standing s).input ≡ length input.now) }
{
    match A::start(alloc, input, rules) {
        Ok(state) => Some(state),
        Err(_) => None,
    }
}

/// Applies a gate.
pub fn applied<A: Amplitudes>(alloc: Global, state: &mut A, gate: &Gate) -> Result<(), Stop>
    requires { IsOn (length (A.standing state.old).input) gate.now }
    ensures { (A.standing state.new).input ≡ (A.standing state.old).input }
{
    if state.accepted() >= 2_000_000 {
        return Err(Stop::OutOfMemory);
    }
    state.apply(alloc, gate)
}

/// Where the width was refused, or 0.
pub fn refused_at(answer: &Result<(), Stop>) -> u32 {
    match answer {
        Ok(()) => 0,
        Err(Stop::Width { gate }) => *gate,
        Err(_) => u32::MAX,
    }
}

/// Applies the gate of a row. Whether it is there and accepted.
pub fn is_applied<A: Amplitudes>(alloc: Global, state: &mut A, row: Row, qubits: u8) -> bool
    requires { length (A.standing state.old).input ≡ qubits }
    ensures { length (A.standing state.new).input ≡ qubits }
{
    match gate_on(alloc, row, qubits) {
        Some(gate) => applied(alloc, state, &gate).is_ok(),
        None => false,
    }
}

/// Applies the gates of rows, one after another. Whether all are there and accepted.
pub fn are_applied<A: Amplitudes>(alloc: Global, state: &mut A, rows: &[Row], qubits: u8) -> bool
    requires { length (A.standing state.old).input ≡ qubits }
    ensures { length (A.standing state.new).input ≡ qubits }
{
    for row in rows {
        if !is_applied(alloc, state, *row, qubits) {
            return false;
        }
    }
    true
}

/// Whether two states of so many qubits have the same entries, exponent and number of gates.
pub fn are_same<A: Amplitudes, B: Amplitudes>(one: &A, other: &B, qubits: u8) -> bool
    requires few { qubits ≤ 12 }
    requires one { length (A.standing one.now).input ≡ qubits }
    requires other { length (B.standing other.now).input ≡ qubits }
{
    for place in 0..1usize << qubits {
        let x = Bits::at_place(place as u128, qubits);
        if one.entry(&x) != other.entry(&x) {
            return false;
        }
    }
    (one.exponent(), one.accepted()) == (other.exponent(), other.accepted())
}

/// How many nodes are held.
pub fn held(state: &SlicedState) -> u32 {
    let (diagrams, _quad) = state.parts();
    diagrams.store().held()
}

/// The place of a basis state, and how many bits it has; None where there is none.
pub fn placed(found: Option<Bits>) -> Option<(u128, u8)> {
    let x = found?;
    Some((x.place(), x.len()))
}
