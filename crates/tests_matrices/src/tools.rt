//! Kinds of gates by numbers, and gates whose conditions are tested.
ghost use Rattle.std.specs.Prelude.{◌≡◌, ◌≤◌, true, IfSome};
ghost use Rattle.gate_set.specs.Matrix.{IsKind};
ghost use Rattle.gate_set.specs.Shape.{IsOn};

use gate_set::{Gate, Kind};
use std::alloc::Global;

/// A kind of gate, how many further controls it has, and qubits: it is on the first ones, and the next ones are its further controls.
pub type Row = (Kind, u8, [u8; 4]);

/// The kind of this number: each kind once below 18, and from there Phase at all powers.
pub fn kind_of(number: u32) -> Kind {
    match number {
        0 => Kind::H,
        1 => Kind::T,
        2 => Kind::RxP,
        3 => Kind::Cx,
        4 => Kind::RyM,
        5 => Kind::Tdg,
        6 => Kind::Cswap,
        7 => Kind::S,
        8 => Kind::Y,
        9 => Kind::Swap,
        10 => Kind::RxM,
        _ => later_kind(number),
    }
}

fn later_kind(number: u32) -> Kind {
    match number {
        11 => Kind::Cz,
        12 => Kind::Sdg,
        13 => Kind::Ccx,
        14 => Kind::RyP,
        15 => Kind::X,
        16 => Kind::Z,
        17 => Kind::Id,
        18 => Kind::Phase(1),
        19 => Kind::Phase(3),
        20 => Kind::Phase(6),
        21 => Kind::Phase(0),
        22 => Kind::Phase(2),
        23 => Kind::Phase(4),
        24 => Kind::Phase(5),
        _ => Kind::Phase(7),
    }
}

/// Whether it is a kind: the power of a phase is at most 7.
fn is_kind(kind: Kind) -> bool
    ensures { result ≡ true → IsKind kind }
{
    match kind {
        Kind::Phase(power) => power <= 7,
        _ => true,
    }
}

/// The gate of a kind on the first of four qubits, as many as it asks for, with so many of the next ones as further controls, if they are
/// different ones of `n`.
fn gate_under(alloc: Global, kind: Kind, controls: u8, on: [u8; 4], n: u8) -> Option<Gate>
    ensures { IfSome result (IsOn n) }
{
    if n > 64 || controls > 3 || !is_kind(kind) {
        return None;
    }
    let [a, b, c, d] = on;
    match kind.arity() + controls {
        1 => on_one(alloc, kind, a, n),
        2 => on_two(alloc, kind, a, b, n),
        3 => on_three(alloc, kind, a, b, c, n),
        4 => on_four(alloc, kind, [a, b, c, d], n),
        _ => None,
    }
}

fn on_one(alloc: Global, kind: Kind, a: u8, n: u8) -> Option<Gate>
    requires few { n ≤ 64 }
    requires kind { IsKind kind }
    ensures { IfSome result (IsOn n) }
{
    if kind.arity() == 1 && a < n {
        Some(Gate::new(alloc, kind, &[a]))
    } else {
        None
    }
}

fn on_two(alloc: Global, kind: Kind, a: u8, b: u8, n: u8) -> Option<Gate>
    requires few { n ≤ 64 }
    requires kind { IsKind kind }
    ensures { IfSome result (IsOn n) }
{
    if a >= n || b >= n || a == b {
        return None;
    }
    match kind.arity() {
        1 => Some(Gate::controlled(alloc, &[b], kind, &[a])),
        2 => Some(Gate::new(alloc, kind, &[a, b])),
        _ => None,
    }
}

fn on_three(alloc: Global, kind: Kind, a: u8, b: u8, c: u8, n: u8) -> Option<Gate>
    requires few { n ≤ 64 }
    requires kind { IsKind kind }
    ensures { IfSome result (IsOn n) }
{
    if a >= n || b >= n || c >= n || a == b || a == c || b == c {
        return None;
    }
    match kind.arity() {
        1 => Some(Gate::controlled(alloc, &[b, c], kind, &[a])),
        2 => Some(Gate::controlled(alloc, &[c], kind, &[a, b])),
        _ => Some(Gate::new(alloc, kind, &[a, b, c])),
    }
}

fn on_four(alloc: Global, kind: Kind, on: [u8; 4], n: u8) -> Option<Gate>
    requires few { n ≤ 64 }
    requires kind { IsKind kind }
    ensures { IfSome result (IsOn n) }
{
    let [a, b, c, d] = on;
    if a >= n || b >= n || c >= n || d >= n || a == b || a == c || b == c {
        return None;
    }
    if a == d || b == d || c == d {
        return None;
    }
    match kind.arity() {
        1 => Some(Gate::controlled(alloc, &[b, c, d], kind, &[a])),
        2 => Some(Gate::controlled(alloc, &[c, d], kind, &[a, b])),
        _ => Some(Gate::controlled(alloc, &[d], kind, &[a, b, c])),
    }
}

/// The gate of a row, if its qubits are different ones of `n`.
pub fn gate_of(alloc: Global, row: Row, n: u8) -> Option<Gate>
    ensures { IfSome result (IsOn n) }
{
    let (kind, controls, on) = row;
    gate_under(alloc, kind, controls, on, n)
}
