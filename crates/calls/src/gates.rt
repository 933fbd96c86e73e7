//! Gates with their matrices, also under further controls, and circuits of them.
ghost use Rattle.std.specs.Prelude.{◌≡◌, ◌≤◌, ◌^◌, true};
ghost use Rattle.gate_set.specs.Matrix.{IsKind};

use crate::circuits::tell_gates;
use bit_lists::OutOfMemory;
use call_rows::{Page, Row};
use gate_set::{Circuit, Entry, Gate, Kind};
use std::alloc::Global;

pub fn tell(row: &mut Row<'_>, page: &mut Page) {
    match row.name() {
        "matrices" => tell_placed(page),
        "there and back" => tell_back(page),
        _ => page.text("no such call"),
    }
}

/// Numbers of further controls and kinds.
static PLACED: [(u8, Kind); 43] = [
    (0, Kind::Id),
    (0, Kind::X),
    (0, Kind::Y),
    (0, Kind::Z),
    (0, Kind::H),
    (0, Kind::S),
    (0, Kind::Sdg),
    (0, Kind::T),
    (0, Kind::Tdg),
    (0, Kind::RxP),
    (0, Kind::RxM),
    (0, Kind::RyP),
    (0, Kind::RyM),
    (0, Kind::Cx),
    (0, Kind::Cz),
    (0, Kind::Swap),
    (0, Kind::Ccx),
    (0, Kind::Cswap),
    (0, Kind::Phase(0)),
    (0, Kind::Phase(1)),
    (0, Kind::Phase(2)),
    (0, Kind::Phase(3)),
    (0, Kind::Phase(4)),
    (0, Kind::Phase(5)),
    (0, Kind::Phase(6)),
    (0, Kind::Phase(7)),
    (1, Kind::X),
    (1, Kind::Y),
    (1, Kind::H),
    (1, Kind::RxM),
    (1, Kind::RyP),
    (1, Kind::Tdg),
    (1, Kind::Phase(3)),
    (1, Kind::Cx),
    (1, Kind::Swap),
    (2, Kind::X),
    (2, Kind::H),
    (2, Kind::RxP),
    (2, Kind::Phase(5)),
    (2, Kind::Swap),
    (3, Kind::X),
    (3, Kind::H),
    (3, Kind::Phase(7)),
];

fn tell_placed(page: &mut Page) {
    for &(extra, kind) in &PLACED {
        if is_kind(kind) {
            let gate = placed(page.alloc, extra, kind);
            tell_matrix(&gate, page);
            tell_undone(gate, page);
        }
    }
}

// Whether it is a kind: the power of a phase is at most 7.
fn is_kind(kind: Kind) -> bool
    ensures { result ≡ true → IsKind kind }
{
    match kind {
        Kind::Phase(power) => power <= 7,
        _ => true,
    }
}

// A gate of this kind on the qubits after so many further controls, at most three.
fn placed(alloc: Global, extra: u8, kind: Kind) -> Gate
    requires { IsKind kind }
{
    match extra {
        0 => plain(alloc, kind),
        1 => under_one(alloc, kind),
        2 => under_two(alloc, kind),
        _ => under_three(alloc, kind),
    }
}

fn plain(alloc: Global, kind: Kind) -> Gate
    requires { IsKind kind }
{
    match kind.arity() {
        1 => Gate::new(alloc, kind, &[0]),
        2 => Gate::new(alloc, kind, &[0, 1]),
        _ => Gate::new(alloc, kind, &[0, 1, 2]),
    }
}

fn under_one(alloc: Global, kind: Kind) -> Gate
    requires { IsKind kind }
{
    match kind.arity() {
        1 => Gate::controlled(alloc, &[0], kind, &[1]),
        2 => Gate::controlled(alloc, &[0], kind, &[1, 2]),
        _ => Gate::controlled(alloc, &[0], kind, &[1, 2, 3]),
    }
}

fn under_two(alloc: Global, kind: Kind) -> Gate
    requires { IsKind kind }
{
    match kind.arity() {
        1 => Gate::controlled(alloc, &[0, 1], kind, &[2]),
        2 => Gate::controlled(alloc, &[0, 1], kind, &[2, 3]),
        _ => Gate::controlled(alloc, &[0, 1], kind, &[2, 3, 4]),
    }
}

fn under_three(alloc: Global, kind: Kind) -> Gate
    requires { IsKind kind }
{
    match kind.arity() {
        1 => Gate::controlled(alloc, &[0, 1, 2], kind, &[3]),
        2 => Gate::controlled(alloc, &[0, 1, 2], kind, &[3, 4]),
        _ => Gate::controlled(alloc, &[0, 1, 2], kind, &[3, 4, 5]),
    }
}

// A gate, its half power, whether its copy is the same, and its matrix row by row.
fn tell_matrix(gate: &Gate, page: &mut Page) {
    page.show(&(gate.kind(), gate.extra(), gate.on()));
    page.show(&(gate.half_power(), gate.copied(page.alloc) == *gate));
    let side = rows_of(gate.extra().len() as u8 + gate.kind().arity());
    for row in 0..side {
        page.text(" ");
        for col in 0..side {
            tell_entry(gate.entry(row, col), page);
        }
    }
}

// The number of rows of a matrix on so many qubits.
fn rows_of(qubits: u8) -> u16
    requires { qubits ≤ 11 }
    ensures { result ≡ 2 ^ qubits }
{
    1 << qubits
}

// A digit is that power of ω, `r` the root of two, a dot zero.
fn tell_entry(entry: Entry, page: &mut Page) {
    match entry {
        Entry::Zero => page.text("."),
        Entry::Omega(power) => page.put(&[b'0'.wrapping_add(power)]),
        Entry::Root2 => page.text("r"),
    }
}

// The inverse of a gate.
fn tell_undone(gate: Gate, page: &mut Page) {
    let back = gate.inverse();
    page.show(&(back.kind(), back.extra(), back.on()));
    page.text("\n");
}

// A circuit of two gates, and its inverse.
fn tell_back(page: &mut Page) {
    match forth(page.alloc) {
        Ok(circuit) => {
            tell_gates(&circuit, page);
            tell_gates(&circuit.inverse(), page);
        }
        Err(stop) => page.show(&stop),
    }
}

fn forth(alloc: Global) -> Result<Circuit, OutOfMemory> {
    let mut circuit = Circuit::new(alloc, 2)?;
    circuit.push(Gate::new(alloc, Kind::S, &[1]))?;
    circuit.push(Gate::new(alloc, Kind::Cx, &[0, 1]))?;
    Ok(circuit)
}
