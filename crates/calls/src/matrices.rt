//! The comparison of circuits by all entries.
ghost use Rattle.std.specs.Prelude.{◌≤◌};

use amp_printer::Verdict;
use call_rows::{Page, Row};
use dense_matrix::compare;
use gate_set::Circuit;
use qasm_reader::{ReadStop, read};
use std::alloc::Global;

pub fn tell(row: &mut Row<'_>, page: &mut Page) {
    match row.name() {
        "alike" => tell_alike(row, page),
        "compare" => tell_compared(row, page),
        "back" => tell_back(row, page),
        _ => page.text("no such call"),
    }
}

/// The gates on three qubits, each kind on all its placements.
const GATES: &str = "id q[0]
id q[1]
id q[2]
x q[0]
x q[1]
x q[2]
y q[0]
y q[1]
y q[2]
z q[0]
z q[1]
z q[2]
h q[0]
h q[1]
h q[2]
s q[0]
s q[1]
s q[2]
sdg q[0]
sdg q[1]
sdg q[2]
t q[0]
t q[1]
t q[2]
tdg q[0]
tdg q[1]
tdg q[2]
rx(pi/2) q[0]
rx(pi/2) q[1]
rx(pi/2) q[2]
rx(-pi/2) q[0]
rx(-pi/2) q[1]
rx(-pi/2) q[2]
ry(pi/2) q[0]
ry(pi/2) q[1]
ry(pi/2) q[2]
ry(-pi/2) q[0]
ry(-pi/2) q[1]
ry(-pi/2) q[2]
cx q[0],q[1]
cx q[0],q[2]
cx q[1],q[0]
cx q[1],q[2]
cx q[2],q[0]
cx q[2],q[1]
cz q[0],q[1]
cz q[0],q[2]
cz q[1],q[0]
cz q[1],q[2]
cz q[2],q[0]
cz q[2],q[1]
swap q[0],q[1]
swap q[0],q[2]
swap q[1],q[0]
swap q[1],q[2]
swap q[2],q[0]
swap q[2],q[1]
ccx q[0],q[1],q[2]
ccx q[0],q[2],q[1]
ccx q[1],q[0],q[2]
ccx q[1],q[2],q[0]
ccx q[2],q[0],q[1]
ccx q[2],q[1],q[0]
cswap q[0],q[1],q[2]
cswap q[0],q[2],q[1]
cswap q[1],q[0],q[2]
cswap q[1],q[2],q[0]
cswap q[2],q[0],q[1]
cswap q[2],q[1],q[0]";

// Which gates are the same as a gate on three qubits up to a scalar.
fn tell_alike(row: &mut Row<'_>, page: &mut Page) {
    let gate = row.name();
    for other in GATES.lines() {
        if are_alike(page.alloc, gate, other) {
            page.text(" ");
            page.text(other);
            page.text(";");
        }
    }
}

fn are_alike(alloc: Global, gate: &str, other: &str) -> bool {
    match (circuit_of(alloc, gate), circuit_of(alloc, other)) {
        (Ok(u), Ok(v)) => is_same(alloc, &u, &v),
        _ => false,
    }
}

// The circuit of one gate on three qubits.
fn circuit_of(alloc: Global, gate: &str) -> Result<Circuit, ReadStop> {
    let mut text = Page::new(alloc);
    text.text("OPENQASM 2.0; qreg q[3]; ");
    text.text(gate);
    text.text(";");
    circuit_in(alloc, &text.bytes)
}

fn circuit_in(alloc: Global, text: &[u8]) -> Result<Circuit, ReadStop> {
    if text.len() > 16_777_216 {
        return Err(ReadStop::OutOfMemory);
    }
    read(alloc, text, 6)
}

fn is_same(alloc: Global, u: &Circuit, v: &Circuit) -> bool {
    if u.qubits() != v.qubits() || u.qubits() > 6 {
        return false;
    }
    matches!(compare(alloc, u, v, 128), Ok(Verdict::Scalar(..)))
}

// What is said of two circuits by a width.
fn tell_verdict(u: &Circuit, v: &Circuit, width: u8, page: &mut Page) {
    if u.qubits() != v.qubits() || u.qubits() > 6 || width < 2 || width > 128 {
        return;
    }
    match compare(page.alloc, u, v, width) {
        Ok(Verdict::Scalar(q, k)) => page.show(&(q, k)),
        Ok(Verdict::Differs { .. }) => page.text(" differ"),
        Err(stop) => page.show(&stop),
    }
}

fn tell_compared(row: &mut Row<'_>, page: &mut Page) {
    let width = row.small(128);
    match (
        circuit_in(page.alloc, row.word()),
        circuit_in(page.alloc, row.word()),
    ) {
        (Ok(u), Ok(v)) => tell_verdict(&u, &v, width, page),
        _ => page.text("no circuits"),
    }
}

// A circuit against itself, against its inverse, and against its inverse's inverse.
fn tell_back(row: &mut Row<'_>, page: &mut Page) {
    let text = row.word();
    match (circuit_in(page.alloc, text), circuit_in(page.alloc, text)) {
        (Ok(u), Ok(v)) => {
            tell_verdict(&u, &v, 128, page);
            let undone = v.inverse();
            tell_verdict(&u, &undone, 128, page);
            tell_verdict(&u, &undone.inverse(), 128, page);
        }
        _ => page.text("no circuits"),
    }
}
