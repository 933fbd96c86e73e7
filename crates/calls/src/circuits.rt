//! Texts and their circuits, and the texts and circuits of `demo`.
ghost use Rattle.std.specs.Prelude.{◌≤◌};

use call_rows::{Page, Row};
use demo_reads::demo_circuit;
use demo_text::generated;
use gate_set::{Circuit, Gate};
use qasm_reader::read;

pub fn tell(row: &mut Row<'_>, page: &mut Page) {
    match row.name() {
        "read" => tell_read(row, page),
        "demo text" => tell_demo_text(row, page),
        "demo" => tell_demo(row, page),
        _ => page.text("no such call"),
    }
}

// The circuit of a text and the most qubits that it may have, or why it is refused.
fn tell_read(row: &mut Row<'_>, page: &mut Page) {
    let most = row.small(64);
    let text = row.word();
    if text.len() <= 16_777_216 {
        match read(page.alloc, text, most) {
            Ok(circuit) => tell_circuit(&circuit, page),
            Err(stop) => page.show(&stop),
        }
    }
}

// The number of qubits, which of them are measured, the number of gates, and the gates themselves where they are few.
fn tell_circuit(circuit: &Circuit, page: &mut Page) {
    page.show(&(circuit.qubits(), circuit.measured(), circuit.gates().len()));
    if circuit.gates().len() <= 100 {
        tell_gates(circuit, page);
    }
}

pub fn tell_gates(circuit: &Circuit, page: &mut Page) {
    for gate in circuit.gates() {
        tell_gate(gate, page);
    }
}

// The kind of a gate, its further controls and its kind's qubits.
pub fn tell_gate(gate: &Gate, page: &mut Page) {
    page.show(&(gate.kind(), gate.extra(), gate.on()));
}

// A text of `demo`, or of a long one its length, the sum of its bytes and its end.
fn tell_demo_text(row: &mut Row<'_>, page: &mut Page) {
    let qubits = row.small(64);
    let gates = row.count();
    let seed = u64::try_from(row.number()).unwrap_or(0);
    if 1 <= qubits {
        match generated(page.alloc, qubits, gates, seed) {
            Ok(text) => tell_text(&text, page),
            Err(stop) => page.show(&stop),
        }
    }
}

fn tell_text(text: &[u8], page: &mut Page) {
    if text.len() <= 1_000 {
        return page.put(text);
    }
    let mut sum: u64 = 0;
    for byte in text {
        sum = sum.wrapping_add(u64::from(*byte));
    }
    page.show(&(text.len(), sum));
    page.put(text.last_chunk::<25>().unwrap_or(&[0; 25]));
}

// The circuit of `demo`, told by its qubits, its number of gates, and its gates at the places of the last words.
fn tell_demo(row: &mut Row<'_>, page: &mut Page) {
    let qubits = row.small(64);
    let gates = row.count();
    let seed = u64::try_from(row.number()).unwrap_or(0);
    if 1 <= qubits && gates <= 500_000 {
        match demo_circuit(page.alloc, qubits, gates, seed) {
            Ok(circuit) => tell_some(&circuit, row, page),
            Err(stop) => page.show(&stop),
        }
    }
}

fn tell_some(circuit: &Circuit, row: &mut Row<'_>, page: &mut Page) {
    page.show(&(circuit.qubits(), circuit.gates().len()));
    for _ in 0..100 {
        if !row.is_over() {
            if let Some(gate) = circuit.gates().get(row.count() as usize) {
                tell_gate(gate, page);
            }
        }
    }
}
