//! Texts that are loaded and saved again, and texts that are refused.
ghost use Rattle.std.specs.Prelude.{◌≡◌, ◌≤◌, ◌<◌, length};

use crate::saving_tests::{BELL, NO_QUBITS, SINGLET, WIDE};
use crate::tools::{apply, hadamard};
use amp_dense::Rules;
use bit_lists::Bits;
use diagram_ops::Diagrams;
use slice_quad::start;
use snapshot::{LoadStop, load_text, save_text, save_within};
use std::alloc::Global;
use std::process::Abort;

/// The Bell pair with the second variable on top.
const OTHER_ORDER: &[u8] =
    b"SLIQSTATE 1\nqubits 2\norder 1 0\nexponent 1\nwidth 2\nnodes 3\n0 1 0\n0 0 1\n1 2 3\na 0 0\nb 0 0\nc 0 0\nd 4 0\nend\n";

/// Zero everywhere, over √2.
const ZERO: &[u8] =
    b"SLIQSTATE 1\nqubits 1\norder 0\nexponent 1\nwidth 2\nnodes 0\na 0 0\nb 0 0\nc 0 0\nd 0 0\nend\n";

static BAD: [&[u8]; 14] = [
    b"",
    b"SLIQSTATE 2\nqubits 2\norder 0 1\nexponent 1\nwidth 2\nnodes 3\n1 1 0\n1 0 1\n0 2 3\na 0 0\nb 0 0\nc 0 0\nd 4 0\nend\n",
    b"SLIQSTATE 1\nqubits 2\norder 0 1\nexponent 01\nwidth 2\nnodes 3\n1 1 0\n1 0 1\n0 2 3\na 0 0\nb 0 0\nc 0 0\nd 4 0\nend\n",
    b"SLIQSTATE 1\nqubits 2\norder 0 1\nexponent 1\nwidth 2\nnodes 3\n1 0 1\n1 1 0\n0 3 2\na 0 0\nb 0 0\nc 0 0\nd 4 0\nend\n",
    b"SLIQSTATE 1\nqubits 2\norder 0 1\nexponent 1\nwidth 2\nnodes 3\n1 1 0\n1 0 1\n0 2 3\na 0 0\nb 0 0\nc 0 0\nd 4 0\n",
    b"SLIQSTATE 1\nqubits 2\norder 0 1\nexponent 1\nwidth 2\nnodes 3\n1 1 0\n1 0 1\n0 2 3\na 0 0\nb 0 0\nc 0 0\nd 4 0\nend\n\n",
    b"SLIQSTATE 1\nqubits 2\norder 0 1\nexponent 1\nwidth 3\nnodes 3\n1 1 0\n1 0 1\n0 2 3\na 0 0 0\nb 0 0 0\nc 0 0 0\nd 4 0 0\nend\n",
    b"SLIQSTATE 1\nqubits 2\norder 0 0\nexponent 1\nwidth 2\nnodes 3\n1 1 0\n1 0 1\n0 2 3\na 0 0\nb 0 0\nc 0 0\nd 4 0\nend\n",
    b"SLIQSTATE 1\nqubits 2\norder 0 1\nexponent 1\nwidth 2\nnodes 3\n1 4 0\n1 0 1\n0 2 3\na 0 0\nb 0 0\nc 0 0\nd 4 0\nend\n",
    b"SLIQSTATE 1\nqubits 2\norder 0 1\nexponent 1\nwidth 2\nnodes 3\n1 1 1\n1 0 1\n0 2 3\na 0 0\nb 0 0\nc 0 0\nd 4 0\nend\n",
    b"SLIQSTATE 1\nqubits 2\norder 0 1\nexponent 1\nwidth 2\nnodes 3\n1 1 0\n1 0 1\n0 2 3\na 0 0\nb 0 0\nc 0 0\nd 3 0\nend\n",
    b"SLIQSTATE 1\nqubits 2\norder 0 1\nexponent 1\nwidth 2\nnodes 99999999999999999999\n1 1 0\n1 0 1\n0 2 3\na 0 0\nb 0 0\nc 0 0\nd 4 0\nend\n",
    b"SLIQSTATE 1\nqubits 1\norder 0\nexponent 2\nwidth 2\nnodes 0\na 0 0\nb 0 0\nc 0 0\nd 0 0\nend\n",
    b"SLIQSTATE 1\nqubits 65\norder 0\nexponent 1\nwidth 2\nnodes 0\na 0 0\nb 0 0\nc 0 0\nd 0 0\nend\n",
];

/// What is loaded of the text has that text.
fn assert_loads(rt: &impl Abort, alloc: Global, text: &[u8]) {
    let Ok(loaded) = load_text(alloc, text, &Rules::usual()) else {
        panic!(rt; "not loaded");
    };
    let Ok(again) = save_text(alloc, &loaded.diagrams, &loaded.quad) else {
        panic!(rt; "not saved");
    };
    assert!(rt; again.as_slice() == text);
}

#[test]
fn texts_of_snapshots_are_loaded(rt: HostRuntime) {
    let alloc = rt.alloc();
    assert_loads(&rt, alloc, NO_QUBITS);
    assert_loads(&rt, alloc, BELL);
    assert_loads(&rt, alloc, SINGLET);
    assert_loads(&rt, alloc, WIDE);
    assert_loads(&rt, alloc, OTHER_ORDER);
    assert_loads(&rt, alloc, ZERO);
}

fn assert_bad(rt: &impl Abort, alloc: Global, text: &[u8]) {
    let loaded = load_text(alloc, text, &Rules::usual());
    assert!(rt; matches!(loaded, Err(LoadStop::Bad)));
}

#[test]
fn other_texts_are_bad(rt: HostRuntime) {
    let alloc = rt.alloc();
    for text in &BAD {
        assert_bad(&rt, alloc, text);
    }
}

/// Rules with few bits and nodes.
fn narrow(width: u8) -> Rules
    requires least { 2 ≤ width }
    requires greatest { width ≤ 128 }
{
    Rules {
        width,
        nodes: 64,
        cache: 16,
        reclaim: 0,
        sift: 0,
    }
}

/// 63 zeros and H on the last of 64 qubits, which was one: 127 nodes.
#[test]
fn texts_beyond_the_rules_are_refused(rt: HostRuntime) {
    let alloc = rt.alloc();
    let wide = load_text(alloc, WIDE, &narrow(2));
    assert!(rt; matches!(wide, Err(LoadStop::Width)));
    let Ok(mut d) = Diagrams::new(alloc, 64, 1024, 16) else {
        panic!(rt; "no memory");
    };
    let mut input = Bits::zeros(64);
    input.set(63, true);
    let Ok(mut q) = start(alloc, &mut d, &input) else {
        panic!(rt; "no room");
    };
    apply(&rt, &mut d, &mut q, &hadamard(64, 63));
    let Ok(text) = save_within(alloc, &d, &q, 100_000) else {
        panic!(rt; "no text");
    };
    let many = load_text(alloc, &text, &narrow(2));
    assert!(rt; matches!(many, Err(LoadStop::Nodes { held: 64, .. })));
}
