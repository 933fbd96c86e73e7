//! The texts of small vectors. What they have to be was found by hand from the bits of the amplitudes.
ghost use Rattle.std.specs.Prelude.{◌≡◌, ◌≤◌, ◌<◌, length};
ghost use Rattle.slice_quad.specs.Vectors.{Stands};

use crate::tools::{apply, controlled_flip, hadamard, quarter};
use bit_lists::Bits;
use diagram_ops::Diagrams;
use slice_quad::{SliceQuad, start};
use snapshot::{SaveStop, save_within};
use std::alloc::Global;
use std::process::Abort;

pub const NO_QUBITS: &[u8] =
    b"SLIQSTATE 1\nqubits 0\norder\nexponent 0\nwidth 2\nnodes 0\na 0 0\nb 0 0\nc 0 0\nd 1 0\nend\n";

pub const BELL: &[u8] =
    b"SLIQSTATE 1\nqubits 2\norder 0 1\nexponent 1\nwidth 2\nnodes 3\n1 1 0\n1 0 1\n0 2 3\na 0 0\nb 0 0\nc 0 0\nd 4 0\nend\n";

pub const SINGLET: &[u8] =
    b"SLIQSTATE 1\nqubits 2\norder 0 1\nexponent 1\nwidth 2\nnodes 4\n1 1 0\n1 0 1\n0 2 3\n0 0 3\na 0 0\nb 0 0\nc 0 0\nd 4 5\nend\n";

pub const WIDE: &[u8] =
    b"SLIQSTATE 1\nqubits 1\norder 0\nexponent 4\nwidth 3\nnodes 2\n0 1 0\n0 0 1\na 1 2 2\nb 1 3 3\nc 0 1 0\nd 0 3 0\nend\n";

/// The text is the wanted one, and isn't told where one byte less is allowed.
fn assert_text(rt: &impl Abort, alloc: Global, d: &Diagrams, q: &SliceQuad, wanted: &[u8])
    requires stands { Stands d.now.store q.now }
    requires few { length d.now.store.order ≤ 64 }
    requires some { 0 < length wanted.now }
{
    let Ok(text) = save_within(alloc, d, q, wanted.len()) else {
        panic!(rt; "no text");
    };
    assert!(rt; text.as_slice() == wanted);
    let short = save_within(alloc, d, q, wanted.len() - 1);
    assert!(rt; matches!(short, Err(SaveStop::TooLong)));
}

#[test]
fn no_qubits_have_their_text(rt: HostRuntime) {
    let alloc = rt.alloc();
    let Ok(mut d) = Diagrams::new(alloc, 0, 64, 16) else {
        panic!(rt; "no memory");
    };
    let Ok(q) = start(alloc, &mut d, &Bits::zeros(0)) else {
        panic!(rt; "no room");
    };
    assert_text(&rt, alloc, &d, &q, NO_QUBITS);
}

/// H on the first and a controlled X on the second qubit, from a basis state.
fn assert_pair(rt: &impl Abort, alloc: Global, first: bool, wanted: &[u8])
    requires some { 0 < length wanted.now }
{
    let Ok(mut d) = Diagrams::new(alloc, 2, 64, 16) else {
        panic!(rt; "no memory");
    };
    let mut input = Bits::zeros(2);
    input.set(0, first);
    let Ok(mut q) = start(alloc, &mut d, &input) else {
        panic!(rt; "no room");
    };
    apply(rt, &mut d, &mut q, &hadamard(2, 0));
    apply(rt, &mut d, &mut q, &controlled_flip(2, 0, 1));
    assert_text(rt, alloc, &d, &q, wanted);
}

#[test]
fn entangled_pairs_have_their_texts(rt: HostRuntime) {
    let alloc = rt.alloc();
    assert_pair(&rt, alloc, false, BELL);
    assert_pair(&rt, alloc, true, SINGLET);
}

/// T and then H on the only qubit.
fn turn(rt: &impl Abort, d: &mut Diagrams, q: &mut SliceQuad)
    requires stands { Stands d.old.store q.old }
    requires one { length d.old.store.order ≡ 1 }
    ensures stands { Stands d.new.store q.new }
    ensures one { length d.new.store.order ≡ 1 }
{
    apply(rt, d, q, &quarter(1, 0));
    apply(rt, d, q, &hadamard(1, 0));
}

/// The coefficients are (-1,1,2,0) and (1,-1,2,2) over √2 to the power 4.
#[test]
fn coefficients_of_three_bits_have_their_text(rt: HostRuntime) {
    let alloc = rt.alloc();
    let Ok(mut d) = Diagrams::new(alloc, 1, 64, 16) else {
        panic!(rt; "no memory");
    };
    let Ok(mut q) = start(alloc, &mut d, &Bits::zeros(1)) else {
        panic!(rt; "no room");
    };
    apply(&rt, &mut d, &mut q, &hadamard(1, 0));
    turn(&rt, &mut d, &mut q);
    turn(&rt, &mut d, &mut q);
    turn(&rt, &mut d, &mut q);
    turn(&rt, &mut d, &mut q);
    turn(&rt, &mut d, &mut q);
    assert_text(&rt, alloc, &d, &q, WIDE);
}
