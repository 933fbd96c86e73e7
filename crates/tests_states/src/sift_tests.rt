//! States whose order of variables changes by sifting.
ghost use Rattle.std.specs.Prelude.{◌≡◌, ◌≤◌, length};

use crate::limit_tests::is_natural;
use crate::tools::{Row, are_same, begun, is_applied, zeros_of};
use amp_dense::{Amplitudes, Rules};
use gate_set::Kind;
use state_update::SlicedState;
use std::alloc::Global;

/// Coefficients of 16 bits, with a limit on the nodes and a sift after every so many gates.
fn sifted(nodes: u32, sift: u32) -> Rules
    requires least { 64 ≤ nodes }
    requires greatest { nodes ≤ 16777216 }
    requires sift { sift ≤ 1000000 }
{
    Rules {
        width: 16,
        nodes,
        cache: 256,
        reclaim: 16,
        sift,
    }
}

/// The gate at a place of the circuit that pairs each of the first qubits with one of as many others: an H on each first one, and then a Cx
/// from it to the other.
fn pairing(pairs: u8, place: u8) -> Row {
    if place < pairs {
        (Kind::H, [place, 0, 0])
    } else {
        (Kind::Cx, [place - pairs, place, 0])
    }
}

/// Whether two states are the same after each gate of the circuit of three pairs.
fn are_same_pairs(alloc: Global, plain: &mut SlicedState, moved: &mut SlicedState) -> bool
    requires plain { length plain.old.input ≡ 6 }
    requires moved { length moved.old.input ≡ 6 }
{
    for place in 0..6u8 {
        let row = pairing(3, place);
        if !is_applied(alloc, plain, row, 6) || !is_applied(alloc, moved, row, 6) {
            return false;
        }
        if !are_same(plain, moved, 6) {
            return false;
        }
    }
    is_natural(&plain.order(), 6) && !is_natural(&moved.order(), 6)
}

/// Whether a state that is sifted after so many gates is the same as another one.
fn is_same_beside(alloc: Global, plain: &mut SlicedState, sift: u32) -> Option<bool>
    requires plain { length plain.old.input ≡ 6 }
    requires sift { sift ≤ 3 }
{
    let mut moved: SlicedState = begun(alloc, &zeros_of(6), &sifted(1024, sift))?;
    let same = are_same_pairs(alloc, plain, &mut moved);
    drop(moved);
    Some(same)
}

/// Whether it is the same as one that is never sifted.
fn is_same_sifted(alloc: Global, sift: u32) -> Option<bool>
    requires { sift ≤ 3 }
{
    let mut plain: SlicedState = begun(alloc, &zeros_of(6), &sifted(1024, 0))?;
    let same = is_same_beside(alloc, &mut plain, sift);
    drop(plain);
    same
}

#[test]
fn entries_are_the_same_in_other_orders(rt: HostRuntime) {
    for sift in 1..4u32 {
        assert!(rt;
            is_same_sifted(rt.alloc(), sift) == Some(true),
            "sift {sift}"
        );
    }
}

/// How many gates of the circuit of six pairs are accepted, up to the first one that is refused.
fn accepted<A: Amplitudes>(alloc: Global, state: &mut A) -> u8
    requires { length (A.standing state.old).input ≡ 12 }
{
    for place in 0..12u8 {
        if !is_applied(alloc, state, pairing(6, place), 12) {
            return place;
        }
    }
    12
}

/// The same of a state that begins with zeros.
fn accepted_once<A: Amplitudes + Drop>(alloc: Global, rules: &Rules) -> Option<u8>
    requires { 12 ≤ A.MOST }
{
    let mut state: A = begun(alloc, &zeros_of(12), rules)?;
    let count = accepted(alloc, &mut state);
    drop(state);
    Some(count)
}

// Where the first qubits stand above all others, the last pairs need twice as many nodes each.
#[test]
fn six_pairs_need_fewer_nodes_side_by_side(rt: HostRuntime) {
    let apart = accepted_once::<SlicedState>(rt.alloc(), &sifted(96, 0));
    let beside = accepted_once::<SlicedState>(rt.alloc(), &sifted(96, 1));
    assert!(rt; matches!(apart, Some(0..12)) && beside == Some(12));
}
