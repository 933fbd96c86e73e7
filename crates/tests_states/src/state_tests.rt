//! States of one qubit, of forty and of sixty-four.
ghost use Rattle.std.specs.Prelude.{◌≡◌, ◌≤◌, length, IfSome};
ghost use Rattle.gate_set.specs.Shape.{IsOn};

use crate::tools::{ONE, Row, applied, begun, gate_on, held, is_applied, placed, zeros_of};
use amp_dense::{Amplitudes, Rules, Stop};
use bit_lists::{Bits, Partial};
use gate_set::{Gate, Kind};
use probabilities::{Weigh, WeighStop};
use ring_omega::{Quad, Weight};
use state_update::SlicedState;
use std::alloc::Global;

/// A basis state, if there is one: its place, and how many bits it has.
type Placed = Option<(u128, u8)>;

/// The basis state of one qubit after the given one whose entry isn't zero.
fn next_one<A: Amplitudes>(alloc: Global, state: &A, after: &Bits) -> Option<Placed>
    requires { length after.now ≡ length (A.standing state.now).input }
{
    let next = state.next_nonzero(alloc, Some(after)).ok()?;
    Some(placed(next))
}

/// The first one of all, and those after the two basis states.
fn next_ones<A: Amplitudes>(alloc: Global, state: &A) -> Option<(Placed, Placed, Placed)>
    requires { length (A.standing state.now).input ≡ 1 }
{
    let first = state.next_nonzero(alloc, None).ok()?;
    let second = next_one(alloc, state, &Bits::at_place(0, 1))?;
    let third = next_one(alloc, state, &Bits::at_place(1, 1))?;
    Some((placed(first), second, third))
}

/// The same once the qubit is turned.
fn turned<A: Amplitudes>(alloc: Global, state: &mut A) -> Option<(Placed, Placed, Placed)>
    requires { length (A.standing state.old).input ≡ 1 }
{
    if is_applied(alloc, state, (Kind::H, [0, 0, 0]), 1) {
        next_ones(alloc, state)
    } else {
        None
    }
}

/// The same of a state that begins with 0.
fn turned_once<A: Amplitudes + Drop>(alloc: Global) -> Option<(Placed, Placed, Placed)>
    requires { 1 ≤ A.MOST }
{
    let mut state: A = begun(alloc, &zeros_of(1), &Rules::usual())?;
    let got = turned(alloc, &mut state);
    drop(state);
    got
}

#[test]
fn walk_of_nonzero(rt: HostRuntime) {
    let want = (Some((0, 1)), Some((1, 1)), None);
    assert!(rt; turned_once::<SlicedState>(rt.alloc()) == Some(want));
}

/// Applies an H to the first of 64 qubits, and then a Cx from each to the next one. Whether all are accepted.
fn are_chained<A: Amplitudes>(alloc: Global, state: &mut A) -> bool
    requires { length (A.standing state.old).input ≡ 64 }
    ensures { length (A.standing state.new).input ≡ 64 }
{
    let mut all = is_applied(alloc, state, (Kind::H, [0, 0, 0]), 64);
    for q in 0..63u8 {
        all = is_applied(alloc, state, (Kind::Cx, [q, q + 1, 0]), 64) && all;
    }
    all
}

/// The entry of 64 qubits at a basis state, if there is one.
fn entry_at<A: Amplitudes>(state: &A, x: Option<Bits>) -> Option<(u128, Quad)>
    requires { length (A.standing state.now).input ≡ 64 }
{
    let x = x?;
    if x.len() == 64 {
        Some((x.place(), state.entry(&x)))
    } else {
        None
    }
}

/// How many gates are accepted, the exponent, the first entry, and the next one that isn't zero with its place.
type Chained = (u32, u32, Quad, Option<(u128, Quad)>);

/// What comes of the chain.
fn chained<A: Amplitudes>(alloc: Global, state: &mut A) -> Option<Chained>
    requires { length (A.standing state.old).input ≡ 64 }
{
    if !are_chained(alloc, state) {
        return None;
    }
    let zeros = zeros_of(64);
    let next = state.next_nonzero(alloc, Some(&zeros)).ok()?;
    let second = entry_at(state, next);
    Some((
        state.accepted(),
        state.exponent(),
        state.entry(&zeros),
        second,
    ))
}

/// The same of a state that begins with zeros.
fn chained_once<A: Amplitudes + Drop>(alloc: Global) -> Option<Chained>
    requires { 64 ≤ A.MOST }
{
    let mut state: A = begun(alloc, &zeros_of(64), &Rules::usual())?;
    let got = chained(alloc, &mut state);
    drop(state);
    got
}

#[test]
fn sixty_four_qubits_in_two_states(rt: HostRuntime) {
    let ones = u128::from(u64::MAX);
    let want = (64, 1, ONE, Some((ones, ONE)));
    assert!(rt; chained_once::<SlicedState>(rt.alloc()) == Some(want));
}

/// Whether a stop is for want of nodes at the first gate, with 64 held.
fn is_full(answer: &Result<(), Stop>) -> bool {
    match answer {
        Err(Stop::Nodes { gate, held, .. }) => *gate == 1 && *held == 64,
        _ => false,
    }
}

/// Whether a turn of the first of 64 qubits is refused for want of nodes; how many nodes are held, how many gates are accepted, the exponent,
/// and the first entry.
fn filled(alloc: Global, state: &mut SlicedState) -> Option<(bool, u32, u32, u32, Quad)>
    requires { length state.old.input ≡ 64 }
{
    let gate = gate_on(alloc, (Kind::H, [0, 0, 0]), 64)?;
    let refused = is_full(&applied(alloc, state, &gate));
    let first = state.entry(&zeros_of(64));
    Some((
        refused,
        held(state),
        state.accepted(),
        state.exponent(),
        first,
    ))
}

/// The same of a state with 64 nodes.
fn filled_once(alloc: Global) -> Option<(bool, u32, u32, u32, Quad)> {
    let rules = Rules {
        width: 128,
        nodes: 64,
        cache: 1,
        reclaim: 16,
        sift: 0,
    };
    let mut state: SlicedState = begun(alloc, &zeros_of(64), &rules)?;
    let got = filled(alloc, &mut state);
    drop(state);
    got
}

#[test]
fn a_full_store_leaves_the_state(rt: HostRuntime) {
    assert!(rt; filled_once(rt.alloc()) == Some((true, 64, 0, 0, ONE)));
}

/// Turns all of forty qubits. Whether all gates are accepted.
fn are_turned<A: Amplitudes>(alloc: Global, state: &mut A) -> bool
    requires { length (A.standing state.old).input ≡ 40 }
    ensures { length (A.standing state.new).input ≡ 40 }
{
    let mut all = true;
    for q in 0..40u8 {
        all = is_applied(alloc, state, (Kind::H, [q, 0, 0]), 40) && all;
    }
    all
}

/// The weight where one qubit is 1 and another one is 0, and the first outcome of the first and the last qubit.
type Weighed = (Result<Weight, WeighStop>, Placed);

/// What is weighed of forty qubits.
fn weighed<A: Weigh>(alloc: Global, state: &mut A) -> Option<Weighed>
    requires { length (A.standing state.old).input ≡ 40 }
{
    if !are_turned(alloc, state) {
        return None;
    }
    let mut p = Partial::free(40);
    p.fix(3, Some(true));
    p.fix(39, Some(false));
    let weight = state.weigh(alloc, &p);
    let measured = Bits::at_place((1 << 39) + 1, 40);
    let outcome = state.next_outcome(alloc, &measured, None).ok()?;
    Some((weight, placed(outcome)))
}

/// The same of a state that begins with zeros.
fn weighed_once<A: Weigh + Drop>(alloc: Global) -> Option<Weighed>
    requires { 40 ≤ A.MOST }
{
    let mut state: A = begun(alloc, &zeros_of(40), &Rules::usual())?;
    let got = weighed(alloc, &mut state);
    drop(state);
    got
}

// 2^40 states, of which 2^38 agree. Each entry is 1 over the 40th power of the root of 2.
#[test]
fn weight_of_forty_qubits_at_once(rt: HostRuntime) {
    let want = (Ok(Weight { a: 1 << 38, b: 0 }), Some((0, 2)));
    assert!(rt; weighed_once::<SlicedState>(rt.alloc()) == Some(want));
}

/// Gates that make no further parts, in turn.
fn cheap(i: u32) -> Kind {
    match i % 6 {
        0 => Kind::X,
        1 => Kind::S,
        2 => Kind::T,
        3 => Kind::Cx,
        4 => Kind::Ccx,
        _ => Kind::Swap,
    }
}

/// The gate at a place of a circuit of 64 qubits: two qubits are turned and copied to others, and then each kind that keeps the number of
/// basis states acts on running qubits.
fn row_at(i: u32) -> Row {
    match i {
        0 => (Kind::H, [5, 40, 0]),
        1 => (Kind::Cx, [5, 40, 0]),
        2 => (Kind::H, [30, 63, 0]),
        3 => (Kind::Cx, [30, 63, 0]),
        _ => {
            let q = (i / 6 % 62) as u8;
            (cheap(i), [q, q + 1, q + 2])
        }
    }
}

/// The gate at a turn of 100,000: forth through the circuit, and then its inverses, the last one first.
fn gate_at(alloc: Global, turn: u32) -> Option<Gate>
    ensures { IfSome result (IsOn 64) }
{
    if turn < 50_000 {
        return gate_on(alloc, row_at(turn), 64);
    }
    let gate = gate_on(alloc, row_at(99_999u32.saturating_sub(turn)), 64)?;
    Some(gate.inverse())
}

/// Applies a gate, if there is one. Whether it is accepted.
fn is_accepted<A: Amplitudes>(alloc: Global, state: &mut A, gate: Option<Gate>) -> bool
    requires len { length (A.standing state.old).input ≡ 64 }
    requires gate { IfSome gate (IsOn 64) }
    ensures { length (A.standing state.new).input ≡ 64 }
{
    match gate {
        Some(gate) => applied(alloc, state, &gate).is_ok(),
        None => false,
    }
}

/// Applies the gates at some turns. Whether all are accepted.
fn are_accepted<A: Amplitudes>(alloc: Global, state: &mut A, from: u32, to: u32) -> bool
    requires { length (A.standing state.old).input ≡ 64 }
    ensures { length (A.standing state.new).input ≡ 64 }
{
    let mut all = true;
    for turn in from..to {
        all = is_accepted(alloc, state, gate_at(alloc, turn)) && all;
    }
    all
}

/// How many entries aren't zero in the middle and at the end; and at the end the first of them, its entry, the exponent, and how many gates
/// are accepted.
type Returned = (u128, u128, Placed, Quad, u32, u32);

const INPUT: u128 = 0x0123_4567_89ab_cdef;

/// What comes of the way there and back.
fn returned<A: Amplitudes>(alloc: Global, state: &mut A) -> Option<Returned>
    requires { length (A.standing state.old).input ≡ 64 }
{
    let forth = are_accepted(alloc, state, 0, 50_000);
    let middle = state.count_nonzero(alloc).ok()?;
    if !are_accepted(alloc, state, 50_000, 100_000) || !forth {
        return None;
    }
    let end = state.count_nonzero(alloc).ok()?;
    let first = state.next_nonzero(alloc, None).ok()?;
    let entry = state.entry(&Bits::at_place(INPUT, 64));
    Some((
        middle,
        end,
        placed(first),
        entry,
        state.exponent(),
        state.accepted(),
    ))
}

/// The same of a state that begins with the input.
fn returned_once<A: Amplitudes + Drop>(alloc: Global) -> Option<Returned>
    requires { 64 ≤ A.MOST }
{
    let mut state: A = begun(alloc, &Bits::at_place(INPUT, 64), &Rules::usual())?;
    let got = returned(alloc, &mut state);
    drop(state);
    got
}

#[test]
fn hundred_thousand_gates_on_sixty_four_qubits(rt: HostRuntime) {
    let want = (4, 1, Some((INPUT, 64)), ONE, 0, 100_000);
    assert!(rt; returned_once::<SlicedState>(rt.alloc()) == Some(want));
}
