//! The state on integers over diagrams against the dense one, on four qubits.
ghost use Rattle.std.specs.Prelude.{◌≡◌, ◌≤◌, ◌<◌, length, IfSome};
ghost use Rattle.gate_set.specs.Shape.{IsOn};

use crate::tools::{
    Row, applied, are_same, begun, gate_on, gate_under, placed, refused_at, zeros_of,
};
use amp_dense::{Amplitudes, DenseState, Rules};
use bit_lists::{Bits, Partial};
use gate_set::{Gate, Kind};
use probabilities::Weigh;
use ring_omega::Quad;
use state_update::SlicedState;
use std::alloc::Global;
use std::process::Abort;

/// The kind at a place of the list of all kinds, the phases last.
fn kind_at(place: u8) -> Kind {
    match place {
        0 => Kind::H,
        1 => Kind::T,
        2 => Kind::RxP,
        3 => Kind::Cx,
        4 => Kind::RyM,
        5 => Kind::Tdg,
        6 => Kind::Cswap,
        7 => Kind::S,
        8 => Kind::Y,
        9 => Kind::Swap,
        10 => Kind::RxM,
        11 => Kind::Cz,
        12 => Kind::Sdg,
        13 => Kind::Ccx,
        14 => Kind::RyP,
        15 => Kind::X,
        16 => Kind::Z,
        17 => Kind::Id,
        _ => Kind::Phase(place.wrapping_add(1) % 8),
    }
}

/// All orders of four qubits.
static ORDERS: [[u8; 4]; 24] = [
    [0, 1, 2, 3],
    [0, 1, 3, 2],
    [0, 2, 1, 3],
    [0, 2, 3, 1],
    [0, 3, 1, 2],
    [0, 3, 2, 1],
    [1, 0, 2, 3],
    [1, 0, 3, 2],
    [1, 2, 0, 3],
    [1, 2, 3, 0],
    [1, 3, 0, 2],
    [1, 3, 2, 0],
    [2, 0, 1, 3],
    [2, 0, 3, 1],
    [2, 1, 0, 3],
    [2, 1, 3, 0],
    [2, 3, 0, 1],
    [2, 3, 1, 0],
    [3, 0, 1, 2],
    [3, 0, 2, 1],
    [3, 1, 0, 2],
    [3, 1, 2, 0],
    [3, 2, 0, 1],
    [3, 2, 1, 0],
];

/// Gates one after another: of how many kinds, on as many qubits as they ask for, with how many further controls, and whether each is undone
/// before the next one.
#[derive(Clone, Copy)]
struct Plan {
    kinds: u8,
    controls: Controls,
    undone: bool,
}

/// So many further controls, or as many as four qubits leave.
#[derive(Clone, Copy)]
enum Controls {
    Exactly(u8),
    Others,
}

impl Controls {
    /// How many they are beside so many qubits.
    fn count(self, arity: u8) -> u8 {
        match self {
            Controls::Exactly(count) => count,
            Controls::Others => 4u8.saturating_sub(arity),
        }
    }
}

/// All kinds but most phases.
const KINDS: Plan = Plan {
    kinds: 19,
    controls: Controls::Exactly(0),
    undone: false,
};

/// The same, with all other qubits as further controls.
const GUARDED: Plan = Plan {
    kinds: 19,
    controls: Controls::Others,
    undone: false,
};

/// The gate at a number of a plan, if it has one there: each kind of it in each order.
fn gate_at(alloc: Global, plan: Plan, number: u16) -> Option<Gate>
    ensures { IfSome result (IsOn 4) }
{
    let on = ORDERS.get(usize::from(number / 26))?;
    let place = (number % 26) as u8;
    if place >= plan.kinds {
        return None;
    }
    let kind = kind_at(place);
    gate_under(alloc, kind, plan.controls.count(kind.arity()), *on, 4)
}

/// The same with the inverse of each gate behind it, if the plan undoes it.
fn there_and_back(alloc: Global, plan: Plan, number: u16) -> Option<Gate>
    ensures { IfSome result (IsOn 4) }
{
    if number % 2 == 0 {
        return gate_at(alloc, plan, number / 2);
    }
    if !plan.undone {
        return None;
    }
    let gate = gate_at(alloc, plan, number / 2)?;
    Some(gate.inverse())
}

/// Applies a gate to both states. Whether it is accepted, and they are the same after it.
fn are_same_after(
    alloc: Global,
    sliced: &mut SlicedState,
    dense: &mut DenseState,
    gate: &Gate,
) -> bool
    requires sliced { length sliced.old.input ≡ 4 }
    requires dense { length dense.old.input ≡ 4 }
    requires gate { IsOn 4 gate.now }
    ensures sliced { length sliced.new.input ≡ 4 }
    ensures dense { length dense.new.input ≡ 4 }
{
    let one = applied(alloc, sliced, gate).is_ok();
    let other = applied(alloc, dense, gate).is_ok();
    one && other && are_same(sliced, dense, 4)
}

/// The same of a gate that may be missing.
fn are_same_with(
    alloc: Global,
    sliced: &mut SlicedState,
    dense: &mut DenseState,
    gate: Option<Gate>,
) -> bool
    requires sliced { length sliced.old.input ≡ 4 }
    requires dense { length dense.old.input ≡ 4 }
    requires gate { IfSome gate (IsOn 4) }
    ensures sliced { length sliced.new.input ≡ 4 }
    ensures dense { length dense.new.input ≡ 4 }
{
    match gate {
        Some(gate) => are_same_after(alloc, sliced, dense, &gate),
        None => false,
    }
}

/// How many gates of a plan leave both states the same.
fn each_gate(alloc: Global, sliced: &mut SlicedState, dense: &mut DenseState, plan: Plan) -> u32
    requires sliced { length sliced.old.input ≡ 4 }
    requires dense { length dense.old.input ≡ 4 }
    ensures sliced { length sliced.new.input ≡ 4 }
    ensures dense { length dense.new.input ≡ 4 }
{
    let mut count = 0u32;
    for number in 0..1248u16 {
        let gate = there_and_back(alloc, plan, number);
        count = count.wrapping_add(u32::from(are_same_with(alloc, sliced, dense, gate)));
    }
    count
}

/// How many gates of rows leave both states the same.
fn each_row(alloc: Global, sliced: &mut SlicedState, dense: &mut DenseState, rows: &[Row]) -> u32
    requires sliced { length sliced.old.input ≡ 4 }
    requires dense { length dense.old.input ≡ 4 }
    ensures sliced { length sliced.new.input ≡ 4 }
    ensures dense { length dense.new.input ≡ 4 }
{
    let mut count = 0u32;
    for row in rows {
        let gate = gate_on(alloc, *row, 4);
        count = count.wrapping_add(u32::from(are_same_with(alloc, sliced, dense, gate)));
    }
    count
}

/// The entry at a place.
fn entry_at<A: Amplitudes>(state: &A, place: u8) -> Quad
    requires len { length (A.standing state.now).input ≡ 4 }
    requires place { place < 16 }
{
    state.entry(&Bits::at_place(u128::from(place), 4))
}

/// How many of the 120 pairs of entries are different.
fn different<A: Amplitudes>(state: &A) -> u32
    requires { length (A.standing state.now).input ≡ 4 }
{
    let mut count = 0u32;
    for pair in 0..256u16 {
        let (x, y) = ((pair / 16) as u8, (pair % 16) as u8);
        if x < y && entry_at(state, x) != entry_at(state, y) {
            count = count.wrapping_add(1);
        }
    }
    count
}

/// An even mixture of all basis states.
static EVEN: [Row; 4] = [
    (Kind::H, [0, 1, 2]),
    (Kind::H, [1, 2, 3]),
    (Kind::H, [2, 3, 0]),
    (Kind::H, [3, 0, 1]),
];

/// A state of which all entries are different, and none is zero.
static MIXED: [Row; 16] = [
    (Kind::H, [0, 1, 2]),
    (Kind::T, [0, 1, 2]),
    (Kind::H, [1, 2, 3]),
    (Kind::S, [1, 2, 3]),
    (Kind::H, [2, 3, 0]),
    (Kind::RyP, [3, 0, 1]),
    (Kind::T, [3, 0, 1]),
    (Kind::H, [3, 0, 1]),
    (Kind::Cx, [0, 3, 1]),
    (Kind::Ccx, [1, 3, 2]),
    (Kind::H, [0, 1, 2]),
    (Kind::T, [2, 3, 0]),
    (Kind::H, [2, 3, 0]),
    (Kind::Cx, [1, 0, 2]),
    (Kind::T, [0, 1, 2]),
    (Kind::H, [1, 2, 3]),
];

/// Turns and entangles four qubits.
static ENTANGLED: [Row; 11] = [
    (Kind::H, [0, 1, 2]),
    (Kind::T, [0, 1, 2]),
    (Kind::H, [0, 1, 2]),
    (Kind::H, [1, 2, 3]),
    (Kind::Cx, [0, 2, 1]),
    (Kind::T, [1, 2, 3]),
    (Kind::RyP, [1, 2, 3]),
    (Kind::Ccx, [0, 1, 3]),
    (Kind::H, [3, 0, 1]),
    (Kind::T, [3, 0, 1]),
    (Kind::H, [3, 0, 1]),
];

/// Applies H and T in turn to the first qubit, and Cx to the first two, until one is refused. The answer is where the width was refused, or 0.
fn until_refused<A: Amplitudes>(alloc: Global, state: &mut A) -> u32
    requires { length (A.standing state.old).input ≡ 4 }
    ensures { length (A.standing state.new).input ≡ 4 }
{
    for turn in 0..120u8 {
        let kind = match turn % 3 {
            0 => Kind::H,
            1 => Kind::T,
            _ => Kind::Cx,
        };
        let refused = refused_with(alloc, state, gate_on(alloc, (kind, [0, 1, 2]), 4));
        if refused != 0 {
            return refused;
        }
    }
    0
}

/// Applies a gate, if there is one. The answer is where the width was refused, or 0.
fn refused_with<A: Amplitudes>(alloc: Global, state: &mut A, gate: Option<Gate>) -> u32
    requires len { length (A.standing state.old).input ≡ 4 }
    requires gate { IfSome gate (IsOn 4) }
    ensures { length (A.standing state.new).input ≡ 4 }
{
    match gate {
        Some(gate) => refused_at(&applied(alloc, state, &gate)),
        None => u32::MAX,
    }
}

/// How many states are the same, and are refused a width at the same gate: one or none.
fn stops(alloc: Global, sliced: &mut SlicedState, dense: &mut DenseState) -> u32
    requires sliced { length sliced.old.input ≡ 4 }
    requires dense { length dense.old.input ≡ 4 }
    ensures sliced { length sliced.new.input ≡ 4 }
    ensures dense { length dense.new.input ≡ 4 }
{
    let wanted = until_refused(alloc, dense);
    let refused = until_refused(alloc, sliced);
    let stopped = wanted != 0 && wanted != u32::MAX && refused == wanted;
    u32::from(stopped && are_same(sliced, dense, 4))
}

/// The place of a basis state, how many bits it has, and its entry; None where there is none.
fn shown(found: Option<(Bits, Quad)>) -> Option<(u128, u8, Quad)> {
    let (x, e) = found?;
    Some((x.place(), x.len(), e))
}

/// Goes one step on.
fn advanced<A: Amplitudes>(
    rt: &impl Abort,
    state: &A,
    walk: &mut A::Walk,
) -> Option<(u128, u8, Quad)>
    requires { A.walks state.now walk.old }
    ensures { A.walks state.now walk.new }
{
    let Ok(found) = state.advance(walk) else {
        panic!(rt; "no memory");
    };
    shown(found)
}

/// Whether two walks, asked 18 times, come to the same basis states with the same entries.
fn are_same_steps<A: Amplitudes, B: Amplitudes>(
    rt: &impl Abort,
    alloc: Global,
    a: &A,
    b: &B,
) -> Option<bool> {
    let mut one = a.walk(alloc).ok()?;
    let mut other = b.walk(alloc).ok()?;
    let mut same = true;
    for _ in 0..18u8 {
        let step = advanced(rt, a, &mut one);
        same = same && step == advanced(rt, b, &mut other);
    }
    Some(same)
}

/// Whether the walks through both states are the same, and so are the last basis states and the numbers of them.
fn are_same_walks<A: Amplitudes, B: Amplitudes>(
    rt: &impl Abort,
    alloc: Global,
    a: &A,
    b: &B,
) -> bool {
    let one = (a.last_nonzero(alloc).map(placed), a.count_nonzero(alloc));
    let other = (b.last_nonzero(alloc).map(placed), b.count_nonzero(alloc));
    one == other && are_same_steps(rt, alloc, a, b) == Some(true)
}

/// A gate of each of 19 kinds on three qubits, and then on three others.
fn gate_before_walk(alloc: Global, number: u8) -> Option<Gate>
    ensures { IfSome result (IsOn 4) }
{
    let on = if number < 19 { [3, 1, 0] } else { [0, 2, 3] };
    gate_on(alloc, (kind_at(number % 19), on), 4)
}

/// How many times the walks are the same, at the start and after each gate.
fn each_walk(
    rt: &impl Abort,
    alloc: Global,
    sliced: &mut SlicedState,
    dense: &mut DenseState,
) -> u32
    requires sliced { length sliced.old.input ≡ 4 }
    requires dense { length dense.old.input ≡ 4 }
{
    let mut count = u32::from(are_same_walks(rt, alloc, sliced, dense));
    for number in 0..38u8 {
        let gate = gate_before_walk(alloc, number);
        let same = are_same_with(alloc, sliced, dense, gate);
        let walks = are_same_walks(rt, alloc, sliced, dense);
        count = count.wrapping_add(u32::from(same && walks));
    }
    count
}

/// What a digit to the base 3 fixes.
fn value(digit: u8) -> Option<bool> {
    match digit {
        0 => None,
        1 => Some(false),
        _ => Some(true),
    }
}

/// The list of fixed and free values that a number has as its digits to the base 3.
fn partial(number: u8) -> Partial
    ensures { length result ≡ 4 }
{
    let mut p = Partial::free(4);
    p.fix(0, value(number % 3));
    p.fix(1, value(number / 3 % 3));
    p.fix(2, value(number / 9 % 3));
    p.fix(3, value(number / 27 % 3));
    p
}

/// How many of the 81 partial lists have the same weight in both states.
fn each_weight<A: Weigh, B: Weigh>(alloc: Global, a: &A, b: &B) -> u32
    requires a { length (A.standing a.now).input ≡ 4 }
    requires b { length (B.standing b.now).input ≡ 4 }
{
    let mut count = 0u32;
    for number in 0..81u8 {
        let p = partial(number);
        let weight = a.weigh(alloc, &p);
        let same = weight.is_ok() && weight == b.weigh(alloc, &p);
        count = count.wrapping_add(u32::from(same));
    }
    count
}

/// What both states go through.
#[derive(Clone, Copy)]
enum Course {
    /// All kinds in all orders.
    Kinds,
    /// The same from an even mixture, with all other qubits as further controls.
    Guarded,
    /// Each kind in each order with so many further controls, from the same state, of which all entries are different.
    Controls(u8),
    /// Gates up to one that is refused a width.
    Width,
    /// Walks after gates.
    Walks,
    /// Weights after gates.
    Weights,
}

/// How many gates of a plan leave both states the same, with those before them, from a state of which all entries are different, and how
/// many pairs of entries are different before them and behind them.
fn from_different(
    alloc: Global,
    sliced: &mut SlicedState,
    dense: &mut DenseState,
    controls: u8,
) -> u32
    requires sliced { length sliced.old.input ≡ 4 }
    requires dense { length dense.old.input ≡ 4 }
{
    let plan = Plan {
        kinds: 26,
        controls: Controls::Exactly(controls),
        undone: true,
    };
    let before = each_row(alloc, sliced, dense, &MIXED);
    let pairs = different(dense);
    let gates = each_gate(alloc, sliced, dense, plan);
    let behind = different(dense);
    before
        .wrapping_add(pairs)
        .wrapping_add(gates)
        .wrapping_add(behind)
}

/// How many comparisons of a course come out right.
fn right(
    rt: &impl Abort,
    alloc: Global,
    sliced: &mut SlicedState,
    dense: &mut DenseState,
    course: Course,
) -> u32
    requires sliced { length sliced.old.input ≡ 4 }
    requires dense { length dense.old.input ≡ 4 }
{
    match course {
        Course::Kinds => each_gate(alloc, sliced, dense, KINDS),
        Course::Guarded => {
            let before = each_row(alloc, sliced, dense, &EVEN);
            before.wrapping_add(each_gate(alloc, sliced, dense, GUARDED))
        }
        Course::Controls(controls) => from_different(alloc, sliced, dense, controls),
        Course::Width => stops(alloc, sliced, dense),
        Course::Walks => each_walk(rt, alloc, sliced, dense),
        Course::Weights => {
            let before = each_row(alloc, sliced, dense, &ENTANGLED);
            before.wrapping_add(each_weight(alloc, sliced, dense))
        }
    }
}

/// How many comparisons of a course come out right beside a dense state, and how many gates are accepted.
fn beside(
    rt: &impl Abort,
    alloc: Global,
    dense: &mut DenseState,
    rules: &Rules,
    course: Course,
) -> Option<(u32, u32)>
    requires { length dense.old.input ≡ 4 }
{
    let mut sliced: SlicedState = begun(alloc, &zeros_of(4), rules)?;
    let right = right(rt, alloc, &mut sliced, dense, course);
    let got = (right, sliced.accepted());
    drop(sliced);
    Some(got)
}

/// The same beside one that begins with zeros.
fn on_four(rt: &impl Abort, rules: &Rules, alloc: Global, course: Course) -> Option<(u32, u32)> {
    let mut dense: DenseState = begun(alloc, &zeros_of(4), rules)?;
    let got = beside(rt, alloc, &mut dense, rules, course);
    drop(dense);
    got
}

#[test]
fn all_kinds_on_all_placements_of_four_qubits(rt: HostRuntime) {
    let got = on_four(&rt, &Rules::usual(), rt.alloc(), Course::Kinds);
    assert!(rt; got == Some((24 * 19, 24 * 19)));
}

#[test]
fn all_kinds_under_further_controls(rt: HostRuntime) {
    let got = on_four(&rt, &Rules::usual(), rt.alloc(), Course::Guarded);
    assert!(rt; got == Some((4 + 24 * 19, 4 + 24 * 19)));
}

/// What comes of so many gates from a state of which all 120 pairs of entries are different: each gate, and its inverse.
fn wanted(gates: u32) -> Option<(u32, u32)>
    requires { gates ≤ 1000 }
{
    Some((16 + 2 * gates + 240, 16 + 2 * gates))
}

// Of the 26 kinds, of which eight are phases, 21 are of one qubit, and three of two. Which of several further controls comes first
// doesn't matter: a gate does what its kind does where all are 1. Each order is tried all the same.
#[test]
fn each_kind_alone(rt: HostRuntime) {
    let got = on_four(&rt, &Rules::usual(), rt.alloc(), Course::Controls(0));
    assert!(rt; got == wanted(24 * 26));
}

#[test]
fn each_kind_under_one_further_control(rt: HostRuntime) {
    let got = on_four(&rt, &Rules::usual(), rt.alloc(), Course::Controls(1));
    assert!(rt; got == wanted(24 * 26));
}

#[test]
fn each_kind_under_two_further_controls(rt: HostRuntime) {
    let got = on_four(&rt, &Rules::usual(), rt.alloc(), Course::Controls(2));
    assert!(rt; got == wanted(24 * 24));
}

#[test]
fn each_kind_under_three_further_controls(rt: HostRuntime) {
    let got = on_four(&rt, &Rules::usual(), rt.alloc(), Course::Controls(3));
    assert!(rt; got == wanted(24 * 21));
}

/// The usual rules with another width.
fn of_width(width: u8) -> Rules
    requires least { 2 ≤ width }
    requires greatest { width ≤ 128 }
{
    Rules {
        width,
        nodes: 1_048_576,
        cache: 65_536,
        reclaim: 16,
        sift: 0,
    }
}

#[test]
fn width_stops_at_each_width(rt: HostRuntime) {
    for width in 2..9u8 {
        let got = on_four(&rt, &of_width(width), rt.alloc(), Course::Width);
        assert!(rt; matches!(got, Some((1, _))), "width {width}");
    }
}

#[test]
fn walks_of_four_qubits_both_ways(rt: HostRuntime) {
    let got = on_four(&rt, &Rules::usual(), rt.alloc(), Course::Walks);
    assert!(rt; got == Some((1 + 2 * 19, 2 * 19)));
}

#[test]
fn weights_of_four_qubits_both_ways(rt: HostRuntime) {
    let got = on_four(&rt, &Rules::usual(), rt.alloc(), Course::Weights);
    assert!(rt; got == Some((11 + 81, 11)));
}
