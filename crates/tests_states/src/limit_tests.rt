//! Circuits with as many nodes as they need, with fewer and with more.
ghost use Rattle.std.specs.Prelude.{◌≡◌, ◌≤◌, length, IfSome};
ghost use Rattle.gate_set.specs.Shape.{IsOn};

use crate::tools::{Row, applied, are_same, begun, gate_on, held, is_applied, zeros_of};
use amp_dense::{Amplitudes, DenseState, Rules, Stop};
use bit_lists::Order;
use gate_set::{Gate, Kind};
use state_update::SlicedState;
use std::alloc::Global;

/// A circuit of so many gates, drawn by a number.
#[derive(Clone, Copy)]
struct Drawn {
    qubits: u8,
    gates: u8,
    seed: u8,
}

/// Of each circuit its qubits, its gates, and the number that it is drawn by.
static CIRCUITS: [(u8, u8, u8); 10] = [
    (5, 25, 37),
    (5, 25, 32),
    (5, 25, 66),
    (5, 25, 62),
    (6, 18, 20),
    (6, 18, 6),
    (7, 19, 42),
    (7, 19, 13),
    (7, 19, 0),
    (7, 19, 64),
];

/// The kind that a number draws.
fn kind_of(number: u32) -> Kind {
    match number % 16 {
        0 => Kind::H,
        1 => Kind::T,
        2 => Kind::RyP,
        3 => Kind::Cx,
        4 => Kind::H,
        5 => Kind::Tdg,
        6 => Kind::RxP,
        7 => Kind::Ccx,
        8 => Kind::H,
        9 => Kind::S,
        10 => Kind::RyM,
        11 => Kind::Swap,
        12 => Kind::H,
        13 => Kind::T,
        14 => Kind::X,
        _ => Kind::Cz,
    }
}

/// The number that a place of a circuit draws.
fn mixed(seed: u8, place: u8) -> u32 {
    let number = u32::from(seed) * 256 + u32::from(place);
    let once = number.wrapping_mul(2_654_435_761);
    (once ^ (once >> 15)).wrapping_mul(2_246_822_519) >> 8
}

/// One of so many qubits, by eight bits of a number.
fn drawn_qubit(number: u32, qubits: u8) -> u8 {
    ((number % 256) as u8).checked_rem(qubits).unwrap_or(0)
}

/// The gate at a place of a circuit: first an H on each qubit, and then one on drawn qubits, which is an H on the first of them where two
/// are the same.
fn row_at(circuit: Drawn, place: u8) -> Row {
    if place < circuit.qubits {
        return (Kind::H, [place, 0, 0]);
    }
    let number = mixed(circuit.seed, place);
    let a = drawn_qubit(number / 16, circuit.qubits);
    let b = drawn_qubit(number / 4096, circuit.qubits);
    let c = drawn_qubit(number / 65_536, circuit.qubits);
    if a == b || a == c || b == c {
        (Kind::H, [a, 0, 0])
    } else {
        (kind_of(number), [a, b, c])
    }
}

/// Coefficients of 16 bits, with a limit on the nodes and a reclaim after every so many gates.
fn limited(nodes: u32, reclaim: u32) -> Rules
    requires least { 64 ≤ nodes }
    requires greatest { nodes ≤ 16777216 }
    requires reclaim { reclaim ≤ 1000000 }
{
    Rules {
        width: 16,
        nodes,
        cache: 256,
        reclaim,
        sift: 0,
    }
}

/// Applies a circuit's first gates. Whether all are accepted.
fn are_first_applied<A: Amplitudes>(alloc: Global, state: &mut A, circuit: Drawn, gates: u8) -> bool
    requires { length (A.standing state.old).input ≡ circuit.qubits }
    ensures { length (A.standing state.new).input ≡ circuit.qubits }
{
    for place in 0..gates {
        if !is_applied(alloc, state, row_at(circuit, place), circuit.qubits) {
            return false;
        }
    }
    true
}

/// How many nodes the gate at a place needs after a circuit's first ones, where before each gate those are freed that the state isn't stored
/// by. So as many are held after a gate as it needs.
fn needed_in(
    alloc: Global,
    state: &mut SlicedState,
    circuit: Drawn,
    gates: u8,
    place: u8,
) -> Option<u32>
    requires { length state.old.input ≡ circuit.qubits }
{
    let row = row_at(circuit, place);
    if are_first_applied(alloc, state, circuit, gates)
        && is_applied(alloc, state, row, circuit.qubits)
    {
        Some(held(state))
    } else {
        None
    }
}

/// The same of a state that has room for all nodes.
fn needed(alloc: Global, circuit: Drawn, gates: u8, place: u8) -> Option<u32>
    requires { circuit.qubits ≤ 12 }
{
    let rules = limited(1_048_576, 1);
    let mut state: SlicedState = begun(alloc, &zeros_of(circuit.qubits), &rules)?;
    let need = needed_in(alloc, &mut state, circuit, gates, place);
    drop(state);
    need
}

/// How many nodes each gate of a circuit needs, and 0 after its last one.
fn needs_of(alloc: Global, circuit: Drawn) -> Option<[u32; 32]>
    requires { circuit.qubits ≤ 12 }
{
    let mut needs = [0u32; 32];
    for place in 0..32u8 {
        if place < circuit.gates {
            needs[usize::from(place)] = needed(alloc, circuit, place, place)?;
        }
    }
    Some(needs)
}

/// The greatest number of nodes that a gate needs.
fn size_of(needs: &[u32; 32]) -> u32 {
    let mut size = 0;
    for need in *needs {
        size = need.max(size);
    }
    size
}

/// How many gates come before the first one that needs more nodes than the limit.
fn gates_within(needs: &[u32; 32], gates: u8, limit: u32) -> u8 {
    for place in 0..32u8 {
        if place < gates && needs[usize::from(place)] > limit {
            return place;
        }
    }
    gates
}

/// Whether an order is the natural one, of so many variables.
pub fn is_natural(order: &Order, vars: u8) -> bool {
    if order.len() != vars {
        return false;
    }
    for place in 0..vars {
        if order.at(place) != place {
            return false;
        }
    }
    true
}

/// Whether a stop at a gate is for want of nodes, in the natural order, with so many held.
fn is_stop(answer: &Result<(), Stop>, number: u32, nodes: u32, vars: u8) -> bool {
    match answer {
        Err(Stop::Nodes { gate, order, held }) => {
            *gate == number && *held == nodes && is_natural(order, vars)
        }
        _ => false,
    }
}

/// Whether the gate after a circuit's first ones is refused at the limit, with its number.
fn is_refused(
    alloc: Global,
    sliced: &mut SlicedState,
    circuit: Drawn,
    gates: u8,
    limit: u32,
) -> bool
    requires { length sliced.old.input ≡ circuit.qubits }
    ensures { length sliced.new.input ≡ circuit.qubits }
{
    match gate_on(alloc, row_at(circuit, gates), circuit.qubits) {
        Some(gate) => {
            let answer = applied(alloc, sliced, &gate);
            let number = u32::from(gates) + 1;
            is_stop(&answer, number, limit, circuit.qubits) && held(sliced) == limit
        }
        None => false,
    }
}

/// Whether both states are the same after a circuit's first gates, which both accept.
fn are_same_after(
    alloc: Global,
    sliced: &mut SlicedState,
    dense: &mut DenseState,
    circuit: Drawn,
    gates: u8,
) -> bool
    requires few { circuit.qubits ≤ 12 }
    requires sliced { length sliced.old.input ≡ circuit.qubits }
    requires dense { length dense.old.input ≡ circuit.qubits }
    ensures sliced { length sliced.new.input ≡ circuit.qubits }
    ensures dense { length dense.new.input ≡ circuit.qubits }
{
    let one = are_first_applied(alloc, sliced, circuit, gates);
    let other = are_first_applied(alloc, dense, circuit, gates);
    one && other && are_same(sliced, dense, circuit.qubits)
}

/// Whether a gate is accepted or not, as it should be, and both states are the same then.
fn is_accepted_or_not(
    alloc: Global,
    sliced: &mut SlicedState,
    dense: &mut DenseState,
    qubits: u8,
    row: Row,
    accepted: bool,
) -> bool
    requires few { qubits ≤ 12 }
    requires sliced { length sliced.old.input ≡ qubits }
    requires dense { length dense.old.input ≡ qubits }
    ensures sliced { length sliced.new.input ≡ qubits }
    ensures dense { length dense.new.input ≡ qubits }
{
    let one = is_applied(alloc, sliced, row, qubits);
    let mut other = false;
    if accepted {
        other = is_applied(alloc, dense, row, qubits);
    }
    one == accepted && other == accepted && are_same(sliced, dense, qubits)
}

/// After a refused gate the gate that does nothing is accepted. Of this gate and the next one, each tried until one is accepted, those are
/// that need no more nodes than the limit. The answer is whether one is.
fn later(
    alloc: Global,
    sliced: &mut SlicedState,
    dense: &mut DenseState,
    circuit: Drawn,
    gates: u8,
    limit: u32,
) -> Option<bool>
    requires few { circuit.qubits ≤ 12 }
    requires sliced { length sliced.old.input ≡ circuit.qubits }
    requires dense { length dense.old.input ≡ circuit.qubits }
{
    let nothing = (Kind::Id, [0, 0, 0]);
    if !is_accepted_or_not(alloc, sliced, dense, circuit.qubits, nothing, true) {
        return None;
    }
    for place in gates..circuit.gates.min(gates.saturating_add(2)) {
        let fits = needed(alloc, circuit, gates, place)? <= limit;
        let row = row_at(circuit, place);
        if !is_accepted_or_not(alloc, sliced, dense, circuit.qubits, row, fits) {
            return None;
        }
        if fits {
            return Some(true);
        }
    }
    Some(false)
}

/// What comes of a circuit at a limit under which so many gates are accepted: all of them, or the next one is refused. The answer is whether
/// a later one is accepted.
fn stopped(
    alloc: Global,
    sliced: &mut SlicedState,
    dense: &mut DenseState,
    circuit: Drawn,
    gates: u8,
    limit: u32,
) -> Option<bool>
    requires few { circuit.qubits ≤ 12 }
    requires sliced { length sliced.old.input ≡ circuit.qubits }
    requires dense { length dense.old.input ≡ circuit.qubits }
{
    if !are_same_after(alloc, sliced, dense, circuit, gates) {
        return None;
    }
    if gates == circuit.gates {
        return Some(false);
    }
    if !is_refused(alloc, sliced, circuit, gates, limit) {
        return None;
    }
    if !are_same(sliced, dense, circuit.qubits) {
        return None;
    }
    later(alloc, sliced, dense, circuit, gates, limit)
}

/// The same beside a dense state.
fn stopped_beside(
    alloc: Global,
    dense: &mut DenseState,
    circuit: Drawn,
    gates: u8,
    rules: &Rules,
) -> Option<bool>
    requires few { circuit.qubits ≤ 12 }
    requires dense { length dense.old.input ≡ circuit.qubits }
{
    let mut sliced: SlicedState = begun(alloc, &zeros_of(circuit.qubits), rules)?;
    let answer = stopped(alloc, &mut sliced, dense, circuit, gates, rules.nodes);
    drop(sliced);
    answer
}

/// The same of states that begin with zeros.
fn stopped_once(alloc: Global, circuit: Drawn, gates: u8, rules: &Rules) -> Option<bool>
    requires { circuit.qubits ≤ 12 }
{
    let mut dense: DenseState = begun(alloc, &zeros_of(circuit.qubits), rules)?;
    let answer = stopped_beside(alloc, &mut dense, circuit, gates, rules);
    drop(dense);
    answer
}

/// What comes of a circuit at a limit, by what each of its gates needs.
fn at_limit(
    alloc: Global,
    circuit: Drawn,
    needs: &[u32; 32],
    limit: u32,
    reclaim: u32,
) -> Option<bool>
    requires { circuit.qubits ≤ 12 }
{
    if limit < 64 || limit > 16_777_216 || reclaim > 1 {
        return None;
    }
    let gates = gates_within(needs, circuit.gates, limit);
    stopped_once(alloc, circuit, gates, &limited(limit, reclaim))
}

/// A circuit at all limits below its size, at its size, and a little above it. The answer is after how many of the refused gates a later
/// one is accepted.
fn each_limit(alloc: Global, circuit: Drawn, needs: &[u32; 32]) -> Option<u32>
    requires { circuit.qubits ≤ 12 }
{
    let size = size_of(needs);
    if size <= 64 || size > 1_000_000 {
        return None;
    }
    let mut count = 0u32;
    for limit in 64..size + 3 {
        let reclaim = if limit < size { limit } else { limit - size };
        let accepted = at_limit(alloc, circuit, needs, limit, reclaim % 2)?;
        count = count.wrapping_add(u32::from(accepted));
    }
    Some(count)
}

/// The same, and with as many nodes as are always enough, which its size is within.
fn each_limit_and_enough(alloc: Global, circuit: Drawn) -> Option<u32>
    requires { circuit.qubits ≤ 12 }
{
    let needs = needs_of(alloc, circuit)?;
    let enough = (64 * (16 + 2) + 130) << circuit.qubits;
    if size_of(&needs) > enough {
        return None;
    }
    at_limit(alloc, circuit, &needs, enough, 0)?;
    each_limit(alloc, circuit, &needs)
}

#[test]
fn ten_circuits_at_each_limit(rt: HostRuntime) {
    let mut later = 0u32;
    for &(qubits, gates, seed) in &CIRCUITS {
        assert!(rt; qubits <= 12 && gates <= 32);
        let circuit = Drawn {
            qubits,
            gates,
            seed,
        };
        let count = each_limit_and_enough(rt.alloc(), circuit);
        assert!(rt; count.is_some(), "{seed}");
        later = later.wrapping_add(count.unwrap_or(0));
    }
    assert!(rt; later > 0);
}
