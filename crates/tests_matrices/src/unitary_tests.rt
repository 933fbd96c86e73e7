//! Matrices of all kinds of gates from both sides, the order of products, and the limit of the identity and of a step.
ghost use Rattle.std.specs.Prelude.{◌≡◌, ◌≤◌, ◌<◌, ℕ, length, IfSome, IfOk};
ghost use Rattle.gate_set.specs.Shape.{IsOn};

use crate::products::each_product;
use crate::tools::{Row, gate_of, kind_of};
use amp_dense::{Rules, Stop};
use bit_lists::Bits;
use comparison::Side;
use gate_set::{Entry, Gate, Kind};
use ring_omega::Quad;
use std::alloc::Global;
use unitary_update::SlicedMatrix;

/// Rules with so many nodes.
fn with_nodes(nodes: u32) -> Rules
    requires least { 64 ≤ nodes }
    requires greatest { nodes ≤ 1048576 }
{
    Rules {
        width: 128,
        nodes,
        cache: 65_536,
        reclaim: 16,
        sift: 0,
    }
}

/// The gate and the held nodes that a stop for want of nodes tells.
fn told(stop: &Stop) -> (u32, u32) {
    match stop {
        Stop::Nodes { gate, held, .. } => (*gate, *held),
        _ => (u32::MAX, u32::MAX),
    }
}

/// The identity, with so many nodes.
fn begun(alloc: Global, qubits: u8, nodes: u32) -> Result<SlicedMatrix, (u32, u32)>
    requires few { qubits ≤ 64 }
    requires least { 64 ≤ nodes }
    requires greatest { nodes ≤ 1048576 }
    ensures { IfOk result (λ m. m.qubits ≡ qubits) }
{
    match SlicedMatrix::identity(alloc, qubits, &with_nodes(nodes)) {
        Ok(matrix) => Ok(matrix),
        Err(stop) => Err(told(&stop)),
    }
}

/// Multiplies from a side.
pub fn multiplied(alloc: Global, m: &mut SlicedMatrix, side: Side, gate: &Gate) -> Result<(), Stop>
    requires { IsOn m.old.qubits gate.now }
    ensures { m.new.qubits ≡ m.old.qubits }
{
    if m.accepted() >= 2_000_000 {
        return Err(Stop::OutOfMemory);
    }
    match side {
        Side::Left => m.left(alloc, gate),
        Side::Right => m.right(alloc, gate),
    }
}

/// Multiplies by the gate of a row. Whether it is there and accepted.
pub fn is_multiplied(alloc: Global, m: &mut SlicedMatrix, qubits: u8, side: Side, row: Row) -> bool
    requires { m.old.qubits ≡ qubits }
    ensures { m.new.qubits ≡ qubits }
{
    match gate_of(alloc, row, qubits) {
        Some(gate) => multiplied(alloc, m, side, &gate).is_ok(),
        None => false,
    }
}

/// A power of ω.
fn omega(power: u8) -> Quad {
    let one = if power < 4 { 1 } else { -1 };
    let mut q = Quad::ZERO;
    match power % 4 {
        0 => q.d = one,
        1 => q.c = one,
        2 => q.b = one,
        _ => q.a = one,
    }
    q
}

/// The bits of qubits 2, 0 and 1 of a place of three qubits as a row of a matrix of that many, and the bits that it leaves.
fn part(arity: u8, place: u8) -> (u8, u8) {
    let first = place & 1;
    let second = place >> 2 & 1;
    let third = place >> 1 & 1;
    match arity {
        1 => (first, 2 * second + third),
        2 => (2 * first + second, third),
        _ => (4 * first + 2 * second + third, 0),
    }
}

/// The entry of the gate's matrix in this row and column.
fn table_entry(gate: &Gate, row: u8, column: u8) -> Quad {
    if row >= gate.side() || column >= gate.side() {
        return Quad::ZERO;
    }
    match gate.block_entry(row, column) {
        Entry::Zero => Quad::ZERO,
        Entry::Omega(power) => omega(power),
        Entry::Root2 => Quad {
            a: -1,
            b: 0,
            c: 1,
            d: 0,
        },
    }
}

/// The entry of the gate on qubits 2, 0 and 1 of three.
fn expected(gate: &Gate, row: u8, column: u8) -> Quad {
    let arity = gate.kind().arity();
    let (r, rest) = part(arity, row);
    let (c, other) = part(arity, column);
    if rest == other {
        table_entry(gate, r, c)
    } else {
        Quad::ZERO
    }
}

/// How many entries are those of the gate.
fn each_entry(m: &SlicedMatrix, gate: &Gate) -> u32
    requires { m.now.qubits ≡ 3 }
{
    let mut count = 0u32;
    for place in 0..64u8 {
        let (row, column) = (place / 8, place % 8);
        let x = Bits::at_place(u128::from(row), 3);
        let y = Bits::at_place(u128::from(column), 3);
        if m.entry(&x, &y) == expected(gate, row, column) {
            count = count.wrapping_add(1);
        }
    }
    count
}

/// How many entries are right after the step of a kind from a side, if the exponent is.
fn alone(alloc: Global, m: &mut SlicedMatrix, side: Side, kind: Kind) -> u32
    requires { m.old.qubits ≡ 3 }
    ensures { m.new.qubits ≡ 3 }
{
    let Some(gate) = gate_of(alloc, (kind, 0, [2, 0, 1, 0]), 3) else {
        return 0;
    };
    let done = multiplied(alloc, m, side, &gate).is_ok();
    if done && m.exponent() == u32::from(gate.half_power()) {
        each_entry(m, &gate)
    } else {
        0
    }
}

/// How many steps of a list are accepted.
fn each_step(alloc: Global, m: &mut SlicedMatrix, qubits: u8, steps: &[(Side, Row)]) -> u32
    requires { m.old.qubits ≡ qubits }
    ensures { m.new.qubits ≡ qubits }
{
    let mut count = 0u32;
    for (side, row) in steps {
        let accepted = is_multiplied(alloc, m, qubits, *side, *row);
        count = count.wrapping_add(u32::from(accepted));
    }
    count
}

/// The number of held nodes that a step tells which is refused for want of nodes.
fn stopped(alloc: Global, m: &mut SlicedMatrix, qubits: u8) -> u32
    requires { m.old.qubits ≡ qubits }
    ensures { m.new.qubits ≡ qubits }
{
    let Some(gate) = gate_of(alloc, (Kind::H, 0, [0, 0, 0, 0]), qubits) else {
        return 0;
    };
    match multiplied(alloc, m, Side::Left, &gate) {
        Err(stop) if told(&stop).0 == 1 => told(&stop).1,
        _ => 0,
    }
}

/// What is done with the identity.
#[derive(Clone, Copy)]
enum Course {
    /// One step of a kind.
    Alone(Side, Kind),
    /// The steps of a list.
    Steps(&'static [(Side, Row)]),
    /// A step that is refused.
    Stop,
    /// Each gate with so many further controls, from both sides.
    Products(u8),
}

/// How many nodes a stop tells, or how many steps or entries are right.
fn count(alloc: Global, m: &mut SlicedMatrix, qubits: u8, course: Course) -> u32
    requires { m.old.qubits ≡ qubits }
    ensures { m.new.qubits ≡ qubits }
{
    match course {
        Course::Alone(side, kind) if qubits == 3 => alone(alloc, m, side, kind),
        Course::Steps(steps) => each_step(alloc, m, qubits, steps),
        Course::Stop => stopped(alloc, m, qubits),
        Course::Products(controls) if qubits == 4 => each_product(alloc, m, controls),
        _ => 0,
    }
}

/// The entries at the first row and the next one, and at the first column and the next one.
fn corner(m: &SlicedMatrix, qubits: u8) -> [Quad; 4]
    requires some { 1 ≤ qubits }
    requires few { qubits ≤ 64 }
    requires qubits { m.now.qubits ≡ qubits }
{
    let zero = Bits::zeros(qubits);
    let mut one = Bits::zeros(qubits);
    one.set(qubits - 1, true);
    [
        m.entry(&zero, &zero),
        m.entry(&zero, &one),
        m.entry(&one, &zero),
        m.entry(&one, &one),
    ]
}

/// What is counted, the number of variables, the exponent, how many steps are accepted, and the corner.
type Shown = (u32, u8, u32, u32, [Quad; 4]);

/// What is shown once a course is done.
fn shown(alloc: Global, m: &mut SlicedMatrix, qubits: u8, course: Course) -> Shown
    requires some { 1 ≤ qubits }
    requires few { qubits ≤ 64 }
    requires qubits { m.old.qubits ≡ qubits }
{
    let count = count(alloc, m, qubits, course);
    let (diagrams, _quad) = m.parts();
    let variables = diagrams.store().order().len();
    let corner = corner(m, qubits);
    (count, variables, m.exponent(), m.accepted(), corner)
}

/// The same of the identity with so many nodes, or the stop that tells their want.
fn come(alloc: Global, qubits: u8, nodes: u32, course: Course) -> Result<Shown, (u32, u32)>
    requires some { 1 ≤ qubits }
    requires few { qubits ≤ 64 }
    requires least { 64 ≤ nodes }
    requires greatest { nodes ≤ 1048576 }
{
    let mut m = begun(alloc, qubits, nodes)?;
    let shown = shown(alloc, &mut m, qubits, course);
    drop(m);
    Ok(shown)
}

/// The same with many nodes. None where there are too few.
fn done(alloc: Global, qubits: u8, course: Course) -> Option<Shown>
    requires some { 1 ≤ qubits }
    requires few { qubits ≤ 64 }
{
    come(alloc, qubits, 1_048_576, course).ok()
}

/// How many entries are right, and how many steps are accepted.
fn counted(alloc: Global, qubits: u8, course: Course) -> Option<(u32, u32)>
    requires some { 1 ≤ qubits }
    requires few { qubits ≤ 64 }
{
    let (count, _, _, accepted, _) = done(alloc, qubits, course)?;
    Some((count, accepted))
}

#[test]
fn all_kinds_from_both_sides(rt: HostRuntime) {
    for number in 0..26u32 {
        let kind = kind_of(number);
        let left = counted(rt.alloc(), 3, Course::Alone(Side::Left, kind));
        let right = counted(rt.alloc(), 3, Course::Alone(Side::Right, kind));
        assert!(rt; left == Some((64, 1)) && right == left, "{number}");
    }
}

// 24 orders of the 26 kinds, of which 21 are of one qubit, and three of two. Which of several further controls comes first doesn't matter: a
// gate does what its kind does where all are 1. Each order is tried all the same. Before them there are 16 steps, and each gate is undone.
#[test]
fn each_kind_in_products(rt: HostRuntime) {
    let got = counted(rt.alloc(), 4, Course::Products(0));
    assert!(rt; got == Some((2 * 24 * 26, 16 + 4 * 24 * 26)));
}

#[test]
fn each_kind_under_one_further_control_in_products(rt: HostRuntime) {
    let got = counted(rt.alloc(), 4, Course::Products(1));
    assert!(rt; got == Some((2 * 24 * 26, 16 + 4 * 24 * 26)));
}

#[test]
fn each_kind_under_two_further_controls_in_products(rt: HostRuntime) {
    let got = counted(rt.alloc(), 4, Course::Products(2));
    assert!(rt; got == Some((2 * 24 * 24, 16 + 4 * 24 * 24)));
}

#[test]
fn each_kind_under_three_further_controls_in_products(rt: HostRuntime) {
    let got = counted(rt.alloc(), 4, Course::Products(3));
    assert!(rt; got == Some((2 * 24 * 21, 16 + 4 * 24 * 21)));
}

const T: Row = (Kind::T, 0, [0, 0, 0, 0]);

const TDG: Row = (Kind::Tdg, 0, [0, 0, 0, 0]);

const X: Row = (Kind::X, 0, [0, 0, 0, 0]);

/// The entries of one qubit after two steps.
fn pair(alloc: Global, steps: &'static [(Side, Row)]) -> Option<[Quad; 4]> {
    let (count, _, _, _, corner) = done(alloc, 1, Course::Steps(steps))?;
    if count == 2 { Some(corner) } else { None }
}

static LEFT_T_RIGHT_TDG: [(Side, Row); 2] = [(Side::Left, T), (Side::Right, TDG)];

static RIGHT_TDG_LEFT_T: [(Side, Row); 2] = [(Side::Right, TDG), (Side::Left, T)];

#[test]
fn t_on_both_sides(rt: HostRuntime) {
    let identity = Some([omega(0), Quad::ZERO, Quad::ZERO, omega(0)]);
    let one = pair(rt.alloc(), &LEFT_T_RIGHT_TDG);
    let other = pair(rt.alloc(), &RIGHT_TDG_LEFT_T);
    assert!(rt; one == identity && other == identity);
}

static LEFT_X_RIGHT_T: [(Side, Row); 2] = [(Side::Left, X), (Side::Right, T)];

static LEFT_X_LEFT_T: [(Side, Row); 2] = [(Side::Left, X), (Side::Left, T)];

#[test]
fn x_and_t_in_both_orders(rt: HostRuntime) {
    let one = pair(rt.alloc(), &LEFT_X_RIGHT_T);
    let other = pair(rt.alloc(), &LEFT_X_LEFT_T);
    assert!(rt; one == Some([Quad::ZERO, omega(1), omega(0), Quad::ZERO]));
    assert!(rt; other == Some([Quad::ZERO, omega(0), omega(1), Quad::ZERO]));
}

#[test]
fn three_nodes_a_qubit(rt: HostRuntime) {
    let stop = come(rt.alloc(), 22, 65, Course::Steps(&[]));
    assert!(rt; matches!(stop, Err((0, 65))));
    for nodes in 66..68u32 {
        assert!(rt;
            come(rt.alloc(), 22, nodes, Course::Steps(&[])).is_ok(),
            "{nodes}"
        );
    }
}

// The identity on 21 qubits takes 63 nodes of 64.
#[test]
fn a_step_without_room(rt: HostRuntime) {
    let got = come(rt.alloc(), 21, 64, Course::Stop);
    assert!(rt; matches!(got, Ok((64, 42, 0, 0, _))));
}

const TURN: Row = (Kind::H, 0, [63, 0, 0, 0]);

static TURNS: [(Side, Row); 2] = [(Side::Left, TURN), (Side::Right, TURN)];

#[test]
fn sixty_four_qubits(rt: HostRuntime) {
    let corner = [omega(0), Quad::ZERO, Quad::ZERO, omega(0)];
    let got = done(rt.alloc(), 64, Course::Steps(&TURNS));
    assert!(rt; got == Some((2, 128, 0, 2, corner)));
}
