//! Verdicts over diagrams against those over lists of all entries, with and without sifts, and a gate planted in a circuit of 20 qubits.
ghost use Rattle.std.specs.Prelude.{◌≡◌, ◌≤◌, ◌<◌, IfSome};
ghost use Rattle.gate_set.specs.Shape.{IsOn};

use crate::tools::{Row, gate_of, kind_of};
use amp_dense::Rules;
use amp_printer::Verdict;
use bit_lists::Bits;
use equivalence::compare;
use gate_set::{Circuit, Kind};
use ring_omega::Quad;
use std::alloc::Global;

/// A number drawn by a linear congruential generator.
fn drawn(seed: &mut u32, below: u32) -> u32
    requires { 1 ≤ below }
    ensures { result < below }
{
    *seed = seed.wrapping_mul(1_664_525).wrapping_add(1_013_904_223);
    (*seed >> 8) % below
}

/// Further controls and qubits of three, by the number of the kind's qubits and a drawn number.
static PLACES: [[(u8, [u8; 4]); 6]; 3] = [
    [
        (0, [0, 1, 2, 3]),
        (0, [1, 2, 0, 3]),
        (0, [2, 0, 1, 3]),
        (1, [0, 1, 2, 3]),
        (2, [1, 2, 0, 3]),
        (1, [2, 0, 1, 3]),
    ],
    [
        (0, [0, 1, 2, 3]),
        (0, [1, 2, 0, 3]),
        (0, [2, 0, 1, 3]),
        (1, [0, 1, 2, 3]),
        (1, [1, 2, 0, 3]),
        (1, [2, 0, 1, 3]),
    ],
    [
        (0, [0, 1, 2, 3]),
        (0, [1, 2, 0, 3]),
        (0, [2, 0, 1, 3]),
        (0, [2, 0, 1, 3]),
        (0, [2, 0, 1, 3]),
        (0, [2, 0, 1, 3]),
    ],
];

/// Adds the gate of a row. Whether it is there and added.
fn is_added(alloc: Global, circuit: &mut Circuit, row: Row) -> bool {
    if circuit.gates().len() >= 1_000_000 {
        return false;
    }
    match gate_of(alloc, row, circuit.qubits()) {
        Some(gate) => circuit.push(gate).is_ok(),
        None => false,
    }
}

/// A drawn gate on three qubits.
fn drawn_row(seed: &mut u32) -> Option<Row> {
    let kind = kind_of(drawn(seed, 22));
    let first = drawn(seed, 6);
    let places = PLACES.get(usize::from(kind.arity()) - 1)?;
    let (controls, on) = *places.get(first as usize)?;
    Some((kind, controls, on))
}

/// Adds so many drawn gates. Whether all are added.
fn are_drawn(alloc: Global, circuit: &mut Circuit, seed: u32, gates: u32) -> bool {
    let mut seed = seed;
    for _ in 0..gates {
        let row = drawn_row(&mut seed);
        if !is_some_added(alloc, circuit, row) {
            return false;
        }
    }
    true
}

/// Adds the gate of a row, if there is one. Whether it is added.
fn is_some_added(alloc: Global, circuit: &mut Circuit, row: Option<Row>) -> bool {
    match row {
        Some(row) => is_added(alloc, circuit, row),
        None => false,
    }
}

/// A gate of 20 qubits near a drawn one.
fn large_row(number: u32, seed: &mut u32) -> Row {
    let q = drawn(seed, 18) as u8;
    let kind = match number % 4 {
        0 => Kind::H,
        1 => Kind::Cx,
        2 => Kind::T,
        _ => Kind::Ccx,
    };
    (kind, 0, [q, q + 1, q + 2, 0])
}

const PLANTED: Row = (Kind::X, 0, [11, 0, 0, 0]);

/// Adds 60 gates, with X on a qubit before the gate of this number. Whether all are added.
fn are_planted(alloc: Global, circuit: &mut Circuit, planted: u32) -> bool {
    let mut seed = 7u32;
    for number in 0..60u32 {
        if number == planted && !is_added(alloc, circuit, PLANTED) {
            return false;
        }
        let row = large_row(number, &mut seed);
        if !is_added(alloc, circuit, row) {
            return false;
        }
    }
    true
}

/// H on one of the first three of six qubits.
fn turn(q: u8) -> Row {
    (Kind::H, 0, [q, 0, 0, 0])
}

/// Cx from it to the qubit three places on.
fn pair(q: u8) -> Row {
    (Kind::Cx, 0, [q, q.wrapping_add(3), 0, 0])
}

/// Adds three pairs, one after the other. Whether all are added.
fn are_paired(alloc: Global, circuit: &mut Circuit) -> bool {
    for q in 0..3u8 {
        if !is_added(alloc, circuit, turn(q)) || !is_added(alloc, circuit, pair(q)) {
            return false;
        }
    }
    true
}

/// Adds the same pairs with all H first, and then T on the qubit of this number, if it is one of the six. Whether all are added.
fn are_turned_first(alloc: Global, circuit: &mut Circuit, late: u8) -> bool {
    for number in 0..6u8 {
        let row = if number < 3 {
            turn(number)
        } else {
            pair(number - 3)
        };
        if !is_added(alloc, circuit, row) {
            return false;
        }
    }
    late >= 6 || is_added(alloc, circuit, (Kind::T, 0, [late, 0, 0, 0]))
}

/// What a circuit is.
#[derive(Clone, Copy)]
enum Course {
    /// So many gates on three qubits, drawn by a number.
    Drawn { seed: u32, gates: u32 },
    /// 60 gates on 20 qubits, each near the one before, and X planted among them.
    Planted(u32),
    /// Pairs of six qubits, one after the other.
    Paired,
    /// The same with all H first, and a late T.
    TurnedFirst(u8),
}

impl Course {
    fn qubits(self) -> u8
        ensures { result ≤ 20 }
    {
        match self {
            Course::Drawn { .. } => 3,
            Course::Planted(_) => 20,
            Course::Paired => 6,
            Course::TurnedFirst(_) => 6,
        }
    }

    /// Adds its gates. Whether all are added.
    fn are_added(self, alloc: Global, circuit: &mut Circuit) -> bool {
        match self {
            Course::Drawn { seed, gates } => are_drawn(alloc, circuit, seed, gates),
            Course::Planted(planted) => are_planted(alloc, circuit, planted),
            Course::Paired => are_paired(alloc, circuit),
            Course::TurnedFirst(late) => are_turned_first(alloc, circuit, late),
        }
    }
}

/// The circuit of a course.
fn circuit(alloc: Global, course: Course) -> Option<Circuit> {
    let mut circuit = Circuit::new(alloc, course.qubits()).ok()?;
    if course.are_added(alloc, &mut circuit) {
        Some(circuit)
    } else {
        drop(circuit);
        None
    }
}

/// What a verdict says: the scalar; or the place, the row and the column, the entry there, and the corner.
#[derive(Clone, Copy, PartialEq, Eq)]
enum Said {
    Scalar(Quad, u32),
    Differs((u128, u8), (u128, u8), (Quad, u32), (Quad, u32)),
}

fn said_by(verdict: &Verdict) -> Said {
    match verdict {
        Verdict::Scalar(q, k) => Said::Scalar(*q, *k),
        Verdict::Differs {
            row,
            col,
            value,
            corner,
        } => Said::Differs(shown(row), shown(col), *value, *corner),
    }
}

fn shown(x: &Bits) -> (u128, u8) {
    (x.place(), x.len())
}

/// The verdict over diagrams.
fn verdict(alloc: Global, u: &Circuit, v: &Circuit, rules: &Rules) -> Option<Said> {
    if u.qubits() != v.qubits() {
        return None;
    }
    match compare(alloc, u, v, rules) {
        Ok(verdict) => Some(said_by(&verdict)),
        Err(_) => None,
    }
}

/// The verdict over lists of all entries, if there are so few qubits.
fn listed(alloc: Global, u: &Circuit, v: &Circuit) -> Option<Said> {
    if u.qubits() != v.qubits() || u.qubits() > 6 {
        return None;
    }
    match dense_matrix::compare(alloc, u, v, 128) {
        Ok(verdict) => Some(said_by(&verdict)),
        Err(_) => None,
    }
}

/// Both verdicts.
type Verdicts = (Option<Said>, Option<Said>);

fn verdicts(alloc: Global, u: &Circuit, other: Course, rules: &Rules) -> Option<Verdicts> {
    let v = circuit(alloc, other)?;
    let both = (verdict(alloc, u, &v, rules), listed(alloc, u, &v));
    drop(v);
    Some(both)
}

/// Both verdicts of two courses.
fn compared(alloc: Global, one: Course, other: Course, rules: &Rules) -> Option<Verdicts> {
    let u = circuit(alloc, one)?;
    let both = verdicts(alloc, &u, other, rules);
    drop(u);
    both
}

/// Whether both verdicts are there and say the same.
fn are_alike(verdicts: Option<Verdicts>) -> bool {
    match verdicts {
        Some((Some(one), Some(other))) => one == other,
        _ => false,
    }
}

// 200 pairs of circuits: one with as many gates more than the other as the number of the pair leaves over three.
#[test]
fn pairs_against_lists_of_all_entries(rt: HostRuntime) {
    for seed in 0..200u32 {
        let u = Course::Drawn { seed, gates: 10 };
        let gates = 10 + seed % 3;
        let v = Course::Drawn { seed, gates };
        let both = compared(rt.alloc(), u, v, &Rules::usual());
        assert!(rt; are_alike(both), "pair {seed}");
    }
}

/// The verdict on two circuits of 20 qubits.
fn planted(alloc: Global, place: u32) -> Option<Said> {
    let u = Course::Planted(60);
    let (verdict, _) = compared(alloc, u, Course::Planted(place), &Rules::usual())?;
    verdict
}

#[test]
fn an_x_planted_at_each_place(rt: HostRuntime) {
    for place in 0..60u32 {
        let verdict = planted(rt.alloc(), place);
        assert!(rt; matches!(verdict, Some(Said::Differs(..))), "place {place}");
    }
    let one = Quad {
        a: 0,
        b: 0,
        c: 0,
        d: 1,
    };
    assert!(rt; planted(rt.alloc(), 60) == Some(Said::Scalar(one, 0)));
}

/// Rules with a sift after each so many steps.
fn sifted(sift: u32) -> Rules
    requires { sift ≤ 1000000 }
{
    Rules {
        width: 128,
        nodes: 1_048_576,
        cache: 65_536,
        reclaim: 16,
        sift,
    }
}

// No sift, one after each step, and one after each second step, for equal circuits and for some with one gate more.
#[test]
fn sifts_leave_the_verdict(rt: HostRuntime) {
    for number in 0..21u32 {
        let (late, sift) = ((number / 3) as u8, number % 3);
        let v = Course::TurnedFirst(late);
        let both = compared(rt.alloc(), Course::Paired, v, &sifted(sift));
        assert!(rt; are_alike(both), "qubit {late}, sift {sift}");
    }
}
