//! Lists of events on small states.
ghost use Rattle.std.specs.Prelude.{◌≡◌, ◌≤◌, All, length};
ghost use Rattle.state_update.specs.Events.{IsWithin};

use crate::tools::{ONE, Row, applied, are_applied, begun, refused_at, zeros_of};
use amp_dense::{Amplitudes, DenseState, Rules, Stop};
use bit_lists::Bits;
use gate_set::{Gate, Kind};
use ring_omega::Quad;
use state_update::{Event, EventStop, Report, SlicedState};
use std::alloc::Global;

/// H on the first qubit.
fn hadamard(alloc: Global) -> Event
    ensures one { IsWithin 1 result }
    ensures two { IsWithin 2 result }
{
    Event::Gate(Gate::new(alloc, Kind::H, &[0]))
}

/// One of eight events on two qubits.
fn event(alloc: Global, number: u8) -> Event
    ensures { IsWithin 2 result }
{
    match number {
        0 => hadamard(alloc),
        1 => Event::Gate(Gate::new(alloc, Kind::Cx, &[0, 1])),
        2 => Event::Gate(Gate::new(alloc, Kind::T, &[1])),
        3 => Event::Reclaim,
        4 => Event::Swap(0),
        5 => Event::SiftOne(1),
        6 => Event::SiftAll,
        _ => Event::ForgetCache,
    }
}

/// The entries of a state of at most two qubits, and the exponent.
type Seen = ([Quad; 4], u32);

fn seen<A: Amplitudes>(state: &A, qubits: u8) -> Seen
    requires few { qubits ≤ 2 }
    requires input { length (A.standing state.now).input ≡ qubits }
{
    let mut entries = [Quad::ZERO; 4];
    for place in 0..4u8 {
        if place < 1u8 << qubits {
            entries[usize::from(place)] = state.entry(&Bits::at_place(u128::from(place), qubits));
        }
    }
    (entries, state.exponent())
}

/// Runs a list of events on a state that accepted no gate yet.
#[tactic(auto, using(state_update::proofs::RunLemmas::gates_few))]
fn run(alloc: Global, state: &mut SlicedState, list: &[Event]) -> Result<Vec<Report>, EventStop>
    requires within { All (IsWithin (length state.old.input)) list.now }
    requires few { length list.now ≤ 5 }
    ensures { state.new.input ≡ state.old.input }
{
    if state.accepted() != 0 {
        let stop = Stop::OutOfMemory;
        return Err(EventStop { at: 0, stop });
    }
    let answer = state.run_events(alloc, list);
    answer
}

/// How many reports there are, and whether the third one is of a cache that was forgotten; or the event that stopped, and at which gate the
/// width was refused.
type Ran = Result<(usize, bool), (u32, u32)>;

fn ran_from(answer: Result<Vec<Report>, EventStop>) -> Ran {
    match answer {
        Ok(reports) => {
            let forgotten = matches!(reports.get(2), Some(Report::Forgotten));
            Ok((reports.len(), forgotten))
        }
        Err(EventStop { at, stop }) => Err((at, refused_at(&Err(stop)))),
    }
}

/// What comes of a list of events on a state of so many qubits.
fn ran(alloc: Global, state: &mut SlicedState, qubits: u8, list: &[Event]) -> (Ran, Seen)
    requires qubits { qubits ≤ 2 }
    requires input { length state.old.input ≡ qubits }
    requires within { All (IsWithin qubits) list.now }
    requires few { length list.now ≤ 5 }
{
    let answer = run(alloc, state, list);
    let seen = seen(state, qubits);
    (ran_from(answer), seen)
}

/// The same of a state that begins with zeros.
fn ran_once(alloc: Global, qubits: u8, rules: &Rules, list: &[Event]) -> Option<(Ran, Seen)>
    requires qubits { qubits ≤ 2 }
    requires within { All (IsWithin qubits) list.now }
    requires few { length list.now ≤ 5 }
{
    let mut state: SlicedState = begun(alloc, &zeros_of(qubits), rules)?;
    let got = ran(alloc, &mut state, qubits, list);
    drop(state);
    Some(got)
}

/// Applies the gate of an event, if it is one. Whether it is accepted.
fn is_done<A: Amplitudes>(alloc: Global, state: &mut A, e: &Event) -> bool
    requires { IsWithin (length (A.standing state.old).input) e.now }
    ensures { (A.standing state.new).input ≡ (A.standing state.old).input }
{
    match e {
        Event::Gate(gate) => applied(alloc, state, gate).is_ok(),
        _ => true,
    }
}

/// Applies the gates of a list of events. What is seen then.
fn plain<A: Amplitudes>(alloc: Global, state: &mut A, list: &[Event]) -> Option<Seen>
    requires input { length (A.standing state.old).input ≡ 2 }
    requires within { All (IsWithin 2) list.now }
{
    'events: for e in list {
        if !is_done(alloc, state, e) {
            return None;
        }
    }
    Some(seen(state, 2))
}

/// The same of a state that begins with zeros.
fn plain_once<A: Amplitudes + Drop>(alloc: Global, list: &[Event]) -> Option<Seen>
    requires most { 2 ≤ A.MOST }
    requires within { All (IsWithin 2) list.now }
{
    let mut state: A = begun(alloc, &zeros_of(2), &Rules::usual())?;
    let got = plain(alloc, &mut state, list);
    drop(state);
    got
}

/// Whether the events leave the entries of their gates alone, with one report each.
fn are_gates_alone(alloc: Global, list: &[Event]) -> bool
    requires within { All (IsWithin 2) list.now }
    requires few { length list.now ≤ 3 }
{
    let got = ran_once(alloc, 2, &Rules::usual(), list);
    match (got, plain_once::<DenseState>(alloc, list)) {
        (Some((Ok((reports, _)), seen)), Some(wanted)) => {
            reports == list.len() && seen == wanted
        }
        _ => false,
    }
}

fn is_right_one(alloc: Global, a: u8) -> bool {
    let list = [event(alloc, a)];
    are_gates_alone(alloc, &list)
}

fn is_right_two(alloc: Global, a: u8, b: u8) -> bool {
    let list = [event(alloc, a), event(alloc, b)];
    are_gates_alone(alloc, &list)
}

fn is_right_three(alloc: Global, a: u8, b: u8, c: u8) -> bool {
    let list = [event(alloc, a), event(alloc, b), event(alloc, c)];
    are_gates_alone(alloc, &list)
}

/// How many lists of these first two events are right: the first one alone, both, and with each third one.
fn each_third(alloc: Global, a: u8, b: u8) -> u32 {
    let mut count = u32::from(is_right_one(alloc, a));
    count = count.wrapping_add(u32::from(is_right_two(alloc, a, b)));
    for c in 0..8u8 {
        count = count.wrapping_add(u32::from(is_right_three(alloc, a, b, c)));
    }
    count
}

#[test]
fn lists_of_up_to_three_events(rt: HostRuntime) {
    for pair in 0..64u8 {
        let got = each_third(rt.alloc(), pair / 8, pair % 8);
        assert!(rt; got == 10, "{pair}");
    }
}

/// Two turns of one qubit with upkeep between them.
fn upkept(alloc: Global) -> Option<(Ran, Seen)> {
    let first = hadamard(alloc);
    let last = hadamard(alloc);
    let list = [
        first,
        Event::Reclaim,
        Event::ForgetCache,
        Event::SiftAll,
        last,
    ];
    ran_once(alloc, 1, &Rules::usual(), &list)
}

#[test]
fn upkeep_events(rt: HostRuntime) {
    let seen = ([ONE, Quad::ZERO, Quad::ZERO, Quad::ZERO], 0);
    assert!(rt; upkept(rt.alloc()) == Some((Ok((5, true)), seen)));
}

/// Two turns of the first of two qubits with a swap between them and a reclaim behind them, by a width of 2.
fn narrow(alloc: Global) -> Option<(Ran, Seen)> {
    let rules = Rules {
        width: 2,
        nodes: 64,
        cache: 16,
        reclaim: 0,
        sift: 0,
    };
    let first = hadamard(alloc);
    let second = hadamard(alloc);
    let list = [first, Event::Swap(0), second, Event::Reclaim];
    ran_once(alloc, 2, &rules, &list)
}

#[test]
fn width_inside_a_list(rt: HostRuntime) {
    let seen = ([ONE, Quad::ZERO, ONE, Quad::ZERO], 1);
    assert!(rt; narrow(rt.alloc()) == Some((Err((2, 2)), seen)));
}

/// A pair of entangled qubits.
static PAIR: [Row; 2] = [(Kind::H, [0, 1, 2]), (Kind::Cx, [0, 1, 2])];

/// Whether some answers are cached, what is seen, whether the two variables are swapped, and what is seen then.
type Swapped = (bool, Seen, bool, Seen);

/// What comes of a swap of a pair.
fn swapped(alloc: Global, state: &mut SlicedState) -> Option<Swapped>
    requires { length state.old.input ≡ 2 }
{
    if !are_applied(alloc, state, &PAIR, 2) || state.accepted() != 2 {
        return None;
    }
    let (diagrams, _quad) = state.parts();
    let cached = diagrams.cached() >= 1;
    let before = seen(state, 2);
    let report = state.upkeep(alloc, &Event::Swap(0));
    let done = matches!(report, Ok(Report::Swapped));
    Some((cached, before, done, seen(state, 2)))
}

/// The same of a state that begins with zeros.
fn swapped_once(alloc: Global) -> Option<Swapped> {
    let mut state: SlicedState = begun(alloc, &zeros_of(2), &Rules::usual())?;
    let got = swapped(alloc, &mut state);
    drop(state);
    got
}

#[test]
fn upkeep_swap(rt: HostRuntime) {
    let seen = ([ONE, Quad::ZERO, Quad::ZERO, ONE], 1);
    assert!(rt; swapped_once(rt.alloc()) == Some((true, seen, true, seen)));
}
