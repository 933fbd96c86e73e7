//! The working vector as a list of all entries, after the gates of a text.
ghost use Rattle.std.specs.Prelude.{◌≡◌, ◌≤◌, true, length};
ghost use Rattle.std.specs.Option.{ForSome};
ghost use Rattle.gate_set.specs.Shape.{IsOn};

use amp_dense::{Amplitudes, DenseState, Rules, Stop};
use bit_lists::Bits;
use call_rows::{Page, Row};
use gate_set::{Circuit, Gate};
use probabilities::{Weigh, counted, measured_count, weigh_dense};
use qasm_reader::read;
use std::alloc::Global;

/// Asks the vector of a width and a text what the words behind them say.
pub fn tell(row: &mut Row<'_>, page: &mut Page) {
    let width = row.small(128);
    let text = row.word();
    if 2 <= width && text.len() <= 16_777_216 {
        match read(page.alloc, text, 12) {
            Ok(circuit) => tell_vector(&circuit, of_width(width), row, page),
            Err(stop) => page.show(&stop),
        }
    }
}

// The usual rules with another width.
fn of_width(width: u8) -> Rules
    requires least { 2 ≤ width }
    requires greatest { width ≤ 128 }
{
    Rules {
        width,
        nodes: 1_048_576,
        cache: 65_536,
        reclaim: 16,
        sift: 0,
    }
}

// Where a width was refused, how many gates were accepted, the exponent, and what else is asked.
fn tell_vector(circuit: &Circuit, rules: Rules, row: &mut Row<'_>, page: &mut Page) {
    if circuit.qubits() > 12 {
        return;
    }
    match DenseState::start(page.alloc, &Bits::zeros(circuit.qubits()), &rules) {
        Ok(mut state) => {
            let refused = apply_all(page.alloc, &mut state, circuit);
            page.show(&(refused, state.accepted(), state.exponent()));
            tell_questions(&state, circuit, row, page);
        }
        Err(_) => page.text("no vector"),
    }
}

// Applies gates one after another, also after one that is refused. The answer is where the width was refused, or 0.
fn apply_all(alloc: Global, state: &mut DenseState, circuit: &Circuit) -> u32
    requires { length state.old.input ≡ circuit.now.qubits }
    ensures { length state.new.input ≡ circuit.now.qubits }
{
    let mut refused = 0;
    'gates: for gate in circuit.gates() {
        let at = refused_at(alloc, state, gate);
        if at > refused {
            refused = at;
        }
    }
    refused
}

// Applies a gate. The answer is where the width was refused, or 0.
fn refused_at(alloc: Global, state: &mut DenseState, gate: &Gate) -> u32
    requires { IsOn (length state.old.input) gate.now }
    ensures { state.new.input ≡ state.old.input }
{
    if state.accepted() >= 2_000_000 {
        return u32::MAX;
    }
    match state.apply(alloc, gate) {
        Ok(()) => 0,
        Err(Stop::Width { gate }) => gate,
        Err(_) => u32::MAX,
    }
}

fn tell_questions(state: &DenseState, circuit: &Circuit, row: &mut Row<'_>, page: &mut Page)
    requires { length state.now.input ≡ circuit.now.qubits }
{
    for _ in 0..100 {
        if !row.is_over() {
            tell_question(state, circuit, row, page);
        }
    }
}

fn tell_question(state: &DenseState, circuit: &Circuit, row: &mut Row<'_>, page: &mut Page)
    requires { length state.now.input ≡ circuit.now.qubits }
{
    page.text("\n");
    let n = circuit.qubits();
    match row.name() {
        "entry" => page.show(&state.entry(&row.bits_of(n))),
        "first" => page.show(&state.next_nonzero(page.alloc, None)),
        "after" => page.show(&state.next_nonzero(page.alloc, Some(&row.bits_of(n)))),
        "walk" => tell_walk(state, page),
        "weigh" => tell_weight(state, n, row, page),
        "outcomes" => tell_outcomes(state, circuit.measured(), page),
        _ => page.text("no such question"),
    }
}

// Walks on four times, and tells the last basis state whose entry isn't zero, and how many there are.
fn tell_walk<A: Amplitudes>(state: &A, page: &mut Page) {
    match state.walk(page.alloc) {
        Ok(mut walk) => {
            let mut last: Option<Bits> = None;
            let _ = tell_next(state, &mut walk, &mut last, page)
                && tell_next(state, &mut walk, &mut last, page)
                && tell_next(state, &mut walk, &mut last, page)
                && tell_next(state, &mut walk, &mut last, page);
        }
        Err(_) => page.text("no walk"),
    }
    page.show(&state.last_nonzero(page.alloc));
    page.show(&state.count_nonzero(page.alloc));
}

// The basis state after the last one whose entry isn't zero, and one step on with its entry.
fn tell_next<A: Amplitudes>(
    state: &A,
    walk: &mut A::Walk,
    last: &mut Option<Bits>,
    page: &mut Page,
) -> bool
    requires walks { A.walks state.now walk.old }
    requires len { ForSome last.old (λ x. length x ≡ length (A.standing state.now).input) }
    ensures walks { result ≡ true → A.walks state.now walk.new }
    ensures len { ForSome last.new (λ x. length x ≡ length (A.standing state.now).input) }
{
    let next = state.next_nonzero(page.alloc, last.as_ref());
    let found = state.advance(walk);
    page.show(&next);
    page.show(&found);
    page.text("\n");
    if let Ok(Some(y)) = next {
        *last = Some(y);
    }
    found.is_ok()
}

// The weight of the states that agree with a partial list, by the call for lists, and by the trait.
fn tell_weight(state: &DenseState, n: u8, row: &mut Row<'_>, page: &mut Page)
    requires few { n ≤ 128 }
    requires len { length state.now.input ≡ n }
{
    let p = row.partial(n);
    page.show(&weigh_dense(state, &p));
    page.show(&state.weigh(page.alloc, &p));
}

// The first outcome and the one after it.
fn tell_outcomes(state: &DenseState, flags: &[bool], page: &mut Page)
    requires { length flags.now ≡ length state.now.input }
{
    if flags.len() > 12 {
        return;
    }
    let measured = counted(flags);
    let first = state.next_outcome(page.alloc, &measured, None);
    page.show(&first);
    if let Ok(Some(y)) = first {
        if y.len() == measured_count(&measured) {
            page.show(&state.next_outcome(page.alloc, &measured, Some(&y)));
        }
    }
}
