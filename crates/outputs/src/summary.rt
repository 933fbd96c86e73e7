//! The summary of a working vector.
ghost use Rattle.std.specs.Prelude.{◌≡◌, ◌≤◌, ◌-◌, ◌++◌, length, slice_get, IfOk, OnOk, OnErr, IsErrOf};
ghost use Rattle.std.specs.Option.{ForSome};
ghost use Rattle.outside.specs.Outside.{Rose};
ghost use Rattle.outside.specs.Bytes.{Added, AddedSome};
ghost use Rattle.amp_dense.specs.Standing.{vector};
ghost use Rattle.amp_printer.specs.Texts.{count_line};
ghost use Rattle.outputs.specs.Listing.{number_listed, has_no_entry};
ghost use Rattle.outputs.specs.Summary.{shown, labelled, summary_output};

use crate::output::SendStop;
use amp_dense::Amplitudes;
use amp_printer::{Counted, count_line, state_line};
use bit_lists::{Bits, OutOfMemory};
use outside::{Sink, write_all};
use ring_omega::lowest;
use std::alloc::Global;

/// How many basis states have an entry that isn't zero, and the first and the last of them.
#[derive(Clone, Copy)]
struct Shown {
    states: u128,
    first: Option<Bits>,
    last: Option<Bits>,
}

/// Writes the summary of a working vector: the number of qubits, of gates, the exponent, the number of basis states whose entry isn't
/// zero, and the first and the last of them. No basis state but these two is visited.
pub fn send_summary<A: Amplitudes, K: Sink>(
    alloc: Global,
    out: &mut K,
    qubits: u8,
    state: &A,
) -> Result<(), SendStop>
    requires few { qubits ≤ 64 }
    requires size { length (A.standing state.now).input ≡ qubits }
    ensures ok { OnOk result (Added (K.written out.old) (K.written out.new) (summary_output qubits (length (A.standing state.now).gates) (vector (A.standing state.now)))) }
    ensures err { OnErr result (AddedSome (K.written out.old) (K.written out.new) (summary_output qubits (length (A.standing state.now).gates) (vector (A.standing state.now)))) }
    ensures fault { IsErrOf result SendStop.Fault → Rose (K.faults out.old) (K.faults out.new) }
    ensures counts { K.faults out.old ≤ K.faults out.new }
{
    let text = summary(alloc, qubits, state)?;
    write_all(out, text.as_slice())?;
    Ok(())
}

/// The text of the summary.
fn summary<A: Amplitudes>(alloc: Global, qubits: u8, state: &A) -> Result<Vec<u8>, OutOfMemory>
    requires few { qubits ≤ 64 }
    requires size { length (A.standing state.now).input ≡ qubits }
    ensures { IfOk result (λ t. t.items ≡ summary_output qubits (length (A.standing state.now).gates) (vector (A.standing state.now))) }
{
    let seen = survey(alloc, qubits, state)?;
    let mut text = Vec::new(alloc);
    put_count(&mut text, Counted::Qubits, qubits as u128)?;
    put_count(&mut text, Counted::Gates, state.accepted() as u128)?;
    put_count(&mut text, Counted::Exponent, state.exponent() as u128)?;
    put_count(&mut text, Counted::States, seen.states)?;
    put_state(&mut text, b"first ", state, seen.first)?;
    put_state(&mut text, b"last ", state, seen.last)?;
    Ok(text)
}

/// Counts the basis states whose entries aren't zero, and finds the first and the last of them.
fn survey<A: Amplitudes>(alloc: Global, qubits: u8, state: &A) -> Result<Shown, OutOfMemory>
    requires size { length (A.standing state.now).input ≡ qubits }
    ensures states { IfOk result (λ s. s.states ≡ number_listed qubits (has_no_entry (vector (A.standing state.now)))) }
    ensures first { IfOk result (λ s. s.first ≡ slice_get (shown qubits (vector (A.standing state.now))) 0) }
    ensures last { IfOk result (λ s. s.last ≡ slice_get (shown qubits (vector (A.standing state.now))) (length (shown qubits (vector (A.standing state.now))) - 1)) }
    ensures first_long { IfOk result (λ s. ForSome s.first (λ x. length x ≡ qubits)) }
    ensures last_long { IfOk result (λ s. ForSome s.last (λ x. length x ≡ qubits)) }
{
    let states = state.count_nonzero(alloc)?;
    let first = state.next_nonzero(alloc, None)?;
    let last = state.last_nonzero(alloc)?;
    Ok(Shown {
        states,
        first,
        last,
    })
}

fn put(text: &mut Vec<u8>, piece: &[u8]) -> Result<(), OutOfMemory>
    ensures { OnOk result (text.new.items ≡ text.old.items ++ piece.now) }
{
    text.extend_from_slice(piece)?;
    Ok(())
}

fn put_count(text: &mut Vec<u8>, word: Counted, n: u128) -> Result<(), OutOfMemory>
    ensures { OnOk result (text.new.items ≡ text.old.items ++ count_line word n) }
{
    let line = count_line(word, n);
    put(text, line.as_bytes())
}

/// A label and the line of a basis state, if there is one.
fn put_state<A: Amplitudes>(
    text: &mut Vec<u8>,
    label: &[u8],
    state: &A,
    x: Option<Bits>,
) -> Result<(), OutOfMemory>
    requires size { ForSome x (λ y. length y ≡ length (A.standing state.now).input) }
    requires few { length (A.standing state.now).input ≤ 64 }
    ensures { OnOk result (text.new.items ≡ text.old.items ++ labelled label.now (vector (A.standing state.now)) x) }
{
    let Some(x) = x else {
        return Ok(());
    };
    let (q, k) = lowest(state.entry(&x), state.exponent());
    put(text, label)?;
    let line = state_line(&x, q, k);
    put(text, line.as_bytes())
}
