//! The output of a command, sent line by line through a buffer.
ghost use Rattle.std.specs.Prelude.{◌≡◌, ◌≤◌, IfOk, length, OnOk, OnErr, IsErrOf};
ghost use Rattle.outside.specs.Outside.{Rose};
ghost use Rattle.outside.specs.Bytes.{Added, AddedSome};
ghost use Rattle.outside.specs.Buffering.{Sent, SentSome};
ghost use Rattle.ring_omega.specs.Lowest.{lowest_form};
ghost use Rattle.amp_dense.specs.Standing.{vector};
ghost use Rattle.amp_printer.specs.Texts.{state_line, count_line};
ghost use Rattle.outputs.specs.Listing.{vector_output, listing_of, number_listed, has_no_entry, entry_line};

use amp_dense::Amplitudes;
use amp_printer::{Counted, ListingLine, count_line};
use bit_lists::{Bits, OutOfMemory};
use outside::{Buffered, Failed, Sink};
use ring_omega::Quad;
use std::alloc::Global;

/// Why the output was not written whole.
#[derive(Clone, Copy, Debug, PartialEq, Eq)]
pub enum SendStop {
    Fault,
    OutOfMemory,
}

impl From<OutOfMemory> for SendStop {
    ghost use Rattle.std.specs.Prelude.{◌≡◌};
    ghost use Rattle.outputs.specs.declared.output.SendStop.TheVariants.{OutOfMemory};

    ghost from_gives = { λ _ e. e ≡ OutOfMemory };

    fn from(_: OutOfMemory) -> Self {
        SendStop::OutOfMemory
    }
}

impl From<Failed> for SendStop {
    ghost use Rattle.std.specs.Prelude.{◌≡◌};
    ghost use Rattle.outputs.specs.declared.output.SendStop.TheVariants.{Fault};

    ghost from_gives = { λ _ e. e ≡ Fault };

    fn from(_: Failed) -> Self {
        SendStop::Fault
    }
}

/// Writes a working vector: its number of qubits, each basis state whose entry isn't zero in their order, and the number of those.
pub fn send_amplitudes<A: Amplitudes, K: Sink>(
    alloc: Global,
    out: &mut K,
    qubits: u8,
    state: &A,
) -> Result<(), SendStop>
    requires few { qubits ≤ 64 }
    requires size { length (A.standing state.now).input ≡ qubits }
    ensures ok { OnOk result (Added (K.written out.old) (K.written out.new) (vector_output qubits (vector (A.standing state.now)))) }
    ensures err { OnErr result (AddedSome (K.written out.old) (K.written out.new) (vector_output qubits (vector (A.standing state.now)))) }
    ensures fault { IsErrOf result SendStop.Fault → Rose (K.faults out.old) (K.faults out.new) }
    ensures counts { K.faults out.old ≤ K.faults out.new }
{
    let mut waiting = Buffered::new(alloc)?;
    send_count(out, &mut waiting, Counted::Qubits, qubits as u128)?;
    let states = send_nonzero(alloc, out, &mut waiting, qubits, state)?;
    send_count(out, &mut waiting, Counted::States, states)?;
    waiting.flush(out)?;
    Ok(())
}

// The lines of the basis states whose entries are not zero, and how many they are.
fn send_nonzero<A: Amplitudes, K: Sink>(
    alloc: Global,
    out: &mut K,
    waiting: &mut Buffered,
    qubits: u8,
    state: &A,
) -> Result<u128, SendStop>
    requires few { qubits ≤ 64 }
    requires size { length (A.standing state.now).input ≡ qubits }
    ensures ok { OnOk result (Sent (K.written out.old) waiting.old (K.written out.new) waiting.new (listing_of qubits (has_no_entry (vector (A.standing state.now))) (entry_line (vector (A.standing state.now))))) }
    ensures count { IfOk result (λ m. m ≡ number_listed qubits (has_no_entry (vector (A.standing state.now)))) }
    ensures err { OnErr result (SentSome (K.written out.old) waiting.old (K.written out.new) (listing_of qubits (has_no_entry (vector (A.standing state.now))) (entry_line (vector (A.standing state.now))))) }
    ensures fault { IsErrOf result SendStop.Fault → Rose (K.faults out.old) (K.faults out.new) }
    ensures counts { K.faults out.old ≤ K.faults out.new }
{
    let k = state.exponent();
    let mut states = 0;
    let mut walk = state.walk(alloc)?;
    let mut next = state.advance(&mut walk)?;
    let mut line = ListingLine::new();
    'states: while let Some(found) = next {
        send_state(out, waiting, &mut line, &found.0, found.1, k)?;
        states += 1;
        next = state.advance(&mut walk)?;
    }
    Ok(states)
}

/// The line of a count.
pub fn send_count<K: Sink>(
    out: &mut K,
    waiting: &mut Buffered,
    word: Counted,
    n: u128,
) -> Result<(), Failed>
    ensures ok { OnOk result (Sent (K.written out.old) waiting.old (K.written out.new) waiting.new (count_line word n)) }
    ensures err { OnErr result (SentSome (K.written out.old) waiting.old (K.written out.new) (count_line word n)) }
    ensures fault { OnErr result (Rose (K.faults out.old) (K.faults out.new)) }
    ensures counts { K.faults out.old ≤ K.faults out.new }
{
    let line = count_line(word, n);
    waiting.put(out, line.as_bytes())
}

// Sends the line of a basis state, which is written over that of the one before.
fn send_state<K: Sink>(
    out: &mut K,
    waiting: &mut Buffered,
    line: &mut ListingLine,
    x: &Bits,
    q: Quad,
    k: u32,
) -> Result<(), Failed>
    requires { length x.now ≤ 64 }
    ensures ok { OnOk result (Sent (K.written out.old) waiting.old (K.written out.new) waiting.new (state_line x.now (lowest_form q k).0 (lowest_form q k).1)) }
    ensures err { OnErr result (SentSome (K.written out.old) waiting.old (K.written out.new) (state_line x.now (lowest_form q k).0 (lowest_form q k).1)) }
    ensures fault { OnErr result (Rose (K.faults out.old) (K.faults out.new)) }
    ensures counts { K.faults out.old ≤ K.faults out.new }
{
    line.change(x, q, k);
    waiting.put(out, line.as_bytes())
}
