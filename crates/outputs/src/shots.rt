//! Outcomes of a measurement, drawn shot by shot and sent line by line through a buffer.
ghost use Rattle.std.specs.Prelude.{◌≡◌, ◌≤◌, ◌<◌, ◌+◌, ◌^◌, ◌<ℤ◌, pos, ℕ, length, slice_index_or, IfOk, OnOk, OnErr, IsErrOf};
ghost use Rattle.outside.specs.Outside.{Rose};
ghost use Rattle.outside.specs.Bytes.{Added, AddedSome};
ghost use Rattle.outside.specs.Buffering.{Sent, SentSome};
ghost use Rattle.amp_dense.specs.Standing.{vector};
ghost use Rattle.amp_printer.specs.Texts.{outcome_text};
ghost use Rattle.probabilities.specs.Weighing.{total_weight};
ghost use Rattle.probabilities.specs.Outcomes.{measured_count};
ghost use Rattle.sampler.specs.Draws.{drawn};
ghost use Rattle.sampler.specs.Words.{random_word};
ghost use Rattle.outputs.specs.Shots.{shot_lines, shots_output};

use crate::output::{SendStop, send_count};
use crate::weighed::Weighed;
use amp_printer::{Counted, outcome_line};
use bit_lists::{Bits, OutOfMemory};
use outside::{Buffered, Failed, Sink};
use probabilities::{Weigh, measured_count};
use sampler::{Words, draw};
use std::alloc::Global;

/// Writes outcomes of these qubits that are drawn by the words of a seed, a line for each shot, and the number of shots. The words are used one after another, and each
/// shot takes as many of them as qubits are measured, for each of which the vector is weighed twice.
pub fn send_shots<A: Weigh, K: Sink>(
    alloc: Global,
    out: &mut K,
    measured: &Bits,
    state: &A,
    shots: u32,
    seed: u64,
) -> Result<(), SendStop>
    requires few { length measured.now ≤ 64 }
    requires size { length (A.standing state.now).input ≡ length measured.now }
    requires light { (total_weight (length measured.now) (vector (A.standing state.now)).entries).a <ℤ pos (2 ^ 60) }
    requires shots { shots ≤ 1000000 }
    ensures ok { OnOk result (Added (K.written out.old) (K.written out.new) (shots_output measured.now shots (random_word seed) (vector (A.standing state.now)).entries)) }
    ensures err { OnErr result (AddedSome (K.written out.old) (K.written out.new) (shots_output measured.now shots (random_word seed) (vector (A.standing state.now)).entries)) }
    ensures fault { IsErrOf result SendStop.Fault → Rose (K.faults out.old) (K.faults out.new) }
    ensures counts { K.faults out.old ≤ K.faults out.new }
{
    let mut waiting = Buffered::new(alloc)?;
    send_drawn(alloc, out, &mut waiting, measured, state, shots, seed)?;
    send_count(out, &mut waiting, Counted::Shots, shots as u128)?;
    waiting.flush(out)?;
    Ok(())
}

// The lines of the shots.
fn send_drawn<A: Weigh, K: Sink>(
    alloc: Global,
    out: &mut K,
    waiting: &mut Buffered,
    measured: &Bits,
    state: &A,
    shots: u32,
    seed: u64,
) -> Result<(), SendStop>
    requires few { length measured.now ≤ 64 }
    requires size { length (A.standing state.now).input ≡ length measured.now }
    requires light { (total_weight (length measured.now) (vector (A.standing state.now)).entries).a <ℤ pos (2 ^ 60) }
    requires shots { shots ≤ 1000000 }
    ensures ok { OnOk result (Sent (K.written out.old) waiting.old (K.written out.new) waiting.new (shot_lines measured.now shots (random_word seed) (vector (A.standing state.now)).entries)) }
    ensures err { OnErr result (SentSome (K.written out.old) waiting.old (K.written out.new) (shot_lines measured.now shots (random_word seed) (vector (A.standing state.now)).entries)) }
    ensures fault { IsErrOf result SendStop.Fault → Rose (K.faults out.old) (K.faults out.new) }
    ensures counts { K.faults out.old ≤ K.faults out.new }
{
    let mut words = Words::of_seed(seed);
    'shots: for _shot in 0..shots {
        let y = next_shot(alloc, measured, state, &mut words)?;
        send_shot(out, waiting, &y)?;
    }
    Ok(())
}

// The outcome that the next words draw, one word for each measured qubit.
fn next_shot<A: Weigh>(
    alloc: Global,
    measured: &Bits,
    state: &A,
    words: &mut Words,
) -> Result<Bits, OutOfMemory>
    requires few { length measured.now ≤ 64 }
    requires size { length (A.standing state.now).input ≡ length measured.now }
    requires light { (total_weight (length measured.now) (vector (A.standing state.now)).entries).a <ℤ pos (2 ^ 60) }
    requires number { words.old.number < 2 ^ 59 }
    ensures drawn { IfOk result (λ y. y ≡ drawn (vector (A.standing state.now)).entries (λ i. random_word words.old.seed (words.old.number + i)) measured.now) }
    ensures further { words.new ≡ record { seed = words.old.seed; number = words.old.number + measured_count measured.now } }
{
    let mut buffer = [0; 64];
    refill(&mut buffer, words, measured_count(measured));
    draw(alloc, &Weighed { state }, measured, &buffer)
}

// Puts the next words at the head of the buffer, so many of them.
fn refill(buffer: &mut [u64; 64], words: &mut Words, count: u8)
    requires few { count ≤ 64 }
    requires number { words.old.number < 2 ^ 59 }
    ensures filled { (i : ℕ) → i < count → slice_index_or buffer.new i 0 ≡ random_word words.old.seed (words.old.number + i) }
    ensures further { words.new ≡ record { seed = words.old.seed; number = words.old.number + count } }
{
    'words: for place in 0..count {
        buffer[usize::from(place)] = words.next();
    }
}

// The line of a shot.
fn send_shot<K: Sink>(out: &mut K, waiting: &mut Buffered, y: &Bits) -> Result<(), Failed>
    requires { length y.now ≤ 64 }
    ensures ok { OnOk result (Sent (K.written out.old) waiting.old (K.written out.new) waiting.new (outcome_text y.now)) }
    ensures err { OnErr result (SentSome (K.written out.old) waiting.old (K.written out.new) (outcome_text y.now)) }
    ensures fault { OnErr result (Rose (K.faults out.old) (K.faults out.new)) }
    ensures counts { K.faults out.old ≤ K.faults out.new }
{
    let line = outcome_line(y);
    waiting.put(out, line.as_bytes())
}
