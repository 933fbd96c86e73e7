//! The outcomes of a measurement, sent line by line through a buffer.
ghost use Rattle.std.specs.Prelude.{◌≡◌, ◌≤◌, Some, IfOk, IfSome, IfNone, length, OnOk, OnErr, IsErrOf};
ghost use Rattle.outside.specs.Outside.{Rose};
ghost use Rattle.outside.specs.Bytes.{Added, AddedSome};
ghost use Rattle.outside.specs.Buffering.{Sent, SentSome};
ghost use Rattle.amp_dense.specs.Standing.{vector};
ghost use Rattle.probabilities.specs.Weighing.{total_weight, IsNarrow};
ghost use Rattle.probabilities.specs.Outcomes.{measured_count, outcome_weight};
ghost use Rattle.probabilities.specs.Possible.{IsNextOutcome, NoOutcomeAfter};
ghost use Rattle.outputs.specs.Listing.{listing_of, number_listed};
ghost use Rattle.outputs.specs.Outcomes.{has_no_weight, lowest_weight_line, outcome_line, outcomes_output};

use crate::output::{SendStop, send_count};
use amp_printer::{Counted, weight_line};
use bit_lists::{Bits, OutOfMemory};
use outside::{Buffered, Failed, Sink};
use probabilities::{Weigh, WeighStop, measured_count};
use ring_omega::{Weight, lowest_weight};
use std::alloc::Global;

/// Writes the outcomes of these qubits: how many qubits are measured, each outcome whose weight isn't zero in their order, and the number
/// of those.
pub fn send_outcomes<A: Weigh, K: Sink>(
    alloc: Global,
    out: &mut K,
    measured: &Bits,
    state: &A,
) -> Result<(), SendStop>
    requires few { length measured.now ≤ 64 }
    requires size { length (A.standing state.now).input ≡ length measured.now }
    requires light { IsNarrow (total_weight (length measured.now) (vector (A.standing state.now)).entries) }
    ensures ok { OnOk result (Added (K.written out.old) (K.written out.new) (outcomes_output measured.now (vector (A.standing state.now)))) }
    ensures err { OnErr result (AddedSome (K.written out.old) (K.written out.new) (outcomes_output measured.now (vector (A.standing state.now)))) }
    ensures fault { IsErrOf result SendStop.Fault → Rose (K.faults out.old) (K.faults out.new) }
    ensures counts { K.faults out.old ≤ K.faults out.new }
{
    let mut waiting = Buffered::new(alloc)?;
    let count = measured_count(measured) as u128;
    send_count(out, &mut waiting, Counted::Measured, count)?;
    let outcomes = send_weighed(alloc, out, &mut waiting, measured, state)?;
    send_count(out, &mut waiting, Counted::Outcomes, outcomes)?;
    waiting.flush(out)?;
    Ok(())
}

// The lines of the outcomes whose weight isn't zero, and how many they are: the walk goes from each to the next.
fn send_weighed<A: Weigh, K: Sink>(
    alloc: Global,
    out: &mut K,
    waiting: &mut Buffered,
    measured: &Bits,
    state: &A,
) -> Result<u128, SendStop>
    requires few { length measured.now ≤ 64 }
    requires size { length (A.standing state.now).input ≡ length measured.now }
    requires light { IsNarrow (total_weight (length measured.now) (vector (A.standing state.now)).entries) }
    ensures ok { OnOk result (Sent (K.written out.old) waiting.old (K.written out.new) waiting.new (listing_of (measured_count measured.now) (has_no_weight measured.now (vector (A.standing state.now))) (outcome_line measured.now (vector (A.standing state.now))))) }
    ensures count { IfOk result (λ m. m ≡ number_listed (measured_count measured.now) (has_no_weight measured.now (vector (A.standing state.now)))) }
    ensures err { OnErr result (SentSome (K.written out.old) waiting.old (K.written out.new) (listing_of (measured_count measured.now) (has_no_weight measured.now (vector (A.standing state.now))) (outcome_line measured.now (vector (A.standing state.now))))) }
    ensures fault { IsErrOf result SendStop.Fault → Rose (K.faults out.old) (K.faults out.new) }
    ensures counts { K.faults out.old ≤ K.faults out.new }
{
    let k = state.exponent();
    let mut outcomes = 0;
    let mut walk = state.outcomes(alloc, measured)?;
    let mut next = next_weighed(alloc, measured, state, &mut walk)?;
    'outcomes: while let Some(found) = next {
        send_outcome(out, waiting, &found.0, found.1, k)?;
        outcomes += 1;
        next = next_weighed(alloc, measured, state, &mut walk)?;
    }
    Ok(outcomes)
}

// The next outcome of the walk, with its weight. It isn't too wide, since that of all states together isn't.
fn next_weighed<A: Weigh>(
    alloc: Global,
    measured: &Bits,
    state: &A,
    walk: &mut A::Outcomes,
) -> Result<Option<(Bits, Weight)>, OutOfMemory>
    requires size { length (A.standing state.now).input ≡ length measured.now }
    requires light { IsNarrow (total_weight (length measured.now) (vector (A.standing state.now)).entries) }
    requires weighs { A.weighs state.now measured.now walk.old }
    ensures found { IfOk result (λ next. IfSome next (λ e. IsNextOutcome measured.now (vector (A.standing state.now)).entries (A.last_outcome walk.old) e.0)) }
    ensures weight { IfOk result (λ next. IfSome next (λ e. e.1 ≡ outcome_weight measured.now (vector (A.standing state.now)).entries e.0)) }
    ensures none { IfOk result (λ next. IfNone next (NoOutcomeAfter measured.now (vector (A.standing state.now)).entries (A.last_outcome walk.old))) }
    ensures weighs { OnOk result (A.weighs state.now measured.now walk.new) }
    ensures at { IfOk result (λ next. IfSome next (λ e. A.last_outcome walk.new ≡ Some e.0)) }
{
    match state.next_weighed(alloc, measured, walk) {
        Ok(next) => Ok(next),
        Err(WeighStop::TooWide) => unreachable!(),
        Err(WeighStop::OutOfMemory) => Err(OutOfMemory),
    }
}

// The line of an outcome of this weight.
fn send_outcome<K: Sink>(
    out: &mut K,
    waiting: &mut Buffered,
    y: &Bits,
    w: Weight,
    k: u32,
) -> Result<(), Failed>
    requires { length y.now ≤ 64 }
    ensures ok { OnOk result (Sent (K.written out.old) waiting.old (K.written out.new) waiting.new (lowest_weight_line w k y.now)) }
    ensures err { OnErr result (SentSome (K.written out.old) waiting.old (K.written out.new) (lowest_weight_line w k y.now)) }
    ensures fault { OnErr result (Rose (K.faults out.old) (K.faults out.new)) }
    ensures counts { K.faults out.old ≤ K.faults out.new }
{
    let (u, j) = lowest_weight(w, k);
    let line = weight_line(y, u, j);
    waiting.put(out, line.as_bytes())
}
