//! One outcome, drawn bit by bit.
ghost use Rattle.std.specs.Prelude.{◌≡◌, ◌<◌, ◌≤◌, ◌^◌, ◌*ℤ◌, ◌-ℤ◌, ◌<ℤ◌, ◌≤ℤ◌, pos, ℕ, Bool, List, Some, true, length, slice_set, slice_index_or, unsigned_abs, IfOk};
ghost use Rattle.ring_omega.specs.declared.quad.Quad.{Quad};
ghost use Rattle.probabilities.specs.Outcomes.{measured_count};
ghost use Rattle.probabilities.specs.Weighing.{weight_at, total_weight, IsNarrow, IsBalanced};
ghost use Rattle.sampler.specs.Draws.{draws_one, bit_drawn, drawn};

use crate::sign::below_zero;
use bit_lists::{Bits, OutOfMemory, Partial};
use probabilities::measured_count;
use ring_omega::Weight;
use std::alloc::Global;

/// A vector whose states can be weighed.
pub trait Weighs {
    /// How many qubits it has.
    ghost qubits: { Self → ℕ };

    /// Its entries.
    ghost entries: { Self → List Bool → Quad };

    /// The weight of the states that agree with a partial list, as a sum over those states.
    fn weigh(&self, alloc: Global, p: &Partial) -> Result<Weight, OutOfMemory>
        requires len { length p.now ≡ qubits self.now }
        requires narrow { IsNarrow (total_weight (qubits self.now) (entries self.now)) }
        ensures { IfOk result (λ w. w ≡ weight_at (entries self.now) p.now) };
}

/// The outcome of the measured qubits that these words draw, one word for each of them, in the order of the qubits. A bit is 1 where its word
/// over 2^64 is below the part that the states with a 1 are of those that are left. Two weights are taken for each measured qubit.
pub fn draw<W: Weighs>(
    alloc: Global,
    w: &W,
    measured: &Bits,
    words: &[u64],
) -> Result<Bits, OutOfMemory>
    requires size { length measured.now ≡ W.qubits w.now }
    requires light { (total_weight (W.qubits w.now) (W.entries w.now)).a <ℤ pos (2 ^ 60) }
    requires words { measured_count measured.now ≤ length words.now }
    ensures { IfOk result (λ y. y ≡ drawn (W.entries w.now) (λ i. slice_index_or words.now i 0) measured.now) }
{
    let mut p = Partial::free(measured.len());
    let mut y = Bits::zeros(measured_count(measured));
    let mut i = 0;
    for q in 0..measured.len() {
        if measured.get(q) {
            let b = draw_bit(alloc, w, &p, q, words[usize::from(i)])?;
            p.fix(q, Some(b));
            y.set(i, b);
            i += 1;
        }
    }
    Ok(y)
}

// The bit that a word draws for qubit q.
fn draw_bit<W: Weighs>(
    alloc: Global,
    w: &W,
    p: &Partial,
    q: u8,
    word: u64,
) -> Result<bool, OutOfMemory>
    requires len { length p.now ≡ W.qubits w.now }
    requires within { q < length p.now }
    requires light { (total_weight (W.qubits w.now) (W.entries w.now)).a <ℤ pos (2 ^ 60) }
    ensures { IfOk result (λ b. b ≡ bit_drawn (W.entries w.now) p.now q word) }
{
    let whole = w.weigh(alloc, p)?;
    let half = w.weigh(alloc, &with_one(p, q))?;
    Ok(draws_one(word, whole, half))
}

// The partial list with a 1 for qubit q.
fn with_one(p: &Partial, q: u8) -> Partial
    requires { q < length p.now }
    ensures { result ≡ slice_set p.now q (Some true) }
{
    let mut next = *p;
    next.fix(q, Some(true));
    next
}

/// Whether a word draws a 1, where all states that are left have the weight `whole`, and those of them with a 1 have `half`.
pub fn draws_one(word: u64, whole: Weight, half: Weight) -> bool
    requires whole { IsBalanced whole }
    requires half { IsBalanced half }
    requires light { whole.a <ℤ pos (2 ^ 60) }
    requires light_half { half.a <ℤ pos (2 ^ 60) }
    ensures { result ≡ draws_one word whole half }
{
    below_zero(lead(word, whole.a, half.a), lead(word, whole.b, half.b))
}

// By how much the word's part of the whole is ahead of the half, 2^64 times.
fn lead(word: u64, whole: i128, half: i128) -> i128
    requires whole { unsigned_abs whole < 2 ^ 60 }
    requires half { unsigned_abs half < 2 ^ 60 }
    ensures value { result ≡ pos word *ℤ whole -ℤ pos (2 ^ 64) *ℤ half }
    ensures small { unsigned_abs result < 2 ^ 126 }
{
    times(u128::from(word), whole) - times(1 << 64, half)
}

fn times(factor: u128, z: i128) -> i128
    requires factor { factor ≤ 2 ^ 64 }
    requires z { unsigned_abs z < 2 ^ 60 }
    ensures value { result ≡ pos factor *ℤ z }
    ensures small { unsigned_abs result ≤ 2 ^ 124 }
{
    factor as i128 * z
}
