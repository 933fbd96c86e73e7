//! The outcomes that a measurement may have, one after another.
ghost use Rattle.std.specs.Prelude.{◌≡◌, ◌≤◌, true, false, length, IfSome, IfNone};
ghost use Rattle.std.specs.Option.{option_copied, ForSome};
ghost use Rattle.circuit_model.specs.Working.{work};
ghost use Rattle.probabilities.specs.Outcomes.{measured_count, is_zero_weight};
ghost use Rattle.probabilities.specs.Possible.{IsPossible, IsImpossible, IsNextOutcome, NoOutcomeAfter};
ghost use Rattle.probabilities.specs.Private.{IsBehind};

use crate::outcome::{fixed_to, measured_count};
use crate::weigh::weigh_dense;
use amp_dense::DenseState;
use bit_lists::Bits;
use ring_omega::Weight;

/// The first outcome after the given one, or of all, that is possible; None where there is none. Of a vector that is kept as a list of all
/// entries. It takes no memory, and goes through the entries at most once.
pub fn next_outcome_dense(s: &DenseState, measured: &Bits, after: Option<&Bits>) -> Option<Bits>
    requires len { length measured.now ≡ length s.now.input }
    requires given { ForSome (option_copied after) (λ y. length y ≡ measured_count measured.now) }
    ensures found { IfSome result (IsNextOutcome measured.now (work s.now.gates s.now.input).entries (option_copied after.entry)) }
    ensures none { IfNone result (NoOutcomeAfter measured.now (work s.now.gates s.now.input).entries (option_copied after.entry)) }
{
    let _few = measured.len();
    let mut next = first_behind(measured_count(measured), after);
    'outcomes: while let Some(y) = next {
        if is_possible(s, measured, &y) {
            return Some(y);
        }
        next = y.next_lex();
    }
    None
}

// The list after the given one, or the first one.
fn first_behind(count: u8, after: Option<&Bits>) -> Option<Bits>
    requires few { count ≤ 128 }
    requires given { ForSome (option_copied after) (λ y. length y ≡ count) }
    ensures { IsBehind count (option_copied after.entry) result }
{
    match after {
        None => Some(Bits::zeros(count)),
        Some(y) => y.next_lex(),
    }
}

// Whether an outcome is possible, which its weight tells: the part without √2 is a sum of squares.
fn is_possible(s: &DenseState, measured: &Bits, y: &Bits) -> bool
    requires len { length measured.now ≡ length s.now.input }
    requires outcome { length y.now ≡ measured_count measured.now }
    ensures yes { result ≡ true → IsPossible measured.now (work s.now.gates s.now.input).entries y.now }
    ensures no { result ≡ false → IsImpossible measured.now (work s.now.gates s.now.input).entries y.now }
{
    match weigh_dense(s, &fixed_to(measured, y)) {
        Ok(w) => !is_zero(w),
        Err(_) => true,
    }
}

fn is_zero(w: Weight) -> bool
    ensures { result ≡ is_zero_weight w }
{
    w == (Weight { a: 0, b: 0 })
}
