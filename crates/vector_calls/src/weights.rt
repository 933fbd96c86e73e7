//! Weights of a vector, and outcomes of a measurement.
ghost use Rattle.std.specs.Prelude.{◌≡◌, length};
ghost use Rattle.std.specs.Option.{ForSome};
ghost use Rattle.probabilities.specs.Outcomes.{measured_count};
ghost use Rattle.slice_quad.specs.Vectors.{Stands};
ghost use Rattle.slice_weights.specs.OnTop.{IsOutcomeWalk};

use bit_lists::{Bits, Partial};
use call_rows::Page;
use diagram_ops::Diagrams;
use slice_quad::SliceQuad;
use slice_weights::{OutcomeWalk, next_outcome, weigh};

/// The weight of all states.
pub fn tell_total(d: &Diagrams, q: &SliceQuad, page: &mut Page)
    requires { Stands d.now.store q.now }
{
    let p = Partial::free(d.store().order().len());
    page.show(&weigh(page.alloc, d, q, &p));
}

// The list of fixed and free values of four variables that a number has as its digits to the base 3.
fn partial(number: u8) -> Partial
    ensures { length result ≡ 4 }
{
    let mut p = Partial::free(4);
    p.fix(0, value(number % 3));
    p.fix(1, value(number / 3 % 3));
    p.fix(2, value(number / 9 % 3));
    p.fix(3, value(number / 27 % 3));
    p
}

fn value(digit: u8) -> Option<bool> {
    match digit {
        0 => None,
        1 => Some(false),
        _ => Some(true),
    }
}

/// The weight of the states that agree with each partial list of four variables.
pub fn tell_weights(d: &Diagrams, q: &SliceQuad, page: &mut Page)
    requires { Stands d.now.store q.now }
{
    if d.store().order().len() != 4 {
        return;
    }
    for number in 0..81 {
        page.show(&weigh(page.alloc, d, q, &partial(number)));
    }
}

/// The first outcome, and twice the one after the last one; behind the end it begins anew.
pub fn tell_following(d: &Diagrams, q: &SliceQuad, measured: &Bits, page: &mut Page)
    requires stands { Stands d.now.store q.now }
    requires len { length measured.now ≡ length d.now.store.order }
{
    let mut last: Option<Bits> = None;
    'outcomes: for _ in 0..3 {
        match next_outcome(page.alloc, d, q, measured, last.as_ref()) {
            Ok(next) => {
                page.show(&next);
                last = next;
            }
            Err(stop) => page.show(&stop),
        }
    }
}

/// All outcomes of these qubits with their weights, and that there is none behind the last one.
pub fn tell_outcomes(d: &Diagrams, q: &SliceQuad, measured: &Bits, page: &mut Page)
    requires stands { Stands d.now.store q.now }
    requires len { length measured.now ≡ length d.now.store.order }
{
    match OutcomeWalk::begin(page.alloc, d, q, measured) {
        Ok(mut walk) => tell_each(d, q, measured, &mut walk, page),
        Err(stop) => page.show(&stop),
    }
}

fn tell_each(d: &Diagrams, q: &SliceQuad, measured: &Bits, walk: &mut OutcomeWalk, page: &mut Page)
    requires stands { Stands d.now.store q.now }
    requires walk { IsOutcomeWalk d.now.store q.now.four measured.now walk.old }
{
    'outcomes: for _ in 0..18u8 {
        let Ok(found) = walk.next(page.alloc, d, q, measured) else {
            return page.text(" no outcome");
        };
        match found {
            Some((y, w)) => page.show(&(y.place(), y.len(), w)),
            None => page.text(" none"),
        }
    }
}
