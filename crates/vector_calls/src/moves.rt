//! Steps on a vector: matrices on one variable, also where others are set, and exchanges of two variables.
ghost use Rattle.std.specs.Prelude.{◌≡◌, ◌≤◌, IfSome, length};
ghost use Rattle.slice_quad.specs.Stepping.{AreReducedRows, IsStepOn, half_of};
ghost use Rattle.slice_quad.specs.Vectors.{Stands};

use bit_lists::Bits;
use call_rows::{Page, Row};
use diagram_ops::Diagrams;
use gate_set::Entry;
use slice_quad::{SliceQuad, Step, exponent, step};

// The rows of a matrix, and how many factors 1/√2 it has beside them. A name of none is that of zero.
fn rows_of(name: &str) -> ([[Entry; 2]; 2], u8)
    ensures reduced { AreReducedRows result.0 }
    ensures half { result.1 ≤ 1 }
{
    let zero = Entry::Zero;
    let one = Entry::Omega(0);
    match name {
        "h" => ([[one, one], [one, Entry::Omega(4)]], 1),
        "s" => ([[one, zero], [zero, Entry::Omega(2)]], 0),
        "t" => ([[one, zero], [zero, Entry::Omega(1)]], 0),
        "x" => ([[zero, one], [one, zero]], 0),
        _ => ([[zero, zero], [zero, zero]], 0),
    }
}

// A matrix on a variable where others are set, if there is that one.
fn mix(controls: Bits, name: &str, target: u8) -> Option<Step>
    ensures on { IfSome result (IsStepOn (length controls)) }
    ensures half { IfSome result (λ s. half_of s ≤ 1) }
{
    if target >= controls.len() {
        return None;
    }
    let (rows, half) = rows_of(name);
    Some(Step::Mix {
        controls,
        target,
        rows,
        half,
    })
}

// The exchange of two of so many variables.
fn exchange(n: u8, first: u8, second: u8) -> Option<Step>
    requires { n ≤ 128 }
    ensures on { IfSome result (IsStepOn n) }
    ensures half { IfSome result (λ s. half_of s ≤ 1) }
{
    if first >= n || second >= n {
        return None;
    }
    Some(Step::Exchange {
        controls: Bits::zeros(n),
        first,
        second,
    })
}

/// Applies the matrix of the next words, by a width: the variables that have to be set, the matrix and its variable.
pub fn tell_mix(d: &mut Diagrams, q: &mut SliceQuad, row: &mut Row<'_>, page: &mut Page)
    requires stands { Stands d.old.store q.old }
    ensures stands { Stands d.new.store q.new }
    ensures order { d.new.store.order ≡ d.old.store.order }
{
    let width = row.small(128);
    let found = mix(
        row.bits_of(d.store().order().len()),
        row.name(),
        row.small(127),
    );
    match found {
        Some(s) if 2 <= width && exponent(q) < 1000 => page.show(&step(d, q, &s, width)),
        _ => page.text(" no step"),
    }
}

/// Exchanges the variables of the next words.
pub fn tell_exchange(d: &mut Diagrams, q: &mut SliceQuad, row: &mut Row<'_>, page: &mut Page)
    requires stands { Stands d.old.store q.old }
    ensures stands { Stands d.new.store q.new }
    ensures order { d.new.store.order ≡ d.old.store.order }
{
    let found = exchange(d.store().order().len(), row.small(127), row.small(127));
    match found {
        Some(s) if exponent(q) < 1000 => page.show(&step(d, q, &s, 128)),
        _ => page.text(" no step"),
    }
}

// The step with a number among many: H on each variable, a flip of each by the one before it, or T and H in turn on the first one.
fn numbered(n: u8, name: &str, i: u32) -> Option<Step>
    requires { n ≤ 128 }
    ensures on { IfSome result (IsStepOn n) }
    ensures half { IfSome result (λ s. half_of s ≤ 1) }
{
    let mut controls = Bits::zeros(n);
    let place = (i % 128) as u8;
    match name {
        "each" => mix(controls, "h", place),
        "chain" => {
            if place < controls.len() {
                controls.set(place, true);
            }
            mix(controls, "x", place + 1)
        }
        _ => mix(controls, if i % 2 == 0 { "t" } else { "h" }, 0),
    }
}

// Applies the step with a number. Whether it is accepted.
fn is_applied(d: &mut Diagrams, q: &mut SliceQuad, name: &str, i: u32) -> bool
    requires stands { Stands d.old.store q.old }
    ensures stands { Stands d.new.store q.new }
    ensures order { d.new.store.order ≡ d.old.store.order }
{
    match numbered(d.store().order().len(), name, i) {
        Some(s) if exponent(q) < 1000 => step(d, q, &s, 128).is_ok(),
        _ => false,
    }
}

/// Applies so many steps. Tells whether all are accepted.
pub fn tell_many(d: &mut Diagrams, q: &mut SliceQuad, name: &str, count: u32, page: &mut Page)
    requires stands { Stands d.old.store q.old }
    ensures stands { Stands d.new.store q.new }
    ensures order { d.new.store.order ≡ d.old.store.order }
{
    let mut all = true;
    'steps: for i in 0..count {
        all = is_applied(d, q, name, i) && all;
    }
    page.show(&all);
}
