//! The lines of a listing of basis states, each written over the one before.
ghost use Rattle.std.specs.Prelude.{◌≡◌, ◌≤◌, ℕ, [], true, length};
ghost use Rattle.ring_omega.specs.declared.quad.Quad.{Quad};
ghost use Rattle.ring_omega.specs.Ring.{zero_quad};
ghost use Rattle.amp_printer.specs.Texts.{state_line, lowest_line};
ghost use Rattle.amp_printer.specs.Private.{line_of};

use crate::Line;
use bit_lists::Bits;
use ring_omega::{Quad, lowest};
use std::marker::Model;

/// A basis state and its amplitude.
#[derive(Drop)]
pub(crate) struct Shown {
    state: Bits,
    entry: Quad,
    exponent: u32,
}

/// The line of a basis state with the lowest form of its amplitude, kept to be written over.
///
/// From one state to the next only the bits from the first that differs on are written, and the amplitude only where it is another one.
#[derive(Drop)]
pub struct ListingLine {
    line: Line,
    shown: Shown,
}

impl Model for ListingLine {
    ghost use Rattle.std.specs.Prelude.{◌≡◌, ℕ, List};
    ghost use Rattle.amp_printer.specs.Private.{line_of};

    ghost Value = { List ℕ };

    ghost view = { λ s. s.line };

    ghost invariant = { λ s. s.line ≡ line_of s.shown };
}

impl ListingLine {
    /// The line of the basis state on no qubits, with the amplitude 0.
    pub fn new() -> ListingLine
        ensures { result ≡ lowest_line [] zero_quad 0 }
    {
        let shown = Shown {
            state: Bits::zeros(0),
            entry: Quad::ZERO,
            exponent: 0,
        };
        let mut line = Line::new();
        write_anew(&mut line, &shown);
        ListingLine { line, shown }
    }

    pub fn as_bytes(&self) -> &[u8]
        ensures { result.now ≡ self.now }
    {
        self.line.as_bytes()
    }

    /// Makes it the line of the basis state `x` with the lowest form of the amplitude q/√2^k.
    pub fn change(&mut self, x: &Bits, q: Quad, k: u32)
        requires { length x.now ≤ 64 }
        ensures { self.new ≡ lowest_line x.now q k }
    {
        let shown = Shown {
            state: *x,
            entry: q,
            exponent: k,
        };
        write_over(&mut self.line, &self.shown, &shown);
        self.shown = shown;
    }
}

// Writes the line of a state over that of another one.
fn write_over(line: &mut Line, before: &Shown, after: &Shown)
    requires few { length after.now.state ≤ 64 }
    requires was { line.old ≡ line_of before.now }
    ensures { line.new ≡ line_of after.now }
{
    if before.state.len() != after.state.len() {
        write_anew(line, after);
        return;
    }
    line.change_bits(&before.state, &after.state);
    if has_same_entry(before, after) {
        return;
    }
    write_entry(line, after);
}

fn has_same_entry(before: &Shown, after: &Shown) -> bool
    ensures entry { result ≡ true → before.now.entry ≡ after.now.entry }
    ensures exponent { result ≡ true → before.now.exponent ≡ after.now.exponent }
{
    before.entry == after.entry && before.exponent == after.exponent
}

// Writes the whole line.
fn write_anew(line: &mut Line, after: &Shown)
    requires few { length after.now.state ≤ 64 }
    ensures { line.new ≡ line_of after.now }
{
    let (q, k) = lowest(after.entry, after.exponent);
    line.truncate(0);
    line.add_state(&after.state, q, k);
}

// Writes the amplitude behind the bits of the state.
fn write_entry(line: &mut Line, after: &Shown)
    requires few { length after.now.state ≤ 64 }
    ensures { (q : Quad) (k : ℕ) → line.old ≡ state_line after.now.state q k → line.new ≡ line_of after.now }
{
    let (q, k) = lowest(after.entry, after.exponent);
    line.truncate(usize::from(after.state.len()) + 3);
    line.add_entry(q, k);
    line.add(b"\n");
}
