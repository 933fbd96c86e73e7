//! Outcomes of a measurement, and probabilities.
ghost use Rattle.std.specs.Prelude.{◌≡◌, ◌≤◌, ◌++◌, [], length};
ghost use Rattle.amp_printer.specs.Texts.{weight_line, outcome_text, fidelity_text};

use crate::Line;
use bit_lists::Bits;
use ring_omega::Weight;

/// The line `BITS (A,B)/2^k` of an outcome, in the order of the measured qubits, with its probability (A + B√2)/2^k as it is given.
#[tactic(auto, unfolding(crate::specs::Texts::weight_line))]
pub fn weight_line(x: &Bits, w: Weight, k: u32) -> Line
    requires { length x.now ≤ 64 }
    ensures { result ≡ weight_line x.now w k }
{
    let mut line = Line::new();
    line.add_bits(x);
    line.add_weight(w, k);
    line
}

/// The line `BITS` of an outcome that was drawn, in the order of the measured qubits.
#[tactic(auto, unfolding(crate::specs::Texts::outcome_text))]
pub fn outcome_line(y: &Bits) -> Line
    requires { length y.now ≤ 64 }
    ensures { result ≡ outcome_text y.now }
{
    let mut line = Line::new();
    line.add_bits(y);
    line.add(b"\n");
    line
}

/// The line `fidelity (A,B)/2^k` of two circuits, with the fidelity (A + B√2)/2^k as it is given.
#[tactic(auto, unfolding(crate::specs::Texts::fidelity_text))]
pub fn fidelity_line(w: Weight, k: u32) -> Line
    ensures { result ≡ fidelity_text w k }
{
    let mut line = Line::new();
    line.add(b"fidelity");
    line.add_weight(w, k);
    line
}

impl Line {
    // A blank, the number (A + B√2)/2^k, and a line feed.
    #[tactic(auto, unfolding(crate::specs::Texts::weight_line))]
    fn add_weight(&mut self, w: Weight, k: u32)
        requires { length self.old ≤ 512 }
        ensures { self.new ≡ self.old ++ weight_line [] w k }
    {
        self.add(b" (");
        self.add_integer(w.a);
        self.add(b",");
        self.add_integer(w.b);
        self.add(b")/2^");
        self.add_count(u128::from(k));
        self.add(b"\n");
    }
}
