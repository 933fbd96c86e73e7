//! Counts with the word for what they count.
ghost use Rattle.std.specs.Prelude.{◌≡◌, ◌≤◌, length};
ghost use Rattle.amp_printer.specs.Texts.{word_of, count_line};

use crate::Line;

/// What is counted.
#[derive(Clone, Copy, Debug, PartialEq, Eq)]
pub enum Counted {
    Qubits,
    States,
    Measured,
    Outcomes,
    Gates,
    Exponent,
    Shots,
}

impl Counted {
    fn word(self) -> &'static str
        ensures word { result.now ≡ word_of self }
        ensures short { length result.now ≤ 8 }
    {
        match self {
            Counted::Qubits => "qubits",
            Counted::States => "states",
            Counted::Measured => "measured",
            Counted::Outcomes => "outcomes",
            Counted::Gates => "gates",
            Counted::Exponent => "exponent",
            Counted::Shots => "shots",
        }
    }
}

/// The line of a count, as `qubits 2`.
#[tactic(auto, unfolding(crate::specs::Texts::count_line))]
pub fn count_line(word: Counted, n: u128) -> Line
    ensures { result ≡ count_line word n }
{
    let mut line = Line::new();
    line.add(word.word().as_bytes());
    line.add(b" ");
    line.add_count(n);
    line.add(b"\n");
    line
}
