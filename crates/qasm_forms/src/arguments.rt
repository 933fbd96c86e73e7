//! Arguments with commas between them, read one by one.
ghost use Rattle.std.specs.Prelude.{◌≡◌, ◌∷◌, [], is_some, MatchOption};
ghost use Rattle.qasm_forms.specs.Private.Parsing.{argument_at, arguments_at};

use crate::argument::{Argument, read_argument};
use crate::lexemes::{Lexemes, Stop};
use std::marker::Model;

/// The arguments of a statement that are left to read.
#[derive(Drop)]
pub struct Arguments<'a> {
    rest: Lexemes<'a>,
    done: bool,
}

impl<'a> Model for Arguments<'a> {
    ghost use Rattle.std.specs.Prelude.{◌≡◌, List, is_some, true, false};
    ghost use Rattle.qasm_forms.specs.Statements.{Argument as Shown};
    ghost use Rattle.qasm_forms.specs.Private.Parsing.{arguments_at, left_arguments};

    ghost Value = { List Shown };

    ghost view = { λ a. left_arguments a.done a.rest };

    ghost invariant = { λ a. a.done ≡ false → is_some (arguments_at a.rest) ≡ true };
}

impl<'a> Arguments<'a> {
    /// The next one.
    pub fn next(&mut self) -> Option<Argument<'a>>
        ensures { MatchOption result ((self.old ≡ []) × (self.new ≡ [])) (λ a. self.old ≡ a ∷ self.new) }
    {
        if self.done {
            return None;
        }
        let (mut front, more) = self.rest.cut(Stop::Comma);
        self.done = !more;
        read_argument(&mut front)
    }

    /// None.
    pub fn none(lexemes: &Lexemes<'a>) -> Arguments<'a>
        ensures { result ≡ [] }
    {
        Arguments {
            rest: lexemes.ahead(),
            done: true,
        }
    }

    /// The same once more, so that one of them can be read.
    pub fn ahead(&self) -> Arguments<'a>
        ensures { result ≡ self.now }
    {
        Arguments {
            rest: self.rest.ahead(),
            done: self.done,
        }
    }
}

// Whether lexemes are arguments with a comma between two.
#[tactic(auto, using(crate::proofs::Listed::arguments_none, crate::proofs::Listed::arguments_last, crate::proofs::Listed::arguments_more, crate::proofs::Listed::after_shorter))]
fn are_arguments(lexemes: &Lexemes<'_>) -> bool
    ensures { result ≡ is_some (arguments_at lexemes.now) }
{
    let mut rest = lexemes.ahead();
    loop {
        let (mut front, more) = rest.cut(Stop::Comma);
        let Some(_) = read_argument(&mut front) else {
            return false;
        };
        if !more {
            return true;
        }
    }
}

/// The arguments that lexemes are, with a comma between two.
pub fn read_arguments<'a>(lexemes: &Lexemes<'a>) -> Option<Arguments<'a>>
    ensures { result ≡ arguments_at lexemes.now }
{
    if are_arguments(lexemes) {
        Some(Arguments {
            rest: lexemes.ahead(),
            done: false,
        })
    } else {
        None
    }
}
