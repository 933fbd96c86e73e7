//! Names with commas between them, read one by one.
ghost use Rattle.std.specs.Prelude.{◌≡◌, ◌∷◌, [], is_some, MatchOption};
ghost use Rattle.std.specs.List.{list_any};
ghost use Rattle.qasm_forms.specs.Private.Parsing.{names_in, names_at, is_function, param_names};

use crate::arguments::{Arguments, read_arguments};
use crate::lexemes::Lexemes;
use qasm_lex::is_one_of;
use std::marker::Model;

/// The names that are left to read.
#[derive(Drop)]
pub struct Names<'a> {
    rest: Arguments<'a>,
}

impl<'a> Model for Names<'a> {
    ghost use Rattle.std.specs.Prelude.{List, ℕ, map};
    ghost use Rattle.qasm_forms.specs.Statements.{Argument as Shown};

    ghost Value = { List (List ℕ) };

    ghost view = { λ n. map (λ (a : Shown). a.name) n.rest };
}

impl<'a> Names<'a> {
    /// The next one.
    pub fn next(&mut self) -> Option<&'a [u8]>
        ensures { MatchOption result ((self.old ≡ []) × (self.new ≡ [])) (λ n. self.old ≡ n.now ∷ self.new) }
    {
        let argument = self.rest.next()?;
        Some(argument.name())
    }

    /// The same once more, so that one of them can be read.
    pub fn ahead(&self) -> Names<'a>
        ensures { result ≡ self.now }
    {
        Names {
            rest: self.rest.ahead(),
        }
    }
}

// Whether none of the arguments has an index.
fn are_names(arguments: &Arguments<'_>) -> bool
    ensures { result ≡ is_some (names_in arguments.now) }
{
    let mut rest = arguments.ahead();
    while let Some(argument) = rest.next() {
        if argument.index().is_some() {
            return false;
        }
    }
    true
}

/// The names that lexemes are, with a comma between two.
pub fn read_names<'a>(lexemes: &Lexemes<'a>) -> Option<Names<'a>>
    ensures { result ≡ names_at lexemes.now }
{
    let arguments = read_arguments(lexemes)?;
    if are_names(&arguments) {
        Some(Names { rest: arguments })
    } else {
        None
    }
}

fn is_function(name: &[u8]) -> bool
    ensures { result ≡ is_function name.now }
{
    is_one_of(name, &[b"sin", b"cos", b"tan", b"exp", b"ln", b"sqrt"])
}

fn has_function(names: &Names<'_>) -> bool
    ensures { result ≡ list_any is_function names.now }
{
    let mut rest = names.ahead();
    while let Some(name) = rest.next() {
        if is_function(name) {
            return true;
        }
    }
    false
}

/// The names of parameters that lexemes are, perhaps none.
pub fn read_params<'a>(lexemes: &Lexemes<'a>) -> Option<Names<'a>>
    ensures { result ≡ param_names lexemes.now }
{
    if lexemes.is_empty() {
        return Some(Names {
            rest: Arguments::none(lexemes),
        });
    }
    let names = read_names(lexemes)?;
    if has_function(&names) {
        None
    } else {
        Some(names)
    }
}
