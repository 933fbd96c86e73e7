//! The lines of a body, read one by one.
ghost use Rattle.std.specs.Prelude.{◌≡◌, ◌∷◌, [], is_some, option_map, MatchOption};
ghost use Rattle.qasm_forms.specs.Shown.{shown_line};
ghost use Rattle.qasm_forms.specs.Private.Fronts.{mark_at};
ghost use Rattle.qasm_forms.specs.Private.Parsing.{line_call_from, line_at, lines_read};

use crate::angles::{Angles, read_angles};
use crate::lexemes::{Lexeme, Lexemes, Stop, is_name};
use crate::names::{Names, read_names};
use std::marker::Model;

/// A line of a body: a barrier, or a call of a gate with its angles where it has parentheses, on formal arguments.
#[derive(Drop)]
pub enum Line<'a> {
    Barrier(Names<'a>),
    Call(&'a [u8], Option<Angles<'a>>, Names<'a>),
}

/// The lines of a body that are left to read.
#[derive(Drop)]
pub struct Lines<'a> {
    rest: Lexemes<'a>,
}

impl<'a> Model for Lines<'a> {
    ghost use Rattle.std.specs.Prelude.{◌≡◌, List, [], is_some, unwrap_or, true};
    ghost use Rattle.qasm_forms.specs.Statements.{Line as Shown};
    ghost use Rattle.qasm_forms.specs.Private.Parsing.{lines_read};

    ghost Value = { List Shown };

    ghost view = { λ l. unwrap_or (lines_read [] l.rest) [] };

    ghost invariant = { λ l. is_some (lines_read [] l.rest) ≡ true };
}

// A call in a body, after its name.
fn read_call<'a>(name: &'a [u8], lexemes: &mut Lexemes<'a>) -> Option<Line<'a>>
    ensures { option_map shown_line result ≡ line_call_from name.now lexemes.old (mark_at 40 lexemes.old) }
{
    if lexemes.takes(b'(') {
        let angles = read_angles(lexemes)?;
        let on = read_names(lexemes)?;
        Some(Line::Call(name, Some(angles), on))
    } else {
        let on = read_names(lexemes)?;
        Some(Line::Call(name, None, on))
    }
}

// A line, without its `;`.
fn read_line<'a>(lexemes: &mut Lexemes<'a>) -> Option<Line<'a>>
    ensures { option_map shown_line result ≡ line_at lexemes.old }
{
    match lexemes.next()? {
        Lexeme::Word(first) => {
            if first == b"barrier".as_slice() {
                let on = read_names(lexemes)?;
                Some(Line::Barrier(on))
            } else if is_name(first) {
                read_call(first, lexemes)
            } else {
                None
            }
        }
        _ => None,
    }
}

impl<'a> Lines<'a> {
    /// The next one.
    pub fn next(&mut self) -> Option<Line<'a>>
        ensures { MatchOption result ((self.old ≡ []) × (self.new ≡ [])) (λ l. self.old ≡ shown_line l ∷ self.new) }
    {
        if self.rest.is_empty() {
            return None;
        }
        let (mut front, _) = self.rest.cut(Stop::Semicolon);
        read_line(&mut front)
    }
}

// Whether lexemes are lines with a `;` behind each.
#[tactic(auto, using(crate::proofs::Definitions::lines_open, crate::proofs::Definitions::lines_bad, crate::proofs::Definitions::lines_more, crate::proofs::Listed::after_shorter))]
fn are_lines(lexemes: &Lexemes<'_>) -> bool
    ensures { result ≡ is_some (lines_read [] lexemes.now) }
{
    let mut rest = lexemes.ahead();
    while !rest.is_empty() {
        let (mut front, found) = rest.cut(Stop::Semicolon);
        if !found {
            return false;
        }
        let Some(_) = read_line(&mut front) else {
            return false;
        };
    }
    true
}

/// The lines that lexemes are.
pub fn read_lines<'a>(lexemes: &Lexemes<'a>) -> Option<Lines<'a>>
    ensures { result ≡ lines_read [] lexemes.now }
{
    if are_lines(lexemes) {
        Some(Lines {
            rest: lexemes.ahead(),
        })
    } else {
        None
    }
}
