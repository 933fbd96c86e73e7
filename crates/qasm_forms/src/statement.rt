//! Statements, read from their lexemes.
ghost use Rattle.std.specs.Prelude.{◌≡◌, Bool, List, ℕ, IfSome, Some, option_map};
ghost use Rattle.qasm_forms.specs.Statements.{Statement, IsStatement, measure, ended, written};
ghost use Rattle.qasm_forms.specs.Cutting.{seen_bytes, begins_left};
ghost use Rattle.qasm_forms.specs.Private.Fronts.{then, mark_at, seen_end};
ghost use Rattle.qasm_forms.specs.Private.Parsing.{measure_at, is_version, included_at, call_at, params_from, body_at, definition_at, after_word, form_at, statement_at};
ghost use Rattle.qasm_forms.specs.Shown.{shown, shown_if};

use crate::angles::{Angles, read_angles};
use crate::argument::{Argument, read_argument, read_declaration};
use crate::arguments::{Arguments, read_arguments};
use crate::lexemes::{Closing, Lexeme, Lexemes, Stop, is_name};
use crate::lines::{Lines, read_lines};
use crate::names::{Names, read_names, read_params};

/// The form of a statement, with its parts.
#[derive(Drop)]
pub enum Form<'a> {
    Version,
    /// The text with its quotes.
    Include(&'a [u8]),
    /// A name, and the digits of a size.
    Qubits(&'a [u8], &'a [u8]),
    Bits(&'a [u8], &'a [u8]),
    Barrier(Arguments<'a>),
    /// The qubits, and the bits.
    Measure(Argument<'a>, Argument<'a>),
    /// The name of a gate, its angles where it has parentheses, and its arguments.
    Call(&'a [u8], Option<Angles<'a>>, Arguments<'a>),
    /// The name of a gate, its parameters where it has parentheses, its formal arguments, and the lines of its body.
    Definition(&'a [u8], Option<Names<'a>>, Names<'a>, Lines<'a>),
    /// A first word that is left out, what follows it, and its end.
    LeftOut(&'a [u8], Lexemes<'a>, Closing),
}

// The two sides of a measure.
fn read_pair<'a>(lexemes: &mut Lexemes<'a>) -> Option<(Argument<'a>, Argument<'a>)>
    ensures { option_map (λ p. measure p.0 p.1) result ≡ measure_at lexemes.old }
{
    let (mut front, found) = lexemes.cut(Stop::To);
    if !found {
        return None;
    }
    let from = read_argument(&mut front)?;
    let to = read_argument(lexemes)?;
    Some((from, to))
}

fn is_version(lexemes: &mut Lexemes<'_>) -> bool
    ensures { result ≡ is_version lexemes.old }
{
    match lexemes.next() {
        Some(Lexeme::Real(bytes)) => bytes == b"2.0".as_slice() && lexemes.is_empty(),
        Some(_) => false,
        None => false,
    }
}

fn read_include<'a>(lexemes: &mut Lexemes<'a>) -> Option<&'a [u8]>
    ensures { seen_bytes result ≡ included_at lexemes.old }
{
    match lexemes.next()? {
        Lexeme::Quoted(bytes) => {
            if lexemes.is_empty() {
                Some(bytes)
            } else {
                None
            }
        }
        _ => None,
    }
}

// A call of a gate, after its name.
fn read_call<'a>(name: &'a [u8], lexemes: &mut Lexemes<'a>) -> Option<Form<'a>>
    ensures { shown_if result ≡ call_at name.now lexemes.old }
{
    if lexemes.takes(b'(') {
        let angles = read_angles(lexemes)?;
        let arguments = read_arguments(lexemes)?;
        Some(Form::Call(name, Some(angles), arguments))
    } else {
        let arguments = read_arguments(lexemes)?;
        Some(Form::Call(name, None, arguments))
    }
}

// Parameters in parentheses, if there are some. What follows them is left.
fn read_params_of<'a>(lexemes: &mut Lexemes<'a>) -> Option<Option<Names<'a>>>
    ensures { then result lexemes.new ≡ params_from lexemes.old (mark_at 40 lexemes.old) }
{
    if !lexemes.takes(b'(') {
        return Some(None);
    }
    let (front, found) = lexemes.cut(Stop::Close);
    if !found {
        return None;
    }
    let names = read_params(&front)?;
    Some(Some(names))
}

// A definition, after its name and its parameters.
fn read_body<'a>(
    name: &'a [u8],
    params: Option<Names<'a>>,
    lexemes: &mut Lexemes<'a>,
) -> Option<Form<'a>>
    ensures { shown_if result ≡ body_at name.now params.entry lexemes.old }
{
    let (front, found) = lexemes.cut(Stop::Open);
    if !found {
        return None;
    }
    let formals = read_names(&front)?;
    let lines = read_lines(lexemes)?;
    Some(Form::Definition(name, params, formals, lines))
}

// A definition, after the word `gate`.
fn read_definition<'a>(lexemes: &mut Lexemes<'a>) -> Option<Form<'a>>
    ensures { shown_if result ≡ definition_at lexemes.old }
{
    let name = lexemes.name()?;
    let params = read_params_of(lexemes)?;
    read_body(name, params, lexemes)
}

// What follows the first word of a statement that `;` ends.
#[tactic(auto, unfolding(crate::specs::Private::Parsing::after_word))]
fn read_after<'a>(first: &'a [u8], lexemes: &mut Lexemes<'a>) -> Option<Form<'a>>
    ensures { shown_if result ≡ after_word first.now lexemes.old }
{
    if first == b"OPENQASM".as_slice() {
        if is_version(lexemes) {
            Some(Form::Version)
        } else {
            None
        }
    } else if first == b"include".as_slice() {
        let text = read_include(lexemes)?;
        Some(Form::Include(text))
    } else if first == b"qreg".as_slice() {
        let (name, size) = read_declaration(lexemes)?;
        Some(Form::Qubits(name, size))
    } else if first == b"creg".as_slice() {
        let (name, size) = read_declaration(lexemes)?;
        Some(Form::Bits(name, size))
    } else if first == b"barrier".as_slice() {
        let arguments = read_arguments(lexemes)?;
        Some(Form::Barrier(arguments))
    } else if first == b"measure".as_slice() {
        let (from, to) = read_pair(lexemes)?;
        Some(Form::Measure(from, to))
    } else if is_name(first) {
        read_call(first, lexemes)
    } else {
        None
    }
}

// What follows the first word, by what ends the statement and by whether it is left out.
fn read_closed<'a>(
    left: bool,
    end: Closing,
    first: &'a [u8],
    lexemes: &mut Lexemes<'a>,
) -> Option<Form<'a>>
    ensures { shown_if result ≡ form_at left (seen_end end) first.now lexemes.old }
{
    if left {
        return Some(Form::LeftOut(first, lexemes.ahead(), end));
    }
    match end {
        Closing::Semicolon => read_after(first, lexemes),
        Closing::Brace => {
            if first == b"gate".as_slice() {
                read_definition(lexemes)
            } else {
                None
            }
        }
    }
}

fn read_form<'a>(lexemes: &mut Lexemes<'a>, left: bool, end: Closing) -> Option<Form<'a>>
    ensures { shown_if result ≡ statement_at left (seen_end end) lexemes.old }
{
    match lexemes.next() {
        Some(Lexeme::Word(first)) => read_closed(left, end, first, lexemes),
        Some(_) => None,
        None => None,
    }
}

/// The statement whose lexemes before its end these are, where they have a form. Whether they begin with a word that is left out is
/// for the caller to say: then that is their form. The work is linear in the lexemes, and takes no memory.
pub fn read_statement<'a>(lexemes: &mut Lexemes<'a>, left: bool, end: Closing) -> Option<Form<'a>>
    ensures found { (leaves : List ℕ → Bool) → left ≡ begins_left leaves lexemes.old → IfSome result (λ form. IsStatement leaves (shown form) × (ended lexemes.old (seen_end end) ≡ written (shown form))) }
    ensures only { (leaves : List ℕ → Bool) (s : Statement) → left ≡ begins_left leaves lexemes.old → IsStatement leaves s → ended lexemes.old (seen_end end) ≡ written s → shown_if result ≡ Some s }
{
    read_form(lexemes, left, end)
}
