//! Angles, from the tokens of a text.
ghost use Rattle.std.specs.Prelude.{◌≡◌, ◌≤◌, [], All, Result, length};
ghost use Rattle.qasm_lex.specs.declared.refusal.AngleRefusal.{AngleRefusal};
ghost use Rattle.qasm_lex.specs.Lexemes.{IsWithin, lexemes_of};
ghost use Rattle.qasm_lex.specs.Fractions.{Ratio};
ghost use Rattle.qasm_lex.specs.Expressions.{Tree};
ghost use Rattle.qasm_lex.specs.Values.{Outcome as Told};
ghost use Rattle.qasm_lex.specs.Private.Descent.{parsed, expr, whole_of, outcome_from, shape_from, answer_from};
ghost use Rattle.qasm_lex.specs.Symbols.{symbols, symbols_in};
ghost use Rattle.qasm_lex.specs.Angles.{IsBound, names_of, given_by, IsShape, told, IsOutcome, outcome_by, IsAnswer, answer_of};

use crate::descent::value_of;
use crate::params::{AngleValue, Bound};
use crate::pi_fraction::PiFraction;
use crate::refusal::AngleRefusal;
use crate::symbol::{Symbol, symbol_in};
use crate::token::Token;
use crate::value::{Outcome, multiple};
use arrayvec::ArrayVec;

/// The most tokens of an angle.
const LONGEST: usize = 64;

/// What the tokens stand for, where these are the parameters.
fn symbols_of(text: &[u8], list: &[Token], bound: &[Bound]) -> ArrayVec<Symbol, LONGEST>
    requires of_text { All (IsWithin text.now) list.now }
    requires bound { All (IsBound text.now) bound.now }
    requires short { length list.now ≤ 64 }
    ensures { result.items ≡ symbols_in (names_of text.now bound.now) (lexemes_of text.now list.now) }
{
    let mut symbols = ArrayVec::new();
    for token in list {
        symbols.push(symbol_in(text, *token, bound));
    }
    symbols
}

// An outcome by its numbers.
fn shown(outcome: Outcome) -> Result<AngleValue, AngleRefusal>
    ensures { outcome_by result ≡ outcome }
{
    Ok(outcome?.shown())
}

// What the symbols spell.
fn outcome_read(symbols: &[Symbol], bound: &[Bound]) -> Result<AngleValue, AngleRefusal>
    ensures { outcome_by result ≡ outcome_from (whole_of (parsed (given_by bound.now) expr symbols.now)) }
{
    match value_of(symbols, bound) {
        Some(outcome) => shown(outcome),
        None => Err(AngleRefusal::Malformed),
    }
}

// Whether the symbols spell something.
fn shape_read(symbols: &[Symbol]) -> Result<(), AngleRefusal>
    ensures { result ≡ shape_from (whole_of (parsed [] expr symbols.now)) }
{
    match value_of(symbols, &[]) {
        Some(_) => Ok(()),
        None => Err(AngleRefusal::Malformed),
    }
}

/// That the symbols are those of an expression. The work is linear in the symbols, of which 64 are read at most. It takes no memory.
pub fn shape_of(symbols: &[Symbol]) -> Result<(), AngleRefusal>
    ensures is { (shape : Result Tree AngleRefusal) × IsShape symbols.now shape × (result ≡ told shape) }
{
    if symbols.len() > LONGEST {
        return Err(AngleRefusal::TooLong);
    }
    shape_read(symbols)
}

/// The value that the symbols spell where the parameters are bound to these, or the refusal that is met first. The work is linear in the
/// symbols, of which 64 are read at most. It takes no memory.
pub fn outcome_of(symbols: &[Symbol], bound: &[Bound]) -> Result<AngleValue, AngleRefusal>
    ensures is { IsOutcome (given_by bound.now) symbols.now (outcome_by result) }
    ensures only { (outcome : Told) → IsOutcome (given_by bound.now) symbols.now outcome → outcome ≡ outcome_by result }
{
    if symbols.len() > LONGEST {
        return Err(AngleRefusal::TooLong);
    }
    outcome_read(symbols, bound)
}

/// Whether the tokens spell an expression over the parameters. Their values aren't used.
pub fn angle_shape(text: &[u8], list: &[Token], bound: &[Bound]) -> Result<(), AngleRefusal>
    requires tokens { All (IsWithin text.now) list.now }
    requires bound { All (IsBound text.now) bound.now }
    ensures is { (shape : Result Tree AngleRefusal) × IsShape (symbols_in (names_of text.now bound.now) (lexemes_of text.now list.now)) shape × (result ≡ told shape) }
{
    if list.len() > LONGEST {
        return Err(AngleRefusal::TooLong);
    }
    shape_of(symbols_of(text, list, bound).as_slice())
}

/// The value `u + v·π` that the tokens spell, or the refusal that is met first. A word that is spelled as the name of a parameter stands for
/// its value; of two parameters of one name it is the first. It takes no memory.
pub fn angle_value(text: &[u8], list: &[Token], bound: &[Bound]) -> Result<AngleValue, AngleRefusal>
    requires tokens { All (IsWithin text.now) list.now }
    requires bound { All (IsBound text.now) bound.now }
    ensures is { IsOutcome (given_by bound.now) (symbols_in (names_of text.now bound.now) (lexemes_of text.now list.now)) (outcome_by result) }
    ensures only { (outcome : Told) → IsOutcome (given_by bound.now) (symbols_in (names_of text.now bound.now) (lexemes_of text.now list.now)) outcome → outcome ≡ outcome_by result }
{
    if list.len() > LONGEST {
        return Err(AngleRefusal::TooLong);
    }
    outcome_of(symbols_of(text, list, bound).as_slice(), bound)
}

/// The fraction of π that the symbols spell.
fn fraction_of(symbols: &[Symbol]) -> Result<PiFraction, AngleRefusal>
    ensures { answer_of result ≡ answer_from (whole_of (parsed [] expr symbols.now)) }
{
    match value_of(symbols, &[]) {
        Some(outcome) => Ok(multiple(outcome)?.of_pi()),
        None => Err(AngleRefusal::Malformed),
    }
}

/// The fraction of π that the tokens spell, or the refusal that is met first.
///
/// Numbers, `pi`, `+`, `-`, `*`, `/` and parentheses are exact. The work is linear in the bytes of the tokens. It takes no
/// memory, and its depth is bounded by the 64 tokens.
pub fn angle(text: &[u8], list: &[Token]) -> Result<PiFraction, AngleRefusal>
    requires { All (IsWithin text.now) list.now }
    ensures answer { IsAnswer (symbols (lexemes_of text.now list.now)) (answer_of result) }
    ensures only { (answer : Result Ratio AngleRefusal) → IsAnswer (symbols (lexemes_of text.now list.now)) answer → answer ≡ answer_of result }
{
    if list.len() > LONGEST {
        return Err(AngleRefusal::TooLong);
    }
    fraction_of(symbols_of(text, list, &[]).as_slice())
}
