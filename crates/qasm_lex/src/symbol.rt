//! Symbols of expressions.
ghost use Rattle.std.specs.Prelude.{◌≡◌, All};
ghost use Rattle.std.specs.List.{list_any, slice_range};
ghost use Rattle.std.specs.Str.{bytes_eq};
ghost use Rattle.qasm_lex.specs.Lexemes.{IsWithin, lexeme_of, of_kind};
ghost use Rattle.qasm_lex.specs.Symbols.{word_symbol, mark_symbol, symbol_of, param_of, symbol_in};
ghost use Rattle.qasm_lex.specs.Angles.{IsBound, names_of};

use crate::number::narrow_number;
use crate::params::Bound;
use crate::token::{Token, TokenKind};

/// What a token stands for in an expression.
#[derive(Clone, Copy, Debug, Default, PartialEq, Eq)]
pub enum Symbol {
    /// A whole number, or None where it is more than 2^63 - 1.
    Whole(Option<i64>),
    Real,
    Pi,
    /// The parameter of this number, counted from 0.
    Param(usize),
    /// `sin`, `cos`, `tan`, `exp`, `ln` or `sqrt`.
    Function,
    Plus,
    Minus,
    Times,
    Over,
    Caret,
    Open,
    Close,
    /// In no expression.
    #[default]
    Other,
}

/// Whether the bytes are one of the words. The work is linear in the bytes and the words.
pub fn is_one_of(bytes: &[u8], words: &[&[u8]]) -> bool
    ensures { result ≡ list_any (λ word. bytes_eq bytes.now word.now) words.now }
{
    words.iter().any(|word| bytes == *word)
}

#[tactic(auto, unfolding(crate::specs::Symbols::word_symbol))]
fn word_symbol(word: &[u8]) -> Symbol
    ensures { result ≡ word_symbol word.now }
{
    if word == b"pi".as_slice() {
        Symbol::Pi
    } else if is_one_of(word, &[b"sin", b"cos", b"tan", b"exp", b"ln", b"sqrt"]) {
        Symbol::Function
    } else {
        Symbol::Other
    }
}

#[tactic(auto, unfolding(crate::specs::Symbols::mark_symbol))]
fn mark_symbol(mark: u8) -> Symbol
    ensures { result ≡ mark_symbol mark }
{
    match mark {
        b'+' => Symbol::Plus,
        b'-' => Symbol::Minus,
        b'*' => Symbol::Times,
        b'/' => Symbol::Over,
        b'^' => Symbol::Caret,
        b'(' => Symbol::Open,
        b')' => Symbol::Close,
        _ => Symbol::Other,
    }
}

fn is_named(text: &[u8], bound: Bound, name: &[u8]) -> bool
    requires { IsBound text.now bound }
    ensures { result ≡ bytes_eq name.now (slice_range text.now bound.from bound.to) }
{
    let own = &text[bound.from as usize..bound.to as usize];
    name == own
}

// The number of the parameter with this name.
fn param_of(text: &[u8], bound: &[Bound], name: &[u8]) -> Option<usize>
    requires { All (IsBound text.now) bound.now }
    ensures { result ≡ param_of (names_of text.now bound.now) name.now }
{
    let mut number = 0;
    let mut rest = bound;
    while let Some((first, after)) = rest.split_first() {
        if is_named(text, *first, name) {
            return Some(number);
        }
        number += 1;
        rest = after;
    }
    None
}

/// What a token of the text stands for, where these are the parameters.
pub fn symbol_in(text: &[u8], token: Token, bound: &[Bound]) -> Symbol
    requires token { IsWithin text.now token }
    requires bound { All (IsBound text.now) bound.now }
    ensures { result ≡ symbol_in (names_of text.now bound.now) (lexeme_of text.now token) }
{
    let bytes = &text[token.from as usize..token.to as usize];
    if token.kind == TokenKind::Word {
        if let Some(number) = param_of(text, bound, bytes) {
            return Symbol::Param(number);
        }
    }
    symbol_of(token.kind, bytes)
}

/// What a token of this kind and these bytes stands for, where it names no parameter.
pub fn symbol_of(kind: TokenKind, bytes: &[u8]) -> Symbol
    ensures { result ≡ symbol_of (of_kind kind bytes.now) }
{
    match kind {
        TokenKind::Word => word_symbol(bytes),
        TokenKind::Whole => Symbol::Whole(narrow_number(bytes)),
        TokenKind::Real => Symbol::Real,
        TokenKind::Mark(mark) => mark_symbol(mark),
        TokenKind::Text | TokenKind::Arrow | TokenKind::Equal => Symbol::Other,
    }
}
