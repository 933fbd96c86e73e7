//! Arguments of statements, and declared sizes.
ghost use Rattle.std.specs.Prelude.{◌≡◌, option_map};
ghost use Rattle.qasm_forms.specs.Private.Fronts.{index_at};
ghost use Rattle.qasm_forms.specs.Cutting.{seen_bytes};
ghost use Rattle.qasm_forms.specs.Private.Parsing.{declaration_at, argument_at};

use crate::lexemes::Lexemes;
use std::marker::Model;

/// A register, or one place of it by the digits of its index.
#[derive(Drop)]
pub struct Argument<'a> {
    name: &'a [u8],
    index: Option<&'a [u8]>,
}

impl<'a> Model for Argument<'a> {
    ghost use Rattle.qasm_forms.specs.Statements.{Argument as Written};
    ghost use Rattle.qasm_forms.specs.Cutting.{seen_bytes};

    ghost Value = { Written };

    ghost view = { λ a. record { name = a.name.now; index = seen_bytes a.index } };
}

impl<'a> Argument<'a> {
    /// The name of its register.
    pub fn name(&self) -> &'a [u8]
        ensures { result.now ≡ self.now.name }
    {
        self.name
    }

    /// The digits of its place, or None for the whole register.
    pub fn index(&self) -> Option<&'a [u8]>
        ensures { seen_bytes result ≡ self.now.index }
    {
        self.index
    }
}

// `[`, a number, `]`, and nothing more.
fn read_index<'a>(lexemes: &mut Lexemes<'a>) -> Option<&'a [u8]>
    ensures { seen_bytes result ≡ index_at lexemes.old }
{
    if !lexemes.mark(b'[') {
        return None;
    }
    let digits = lexemes.digits()?;
    if !lexemes.mark(b']') {
        return None;
    }
    if lexemes.is_empty() {
        Some(digits)
    } else {
        None
    }
}

/// A name with a size.
pub fn read_declaration<'a>(lexemes: &mut Lexemes<'a>) -> Option<(&'a [u8], &'a [u8])>
    ensures { option_map (λ p. (p.0.now, p.1.now)) result ≡ declaration_at lexemes.old }
{
    let name = lexemes.name()?;
    let size = read_index(lexemes)?;
    Some((name, size))
}

/// An argument, and nothing more.
pub fn read_argument<'a>(lexemes: &mut Lexemes<'a>) -> Option<Argument<'a>>
    ensures { result ≡ argument_at lexemes.old }
{
    let name = lexemes.name()?;
    if lexemes.is_empty() {
        return Some(Argument { name, index: None });
    }
    let digits = read_index(lexemes)?;
    Some(Argument {
        name,
        index: Some(digits),
    })
}
