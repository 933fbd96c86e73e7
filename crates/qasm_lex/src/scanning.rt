//! The tokens of a text, in one pass.
ghost use Rattle.std.specs.Prelude.{◌≡◌, ◌≤◌, ◌<◌, ◌+◌, drop, length, All, IfOk, IfSome, IfNone, List, Option, ℕ};
ghost use Rattle.qasm_lex.specs.Lexemes.{AreTokens, IsWithin, Begins, BeginsNone};
ghost use Rattle.qasm_lex.specs.declared.token.Token.{Token};

use crate::pieces::{Form, piece_of};
use crate::token::{Token, Tokens};
use bit_lists::OutOfMemory;
use std::alloc::Global;

/// The piece at the place: its form and its length.
fn front(text: &[u8], place: usize) -> Option<(Form, usize)>
    requires { (place ≤ length text.now) × (length text.now ≤ 16777216) }
    ensures none { IfNone result (BeginsNone (drop place text.now)) }
    ensures some { IfSome result (λ p. Begins (drop place text.now) p.0 p.1) }
    ensures forward { IfSome result (λ p. (0 < p.1) × (place + p.1 ≤ length text.now)) }
{
    piece_of(&text[place..])
}

/// The tokens of the text up to its bad place.
pub fn tokens(alloc: Global, text: &[u8]) -> Result<Tokens, OutOfMemory>
    requires { length text.now ≤ 16777216 }
    ensures tokens { IfOk result (λ t. AreTokens text.now t.list.items t.bad) }
    ensures of_text { IfOk result (λ t. All (IsWithin text.now) t.list.items) }
    ensures only { IfOk result (λ t. (list : List Token) (bad : Option ℕ) → AreTokens text.now list bad → (list ≡ t.list.items) × (bad ≡ t.bad)) }
{
    let mut list = Vec::new(alloc);
    let mut place = 0;
    while place < text.len() {
        let Some((form, n)) = front(text, place) else {
            return Ok(Tokens {
                list,
                bad: Some(place as u32),
            });
        };
        let to = place + n;
        if let Form::Token(kind) = form {
            list.push(Token {
                kind,
                from: place as u32,
                to: to as u32,
            })?;
        }
        place = to;
    }
    Ok(Tokens { list, bad: None })
}
