//! Angles with commas between them, read one by one.
ghost use Rattle.std.specs.Prelude.{◌≡◌, ◌∷◌, [], MatchOption};
ghost use Rattle.qasm_forms.specs.Private.Fronts.{marked, then};
ghost use Rattle.qasm_forms.specs.Private.Parsing.{scan, filled, behind_angles, angles_at};

use crate::lexemes::Lexemes;
use std::marker::Model;

/// The angles of a call that are left to read, each as its lexemes.
#[derive(Drop)]
pub struct Angles<'a> {
    rest: Lexemes<'a>,
    done: bool,
}

impl<'a> Model for Angles<'a> {
    ghost use Rattle.std.specs.Prelude.{◌≡◌, List, is_some, true, false};
    ghost use Rattle.qasm_lex.specs.Lexemes.{Lexeme as Shown};
    ghost use Rattle.qasm_forms.specs.Private.Parsing.{scan, filled, left_angles};

    ghost Value = { List (List Shown) };

    ghost view = { λ a. left_angles a.done a.rest };

    ghost invariant = { λ a. a.done ≡ false → is_some (filled (scan 0 a.rest)) ≡ true };
}

impl<'a> Angles<'a> {
    /// The next one.
    pub fn next(&mut self) -> Option<Lexemes<'a>>
        ensures { MatchOption result ((self.old ≡ []) × (self.new ≡ [])) (λ a. self.old ≡ a ∷ self.new) }
    {
        if self.done {
            return None;
        }
        let (angle, last) = self.rest.angle()?;
        self.done = last;
        Some(angle)
    }

    /// The same once more, so that one of them can be read.
    pub fn ahead(&self) -> Angles<'a>
        ensures { result ≡ self.now }
    {
        Angles {
            rest: self.rest.ahead(),
            done: self.done,
        }
    }
}

// Goes past angles and the closing parenthesis after them. False where they are none.
#[tactic(auto, using(crate::proofs::Listed::angles_none, crate::proofs::Listed::angles_empty, crate::proofs::Listed::angles_last, crate::proofs::Listed::angles_more, crate::proofs::Listed::angle_shorter))]
fn skip_angles(lexemes: &mut Lexemes<'_>) -> bool
    ensures { marked result lexemes.new ≡ behind_angles (filled (scan 0 lexemes.old)) }
{
    loop {
        let Some((angle, last)) = lexemes.angle() else {
            return false;
        };
        if angle.is_empty() {
            return false;
        }
        if last {
            return true;
        }
    }
}

/// The angles after an opening parenthesis, up to the closing one. What follows it is left.
pub fn read_angles<'a>(lexemes: &mut Lexemes<'a>) -> Option<Angles<'a>>
    ensures { then result lexemes.new ≡ angles_at lexemes.old }
{
    let rest = lexemes.ahead();
    if lexemes.takes(b')') {
        return Some(Angles { rest, done: true });
    }
    if skip_angles(lexemes) {
        Some(Angles { rest, done: false })
    } else {
        None
    }
}
