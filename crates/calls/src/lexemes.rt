//! Tokens and angles of small texts.
ghost use Rattle.std.specs.Prelude.{◌≤◌, length, All};
ghost use Rattle.qasm_lex.specs.Lexemes.{IsWithin};

use call_rows::{Page, Row};
use qasm_lex::{PiFraction, Token, angle, eighth, quarter, tokens};

/// The tokens of a text, or the place of the first bad byte behind those before it.
pub fn tell_tokens(row: &mut Row<'_>, page: &mut Page) {
    let text = row.word();
    if text.len() <= 16_777_216 {
        page.show(&tokens(page.alloc, text));
    }
}

/// An angle, the numerator and the denominator of its fraction of π, its quarter turns modulo two turns, and its eighths of a turn modulo
/// one, or why it is refused. Without a text, that of the least numerator.
pub fn tell_angle(row: &mut Row<'_>, page: &mut Page) {
    if row.is_over() {
        return tell_fraction(least(), page);
    }
    let text = row.word();
    if text.len() <= 16_777_216 {
        match tokens(page.alloc, text) {
            Ok(found) => {
                page.show(&found.bad);
                tell_angle_of(text, &found.list, page);
            }
            Err(stop) => page.show(&stop),
        }
    }
}

fn tell_angle_of(text: &[u8], list: &[Token], page: &mut Page)
    requires { All (IsWithin text.now) list.now }
{
    match angle(text, list) {
        Ok(f) => tell_fraction(f, page),
        Err(why) => page.show(&why),
    }
}

fn tell_fraction(f: PiFraction, page: &mut Page) {
    page.show(&(f.num, f.den));
    page.show(&(quarter(f), eighth(f)));
}

fn least() -> PiFraction {
    PiFraction {
        num: i64::MIN,
        den: 1,
    }
}
