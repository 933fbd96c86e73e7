//! The tokens of a part of a text, with their bytes, read from the front.
ghost use Rattle.std.specs.Prelude.{◌≡◌, ◌≤◌, ◌<◌, Result, ◌∷◌, [], false, All, length, drop, suc, MatchOption, IfSome, None, option_map};
ghost use Rattle.std.specs.List.{list_any, position_or_len};
ghost use Rattle.std.specs.Str.{bytes_eq};
ghost use Rattle.qasm_lex.specs.declared.refusal.AngleRefusal.{AngleRefusal};
ghost use Rattle.qasm_lex.specs.Fractions.{Ratio};
ghost use Rattle.qasm_lex.specs.Angles.{IsAnswer, answer_of, IsOutcome, outcome_by};
ghost use Rattle.qasm_lex.specs.Lexemes.{IsWithin, lexemes_of, lexeme_of, of_kind};
ghost use Rattle.qasm_lex.specs.Symbols.{symbol_of, symbols};
ghost use Rattle.qasm_forms.specs.Statements.{is_mark, is_name, begins_small, keywords};
ghost use Rattle.qasm_forms.specs.Private.Fronts.{seen, then_bytes, name_at, digits_at, mark_at, marked, ends_angle, deeper, angle_place, angle_at, then_angle, plus, end_place, then_end, seen_end};
ghost use Rattle.qasm_forms.specs.Cutting.{seen_bytes, word_at, is_nothing, is_stop, before_stop, has_stop, after_stop, end_by, end_at};

use qasm_lex::{
    AngleRefusal, AngleValue, PiFraction, Symbol, Token, TokenKind, angle, angle_value, is_one_of,
    symbol_of,
};
use std::marker::Model;

/// A token with its bytes.
#[derive(Clone, Copy)]
pub enum Lexeme<'a> {
    Word(&'a [u8]),
    Whole(&'a [u8]),
    Real(&'a [u8]),
    Quoted(&'a [u8]),
    Arrow,
    Equal,
    Mark(u8),
}

/// What separates parts: `;`, `,`, `->`, `{` or `)`.
#[derive(Clone, Copy)]
pub enum Stop {
    Semicolon,
    Comma,
    To,
    Open,
    Close,
}

/// What ends a statement: `;` or `}`.
#[derive(Clone, Copy, Debug, PartialEq, Eq)]
pub enum Closing {
    Semicolon,
    Brace,
}

impl<'a> Lexeme<'a> {
    /// What it stands for in an expression, where it names no parameter. The work is linear in its bytes.
    pub fn symbol(self) -> Symbol
        ensures { result ≡ symbol_of (seen self.entry) }
    {
        match self {
            Lexeme::Word(bytes) => symbol_of(TokenKind::Word, bytes),
            Lexeme::Whole(digits) => symbol_of(TokenKind::Whole, digits),
            Lexeme::Real(bytes) => symbol_of(TokenKind::Real, bytes),
            Lexeme::Quoted(bytes) => symbol_of(TokenKind::Text, bytes),
            Lexeme::Arrow => symbol_of(TokenKind::Arrow, b"->"),
            Lexeme::Equal => symbol_of(TokenKind::Equal, b"=="),
            Lexeme::Mark(mark) => symbol_of(TokenKind::Mark(mark), b""),
        }
    }
}

/// A list of tokens of a text, read from the front.
#[derive(Drop)]
pub struct Lexemes<'a> {
    text: &'a [u8],
    tokens: &'a [Token],
}

impl<'a> Model for Lexemes<'a> {
    ghost use Rattle.std.specs.Prelude.{List, All};
    ghost use Rattle.qasm_lex.specs.Lexemes.{IsWithin, Lexeme as Shown, lexemes_of};

    ghost Value = { List Shown };

    ghost view = { λ l. lexemes_of l.text.now l.tokens.now };

    ghost invariant = { λ l. All (IsWithin l.text.now) l.tokens.now };
}

impl<'a> Lexemes<'a> {
    /// Some tokens of the text.
    pub fn new(text: &'a [u8], tokens: &'a [Token]) -> Lexemes<'a>
        requires { All (IsWithin text.now) tokens.now }
        ensures { result ≡ lexemes_of text.now tokens.now }
    {
        Lexemes { text, tokens }
    }

    pub fn is_empty(&self) -> bool
        ensures { result ≡ is_nothing self.now }
    {
        self.tokens.is_empty()
    }

    pub fn next(&mut self) -> Option<Lexeme<'a>>
        ensures { MatchOption result ((self.old ≡ []) × (self.new ≡ [])) (λ l. self.old ≡ seen l ∷ self.new) }
    {
        let (token, after) = self.tokens.split_first()?;
        let lexeme = lexeme_of(self.text, *token);
        self.tokens = after;
        Some(lexeme)
    }

    /// A name.
    pub fn name(&mut self) -> Option<&'a [u8]>
        ensures { then_bytes result self.new ≡ name_at self.old }
    {
        match self.next()? {
            Lexeme::Word(bytes) => { if is_name(bytes) { Some(bytes) } else { None } }
            _ => None,
        }
    }

    /// A whole number.
    pub fn digits(&mut self) -> Option<&'a [u8]>
        ensures { then_bytes result self.new ≡ digits_at self.old }
    {
        match self.next()? {
            Lexeme::Whole(bytes) => Some(bytes),
            _ => None,
        }
    }

    /// This mark.
    pub fn mark(&mut self, mark: u8) -> bool
        ensures { marked result self.new ≡ mark_at mark self.old }
    {
        match self.next() {
            Some(Lexeme::Mark(b)) => b == mark,
            Some(_) => false,
            None => false,
        }
    }

    /// The fraction of π that they spell, or the refusal that is met first.
    pub fn fraction(&self) -> Result<PiFraction, AngleRefusal>
        ensures is { IsAnswer (symbols self.now) (answer_of result) }
        ensures only { (answer : Result Ratio AngleRefusal) → IsAnswer (symbols self.now) answer → answer ≡ answer_of result }
    {
        angle(self.text, self.tokens)
    }

    /// The value that they spell, where no name is a parameter's, or the refusal that is met first.
    pub fn value(&self) -> Result<AngleValue, AngleRefusal>
        ensures { IsOutcome [] (symbols self.now) (outcome_by result) }
    {
        angle_value(self.text, self.tokens, &[])
    }

    /// The word that is first.
    pub fn first_word(&self) -> Option<&'a [u8]>
        ensures { seen_bytes result ≡ word_at self.now }
    {
        match self.ahead().next()? {
            Lexeme::Word(bytes) => Some(bytes),
            _ => None,
        }
    }

    /// The same once more, so that one of them can be read.
    pub fn ahead(&self) -> Lexemes<'a>
        ensures { result ≡ self.now }
    {
        Lexemes {
            text: self.text,
            tokens: self.tokens,
        }
    }

    /// This mark, if it is there.
    pub fn takes(&mut self, mark: u8) -> bool
        ensures taken { marked result self.new ≡ mark_at mark self.old }
        ensures kept { result ≡ false → self.new ≡ self.old }
    {
        let mut ahead = self.ahead();
        if ahead.mark(mark) {
            *self = ahead;
            true
        } else {
            false
        }
    }

    /// The front up to a comma or a closing parenthesis outside of parentheses, and whether it is the parenthesis. What follows it is
    /// left.
    pub fn angle(&mut self) -> Option<(Lexemes<'a>, bool)>
        ensures { then_angle result self.new ≡ angle_at 0 self.old }
    {
        let (place, last) = angle_place(self.tokens)?;
        let front = Lexemes {
            text: self.text,
            tokens: &self.tokens[..place],
        };
        self.tokens = behind(self.tokens, place);
        Some((front, last))
    }

    /// The front up to the end of a statement: a `;` with no `{` before it, or `}`. What follows it is left. None where there is no end.
    pub fn statement(&mut self) -> Option<(Lexemes<'a>, Closing)>
        ensures cut { then_end result self.new ≡ end_at false self.old }
        ensures kept { result ≡ None → self.new ≡ self.old }
    {
        let (place, end) = end_place(self.tokens)?;
        let front = Lexemes {
            text: self.text,
            tokens: &self.tokens[..place],
        };
        self.tokens = behind(self.tokens, place);
        Some((front, end))
    }

    /// The front up to a separator, and whether there is one. What follows it is left.
    pub fn cut(&mut self, stop: Stop) -> (Lexemes<'a>, bool)
        ensures front { result.0 ≡ before_stop stop self.old }
        ensures found { result.1 ≡ has_stop stop self.old }
        ensures rest { self.new ≡ after_stop stop self.old }
    {
        let place = stop_place(self.tokens, stop);
        let front = Lexemes {
            text: self.text,
            tokens: &self.tokens[..place],
        };
        let found = place < self.tokens.len();
        self.tokens = behind(self.tokens, place);
        (front, found)
    }
}

// The tokens after the one at the place, if there is one.
fn behind(tokens: &[Token], place: usize) -> &[Token]
    requires { place ≤ length tokens.now }
    ensures { result.now ≡ drop (suc place) tokens.now }
{
    if place < tokens.len() {
        &tokens[place + 1..]
    } else {
        &tokens[tokens.len()..]
    }
}

fn lexeme_of(text: &[u8], token: Token) -> Lexeme<'_>
    requires { IsWithin text.now token }
    ensures { seen result ≡ lexeme_of text.now token }
{
    let bytes = &text[token.from as usize..token.to as usize];
    match token.kind {
        TokenKind::Word => Lexeme::Word(bytes),
        TokenKind::Whole => Lexeme::Whole(bytes),
        TokenKind::Real => Lexeme::Real(bytes),
        TokenKind::Text => Lexeme::Quoted(bytes),
        TokenKind::Arrow => Lexeme::Arrow,
        TokenKind::Equal => Lexeme::Equal,
        TokenKind::Mark(mark) => Lexeme::Mark(mark),
    }
}

fn ends(kind: TokenKind, stop: Stop) -> bool
    ensures { result ≡ is_stop stop (of_kind kind []) }
{
    match kind {
        TokenKind::Mark(mark) => match stop {
            Stop::Semicolon => mark == b';',
            Stop::Comma => mark == b',',
            Stop::To => false,
            Stop::Open => mark == b'{',
            Stop::Close => mark == b')',
        },
        TokenKind::Arrow => match stop {
            Stop::Semicolon => false,
            Stop::Comma => false,
            Stop::To => true,
            Stop::Open => false,
            Stop::Close => false,
        },
        TokenKind::Word => false,
        TokenKind::Whole => false,
        TokenKind::Real => false,
        TokenKind::Text => false,
        TokenKind::Equal => false,
    }
}

// How many tokens stand before the first separator.
fn stop_place(tokens: &[Token], stop: Stop) -> usize
    ensures value { result ≡ position_or_len (λ t. is_stop stop (of_kind t.kind [])) tokens.now }
    ensures within { result ≤ length tokens.now }
{
    let mut place = 0;
    let mut rest = tokens;
    while let Some((token, after)) = rest.split_first() {
        if ends(token.kind, stop) {
            return place;
        }
        place += 1;
        rest = after;
    }
    place
}

fn is_mark(kind: TokenKind, mark: u8) -> bool
    ensures { result ≡ is_mark mark (of_kind kind []) }
{
    match kind {
        TokenKind::Mark(b) => b == mark,
        _ => false,
    }
}

fn ends_angle(kind: TokenKind, depth: usize) -> bool
    ensures { result ≡ ends_angle depth (of_kind kind []) }
{
    depth == 0 && (is_mark(kind, b')') || is_mark(kind, b','))
}

fn deeper(kind: TokenKind, depth: usize) -> usize
    requires { depth < usize.MAX }
    ensures { result ≡ deeper depth (of_kind kind []) }
{
    if is_mark(kind, b'(') {
        depth + 1
    } else if is_mark(kind, b')') {
        depth.saturating_sub(1)
    } else {
        depth
    }
}

// How many tokens stand before the end of an angle, and whether a closing parenthesis ends it.
#[tactic(auto, using(crate::proofs::Tokens::plus_more))]
fn angle_place(tokens: &[Token]) -> Option<(usize, bool)>
    ensures value { result ≡ angle_place 0 tokens.now }
    ensures within { IfSome result (λ p. p.0 < length tokens.now) }
{
    let mut depth = 0;
    let mut place = 0;
    let mut rest = tokens;
    while let Some((token, after)) = rest.split_first() {
        if ends_angle(token.kind, depth) {
            return Some((place, is_mark(token.kind, b')')));
        }
        depth = deeper(token.kind, depth);
        place += 1;
        rest = after;
    }
    None
}

// The end of a statement that a token is, where a `{` stands before it or not.
fn end_by(kind: TokenKind, opened: bool) -> Option<Closing>
    ensures { option_map seen_end result ≡ end_by opened (of_kind kind []) }
{
    if is_mark(kind, b'}') {
        Some(Closing::Brace)
    } else if is_mark(kind, b';') && !opened {
        Some(Closing::Semicolon)
    } else {
        None
    }
}

// How many tokens stand before the end of a statement, and that end.
#[tactic(auto, using(crate::proofs::Tokens::plus_more))]
fn end_place(tokens: &[Token]) -> Option<(usize, Closing)>
    ensures value { option_map (λ p. (p.0, seen_end p.1)) result ≡ end_place false tokens.now }
    ensures within { IfSome result (λ p. p.0 < length tokens.now) }
{
    let mut opened = false;
    let mut place = 0;
    let mut rest = tokens;
    while let Some((token, after)) = rest.split_first() {
        if let Some(end) = end_by(token.kind, opened) {
            return Some((place, end));
        }
        opened = opened || is_mark(token.kind, b'{');
        place += 1;
        rest = after;
    }
    None
}

fn begins_small(bytes: &[u8]) -> bool
    ensures { result ≡ begins_small bytes.now }
{
    match bytes.split_first() {
        Some((first, _)) => *first >= b'a' && *first <= b'z',
        None => false,
    }
}

/// Whether a word is a name: it begins with a small letter, and is no keyword.
#[tactic(auto, unfolding(crate::specs::Statements::is_name))]
pub fn is_name(bytes: &[u8]) -> bool
    ensures { result ≡ is_name bytes.now }
{
    begins_small(bytes) && !is_keyword(bytes)
}

fn is_keyword(bytes: &[u8]) -> bool
    ensures { result ≡ list_any (bytes_eq bytes.now) keywords }
{
    is_one_of(
        bytes,
        &[
            b"qreg", b"creg", b"include", b"measure", b"barrier", b"gate", b"opaque", b"reset",
            b"if", b"pi",
        ],
    )
}
