//! Tokens, and the tokens of a text.

/// What a token is. Keywords are words.
#[derive(Clone, Copy, Debug, PartialEq, Eq)]
pub enum TokenKind {
    /// A letter, then letters, digits and underscores.
    Word,
    /// One or more digits.
    Whole,
    /// Digits with a point, with an exponent, or with both.
    Real,
    /// Bytes between quotes, on one line. The quotes are part of the token.
    Text,
    /// `->`.
    Arrow,
    /// `==`.
    Equal,
    /// One of `; , ( ) [ ] { } + - * / ^`.
    Mark(u8),
}

/// A token, and its bytes from one place of the text up to another.
#[derive(Clone, Copy, Debug, PartialEq, Eq)]
pub struct Token {
    pub kind: TokenKind,
    /// Where its first byte stands, counted from 0.
    pub from: u32,
    /// Where the byte after its last one stands.
    pub to: u32,
}

/// The tokens of a text up to its bad place.
#[derive(Debug, Drop)]
pub struct Tokens {
    pub list: Vec<Token>,
    /// The first place where no token, blank or comment begins.
    pub bad: Option<u32>,
}
