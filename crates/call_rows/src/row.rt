//! The words of a line.
ghost use Rattle.std.specs.Prelude.{◌≡◌, ◌≤◌, length};

use bit_lists::{Bits, Partial};
use ring_omega::{Quad, Weight};
use std::str;

/// The words of a line that aren't read yet, with a bar between two. A word that isn't there is empty, and one that isn't what is read is
/// zero.
#[derive(Clone, Copy)]
pub struct Row<'a> {
    rest: &'a [u8],
    over: bool,
}

impl<'a> Row<'a> {
    pub fn new(line: &'a [u8]) -> Row<'a> {
        Row {
            rest: line,
            over: false,
        }
    }

    /// Whether all words are read.
    pub fn is_over(&self) -> bool {
        self.over
    }

    /// The next word.
    pub fn word(&mut self) -> &'a [u8] {
        let rest = self.rest;
        match rest.iter().position(|byte| *byte == b'|') {
            Some(place) => {
                self.rest = rest.get(place + 1..).unwrap_or(&[]);
                rest.get(..place).unwrap_or(&[])
            }
            None => {
                self.rest = &[];
                self.over = true;
                rest
            }
        }
    }

    /// The next word as a text.
    pub fn name(&mut self) -> &'a str {
        str::from_utf8(self.word()).unwrap_or("")
    }

    pub fn number(&mut self) -> i128 {
        self.name().parse::<i128>().unwrap_or(0)
    }

    /// A number of 32 bits.
    pub fn count(&mut self) -> u32 {
        u32::try_from(self.number()).unwrap_or(0)
    }

    /// A number up to this one.
    pub fn small(&mut self, most: u8) -> u8
        ensures { result ≤ most }
    {
        let number = u8::try_from(self.number()).unwrap_or(0);
        if number <= most { number } else { most }
    }

    /// Four coefficients, that of the third power first.
    pub fn quad(&mut self) -> Quad {
        let (a, b) = (self.number(), self.number());
        let (c, d) = (self.number(), self.number());
        Quad { a, b, c, d }
    }

    pub fn weight(&mut self) -> Weight {
        let (a, b) = (self.number(), self.number());
        Weight { a, b }
    }

    /// A list of at most 64 bits.
    pub fn bits(&mut self) -> Bits
        ensures { length result ≤ 64 }
    {
        match Bits::from_text(self.word()) {
            Some(x) => { if x.len() <= 64 { x } else { Bits::zeros(0) } }
            None => Bits::zeros(0),
        }
    }

    /// A list of so many bits.
    pub fn bits_of(&mut self, len: u8) -> Bits
        requires { len ≤ 128 }
        ensures { length result ≡ len }
    {
        match Bits::from_text(self.word()) {
            Some(x) => { if x.len() == len { x } else { Bits::zeros(len) } }
            None => Bits::zeros(len),
        }
    }

    /// A partial list of so many places, spelled with `0`, `1` and `*`.
    pub fn partial(&mut self, len: u8) -> Partial
        requires { len ≤ 128 }
        ensures { length result ≡ len }
    {
        let mut p = Partial::free(len);
        for (i, byte) in self.word().iter().enumerate() {
            if i < usize::from(p.len()) && *byte != b'*' {
                p.fix(i as u8, Some(*byte == b'1'));
            }
        }
        if p.len() == len {
            p
        } else {
            Partial::free(len)
        }
    }
}
