//! Bit lists of at most 128 bits.
ghost use Rattle.std.specs.Prelude.{◌≡◌, ◌≢◌, ◌<◌, ◌≤◌, ◌+◌, ◌^◌, ◌↔◌, [], ◌∷◌, ◌++◌, replicate, IsTrue, IsNone, IfSome, IfNone, List, Bool, true, false, length, slice_index_or, slice_set};
ghost use Rattle.bit_lists.specs.Lists.{place_of, bit_value, bits_text, IsNext};

use crate::place::{bit_of, with_bit};
use std::marker::Model;

/// The most bits that a list has.
const MOST_BITS: usize = 128;

/// A list of at most 128 truth values.
///
/// It is kept as its place among the lists of its length, so that the next list in order is the next place.
#[derive(Clone, Copy, Debug)]
pub struct Bits {
    place: u128,
    count: u8,
}

impl Model for Bits {
    ghost use Rattle.std.specs.Prelude.{◌≤◌, ◌<◌, ◌^◌, [], List, Bool, get_or, length};
    ghost use Rattle.bit_lists.specs.Lists.{all_lists, place_of};
    ghost use Rattle.bit_lists.specs.KeptBits.{bits_inverse};

    ghost Value = { List Bool };

    ghost view = { λ s. get_or (all_lists s.count) s.place [] };

    ghost invariant = { λ s. (s.count ≤ 128) × (s.place < 2 ^ s.count) };

    ghost inverse = { λ x. record { place = place_of x; count = length x } };

    ghost inverse_ok = { λ a h. λ i. record { place = (bits_inverse a.count a.place h.1).1 i; count = (bits_inverse a.count a.place h.1).0 i } };
}

impl Bits {
    /// The list of `len` zeros.
    pub fn zeros(len: u8) -> Bits
        requires { len ≤ 128 }
        ensures { result ≡ replicate len false }
    {
        Bits {
            place: 0,
            count: len,
        }
    }

    /// The list that a text of `0` and `1` spells, the first bit first.
    pub fn from_text(text: &[u8]) -> Option<Bits>
        ensures found { IfSome result (λ x. text.now ≡ bits_text x) }
        ensures none { IfNone result ((x : List Bool) → length x ≤ 128 → text.now ≢ bits_text x) }
    {
        if text.len() > MOST_BITS {
            return None;
        }
        let mut bits = Bits::zeros(0);
        for byte in text {
            let Some(b) = bit_from(*byte) else {
                return None;
            };
            bits = bits.with_last(b);
        }
        Some(bits)
    }

    pub fn len(&self) -> u8
        ensures value { result ≡ length self.now }
        ensures few { result ≤ 128 }
    {
        self.count
    }

    pub fn is_empty(&self) -> bool
        ensures { IsTrue result ↔ (self.now ≡ []) }
    {
        self.len() == 0
    }

    pub fn get(&self, i: u8) -> bool
        requires { i < length self.now }
        ensures { result ≡ slice_index_or self.now i false }
    {
        bit_of(self.count, self.place, i)
    }

    pub fn set(&mut self, i: u8, b: bool)
        requires { i < length self.old }
        ensures { self.new ≡ slice_set self.old i b }
    {
        self.place = with_bit(self.count, self.place, i, b);
    }

    /// The next list of the same length, or None after the last one.
    pub fn next_lex(self) -> Option<Bits>
        ensures next { IfSome result (IsNext self) }
        ensures place { IfSome result (λ y. place_of y ≡ place_of self + 1) }
        ensures none { IsNone result ↔ (self ≡ replicate (length self) true) }
    {
        if self.place() == last_place(self.len()) {
            return None;
        }
        Some(Bits::at_place(self.place() + 1, self.len()))
    }

    // The list with one more bit at its end.
    fn with_last(self, b: bool) -> Bits
        requires { length self < 128 }
        ensures { result ≡ self ++ b ∷ [] }
    {
        let twice = self.place() * 2;
        if b {
            return Bits::at_place(twice + 1, self.len() + 1);
        }
        Bits::at_place(twice, self.len() + 1)
    }

    /// Its place among the lists of its length in lexicographic order, from 0 on.
    pub fn place(&self) -> u128
        ensures value { result ≡ place_of self.now }
        ensures below { result < 2 ^ length self.now }
    {
        self.place
    }

    /// The list of `count` bits at a place.
    pub fn at_place(place: u128, count: u8) -> Bits
        requires few { count ≤ 128 }
        requires below { place < 2 ^ count }
        ensures long { length result ≡ count }
        ensures place { place_of result ≡ place }
    {
        Bits { place, count }
    }
}

// The bit that a byte spells.
fn bit_from(byte: u8) -> Option<bool>
    ensures found { IfSome result (λ b. byte ≡ 48 + bit_value b) }
    ensures none { IfNone result ((b : Bool) → byte ≢ 48 + bit_value b) }
{
    match byte {
        b'0' => Some(false),
        b'1' => Some(true),
        _ => None,
    }
}

// The last place among the lists of a length.
fn last_place(count: u8) -> u128
    requires { count ≤ 128 }
    ensures { result + 1 ≡ 2 ^ count }
{
    if count == 128 {
        u128::MAX
    } else {
        (1 << count) - 1
    }
}
