//! A line of fixed room.
ghost use Rattle.std.specs.Prelude.{◌≡◌, ◌≤◌, ◌<◌, ◌+◌, ◌%◌, ◌++◌, ℕ, List, [], length, take, slice_set, decimal};
ghost use Rattle.std.specs.Fmt.{signed_decimal};
ghost use Rattle.bit_lists.specs.Lists.{bit_value, bits_text};
ghost use Rattle.amp_printer.specs.Private.{line_with};

use arrayvec::ArrayVec;
use bit_lists::Bits;
use itoa::Buffer;
use std::marker::Model;

/// At most 1,024 bytes, kept in place.
#[derive(Drop)]
pub struct Line {
    bytes: ArrayVec<u8, 1024>,
}

impl Model for Line {
    ghost use Rattle.std.specs.Prelude.{ℕ, List};

    ghost Value = { List ℕ };

    ghost view = { λ s. s.bytes.items };
}

impl Line {
    pub fn as_bytes(&self) -> &[u8]
        ensures { result.now ≡ self.now }
    {
        self.bytes.as_slice()
    }

    /// The empty line.
    pub fn new() -> Line
        ensures { result ≡ [] }
    {
        Line {
            bytes: ArrayVec::new(),
        }
    }

    pub fn add(&mut self, piece: &[u8])
        requires { length self.old + length piece.now ≤ 1024 }
        ensures { self.new ≡ self.old ++ piece.now }
    {
        self.bytes.try_extend_from_slice(piece).unwrap();
    }

    /// Adds a number in decimal digits, at most 40 bytes.
    pub fn add_count(&mut self, n: u128)
        requires { length self.old ≤ 984 }
        ensures text { self.new ≡ self.old ++ decimal n }
        ensures short { length self.new ≤ length self.old + 40 }
    {
        self.add(Buffer::new().format(n).as_bytes());
    }

    /// Adds an integer in decimal digits, at most 40 bytes.
    pub(crate) fn add_integer(&mut self, n: i128)
        requires { length self.old ≤ 984 }
        ensures text { self.new ≡ self.old ++ signed_decimal n }
        ensures short { length self.new ≤ length self.old + 40 }
    {
        self.add(Buffer::new().format(n).as_bytes());
    }

    /// Adds the bits, the first one first.
    pub(crate) fn add_bits(&mut self, x: &Bits)
        requires { length self.old + length x.now ≤ 1024 }
        ensures text { self.new ≡ self.old ++ bits_text x.now }
        ensures long { length self.new ≡ length self.old + length x.now }
    {
        for i in 0..x.len() {
            self.bytes.push(bit_byte(x.get(i)));
        }
    }

    /// Writes other bits over those that stand behind the first byte: from the last bit back to the first one that differs.
    pub(crate) fn change_bits(&mut self, before: &Bits, after: &Bits)
        requires same { length before.now ≡ length after.now }
        requires room { length after.now < length self.old }
        ensures { (rest : List ℕ) → self.old ≡ line_with before.now rest → self.new ≡ line_with after.now rest }
    {
        let mut a = before.place();
        let mut b = after.place();
        let mut i = usize::from(after.len());
        'bits: while a != b {
            self.put(i, last_digit(b));
            a /= 2;
            b /= 2;
            i -= 1;
        }
    }

    /// Keeps the first bytes only.
    pub(crate) fn truncate(&mut self, count: usize)
        ensures { self.new ≡ take count self.old }
    {
        self.bytes.truncate(count);
    }

    // Writes a byte over the one at a place.
    fn put(&mut self, i: usize, byte: u8)
        requires { i < length self.old }
        ensures { self.new ≡ slice_set self.old i byte }
    {
        self.bytes.as_mut_slice()[i] = byte;
    }
}

// The digit of the last bit of the list at a place.
fn last_digit(place: u128) -> u8
    ensures { result ≡ 48 + place % 2 }
{
    b'0' + (place % 2) as u8
}

fn bit_byte(b: bool) -> u8
    ensures { result ≡ 48 + bit_value b }
{
    if b { b'1' } else { b'0' }
}
