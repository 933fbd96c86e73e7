//! Bit lists of which some bits are left open.
ghost use Rattle.std.specs.Prelude.{◌≡◌, ◌≢◌, ◌<◌, ◌≤◌, true, false, replicate, List, ℕ, Bool, Option, None, Some, length, slice_index_or, slice_set};
ghost use Rattle.bit_lists.specs.Partials.{agrees, fits};

use crate::bits::Bits;
use std::marker::Model;

/// A list of at most 128 values, each of them a fixed bit or free.
///
/// It is kept as two bit lists: which values are fixed, and to what.
#[derive(Clone, Copy)]
pub struct Partial {
    fixed: Bits,
    values: Bits,
}

impl Model for Partial {
    ghost use Rattle.std.specs.Prelude.{List, Option, Bool};
    ghost use Rattle.bit_lists.specs.KeptPartials.{partial_of, are_fixed, values_of, IsKept, kept_inverse};

    ghost Value = { List (Option Bool) };

    ghost view = { λ s. partial_of s.fixed s.values };

    ghost invariant = { λ s. IsKept s.fixed s.values };

    ghost inverse = { λ p. record { fixed = are_fixed p; values = values_of p } };

    ghost inverse_ok = { λ a h. λ i. record { fixed = (kept_inverse a.fixed a.values h).0 i; values = (kept_inverse a.fixed a.values h).1 i } };
}

impl Partial {
    /// Every value is free.
    pub fn free(len: u8) -> Partial
        requires { len ≤ 128 }
        ensures { result ≡ replicate len None }
    {
        Partial {
            fixed: Bits::zeros(len),
            values: Bits::zeros(len),
        }
    }

    pub fn len(&self) -> u8
        ensures value { result ≡ length self.now }
        ensures few { result ≤ 128 }
    {
        self.fixed.len()
    }

    /// The fixed value at `i`, or None where it is free.
    pub fn get(&self, i: u8) -> Option<bool>
        requires { i < length self.now }
        ensures { result ≡ slice_index_or self.now i None }
    {
        if self.fixed.get(i) {
            Some(self.values.get(i))
        } else {
            None
        }
    }

    /// Fixes the value at `i`, or frees it.
    pub fn fix(&mut self, i: u8, b: Option<bool>)
        requires { i < length self.old }
        ensures { self.new ≡ slice_set self.old i b }
    {
        self.fixed.set(i, b.is_some());
        self.values.set(i, b.unwrap_or(false));
    }

    /// Whether the value at `i` is free, or fixed to `b`.
    pub fn allows(&self, i: u8, b: bool) -> bool
        requires { i < length self.now }
        ensures { result ≡ fits (slice_index_or self.now i None) b }
    {
        match self.get(i) {
            Some(fixed) => fixed == b,
            None => true,
        }
    }

    /// Whether each fixed value is the bit of `x`.
    pub fn agrees(&self, x: &Bits) -> bool
        requires { length x.now ≡ length self.now }
        ensures { result ≡ agrees self.now x.now }
    {
        for i in 0..self.len() {
            if !self.allows(i, x.get(i)) {
                return false;
            }
        }
        true
    }
}
