//! Places: the number of a bit list in the lexicographic order of the lists of its length.
ghost use Rattle.std.specs.Prelude.{◌≡◌, ◌<◌, ◌≤◌, ◌^◌, ◌+◌, ◌-◌, List, ℕ, Bool, length, false, slice_index_or, slice_set};
ghost use Rattle.bit_lists.specs.Lists.{place_of};

/// The value of bit `q` in the list of `len` bits at this place.
pub fn bit_of(len: u8, place: u128, q: u8) -> bool
    requires small { len ≤ 128 }
    requires within { q < len }
    ensures { (x : List Bool) → length x ≡ len → place_of x ≡ place → result ≡ slice_index_or x q false }
{
    place / stride(len, q) % 2 == 1
}

/// The place of the list that has the value `b` in place of bit `q`.
pub fn with_bit(len: u8, place: u128, q: u8, b: bool) -> u128
    requires small { len ≤ 128 }
    requires within { q < len }
    requires in_range { place < 2 ^ len }
    ensures in_range { result < 2 ^ len }
    ensures value { (x : List Bool) → length x ≡ len → place_of x ≡ place → place_of (slice_set x q b) ≡ result }
{
    let size = stride(len, q);
    if bit_of(len, place, q) == b {
        place
    } else if b {
        place + size
    } else {
        place - size
    }
}

fn stride(len: u8, q: u8) -> u128
    requires small { len ≤ 128 }
    requires within { q < len }
    ensures { result ≡ 2 ^ (len - (q + 1)) }
{
    1 << (len - 1 - q)
}
