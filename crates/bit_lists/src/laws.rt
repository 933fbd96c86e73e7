//! Laws of bit lists and their order. Each is the contract of a function without a body.
ghost use Rattle.std.specs.Prelude.{◌≡◌, ◌<◌, ◌^◌, ◌↔◌, ℕ, List, Bool, Some, length, slice_get};
ghost use Rattle.bit_lists.specs.Lists.{all_lists, place_of, IsBefore};

/// There are 2^n lists of n bits, and each stands at its place among them.
pub fn lists_by_place()
    ensures count { (n : ℕ) → length (all_lists n) ≡ 2 ^ n }
    ensures each { (x : List Bool) → slice_get (all_lists (length x)) (place_of x) ≡ Some x }
{}

/// The lexicographic order is the order of the places.
pub fn order_by_place()
    ensures { (x y : List Bool) → length x ≡ length y → IsBefore x y ↔ (place_of x < place_of y) }
{}
