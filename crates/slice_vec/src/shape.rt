//! Zero, and the fewest bits of an integer.
ghost use Rattle.std.specs.Prelude.{◌≡◌, ℕ, ◌+◌, ◌-◌, ◌<◌, ◌≤◌, ◌↔◌, IfOk, IsTrue, List, length, pos, replicate, take};
ghost use Rattle.diagram_model.specs.Functions.{Assignment};
ghost use Rattle.diagram_model.specs.Stores.{Diagram, IsSound};
ghost use Rattle.slice_vec.specs.Slices.{StandsIn, IsSame, IsFewest, AreWithin, bit_node, value_at};
ghost use Rattle.slice_vec.specs.Trims.{IsTrimmed};

use crate::slices::Slices;
use bit_lists::OutOfMemory;
use node_store::FALSE;
use std::alloc::Global;

/// The integer 0, of that many FALSE bits.
pub fn zero(alloc: Global, width: u8) -> Result<Slices, OutOfMemory>
    requires some { 1 ≤ width }
    requires few { width ≤ 131 }
    ensures bits { IfOk result (λ z. z ≡ replicate width 0) }
    ensures stands { IfOk result (λ z. (d : Diagram) → StandsIn d z) }
    ensures values { IfOk result (λ z. (d : Diagram) (x : Assignment) → IsSound d → value_at d z x ≡ pos 0) }
{
    Ok(Slices {
        bits: vec![in alloc; FALSE; width as usize]?,
    })
}

/// Whether there are more than two bits, and the sign is the bit below it.
fn repeats_sign(x: &Slices, width: usize) -> bool
    requires { 0 < length x.now }
    ensures { IsTrue result ↔ ((2 < width) × (bit_node x.now (width - 1) ≡ bit_node x.now (width - 2))) }
{
    width > 2 && x.bit(width - 1) == x.bit(width - 2)
}

/// How many bits are left once a repeated sign is dropped, down to two bits.
fn trimmed_width(x: &Slices) -> usize
    requires { 0 < length x.now }
    ensures { IsTrimmed x.now result }
{
    let mut width = x.width();
    while repeats_sign(x, width) {
        width -= 1;
    }
    width
}

/// Drops bits down to the fewest, at least 2, of the same values. An integer of 1 bit stays as it is.
pub fn trim(x: &mut Slices)
    requires some { 0 < length x.old }
    ensures kept { x.new ≡ take (length x.new) x.old }
    ensures short { length x.old ≤ 2 → x.new ≡ x.old }
    ensures two { 2 ≤ length x.old → 2 ≤ length x.new }
    ensures same { (d : Diagram) → StandsIn d x.old → IsSame d x.old x.new }
    ensures fewest { (d : Diagram) → IsSound d → StandsIn d x.old → IsFewest d x.new }
{
    let width = trimmed_width(x);
    x.bits.truncate(width);
}

/// Whether the integer is a signed number of `width` bits for each assignment of the variables.
pub fn fits(x: &Slices, width: u8) -> bool
    requires some { 0 < length x.now }
    requires two { 2 ≤ width }
    ensures { (d : Diagram) → IsSound d → StandsIn d x.now → IsTrue result ↔ AreWithin d width x.now }
{
    trimmed_width(x) <= width as usize
}
