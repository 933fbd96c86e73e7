//! Even integers, and their halves.
ghost use Rattle.std.specs.Prelude.{◌≡◌, ◌<◌, ◌≤◌, ◌↔◌, IsTrue, length, drop};
ghost use Rattle.diagram_model.specs.Stores.{Diagram, IsSound};
ghost use Rattle.slice_vec.specs.Slices.{StandsIn, AreEven, IsShifted, IsDouble};

use crate::slices::Slices;
use node_store::FALSE;

/// Whether the integer is even for each assignment of the variables.
pub fn all_even(x: &Slices) -> bool
    requires some { 0 < length x.now }
    ensures { (d : Diagram) → IsSound d → StandsIn d x.now → IsTrue result ↔ AreEven d x.now }
{
    x.bit(0) == FALSE
}

/// Half of an integer that is even for each assignment: see `all_even`.
///
/// Drops the lowest bit, without new memory.
pub fn halve(x: &mut Slices)
    requires two { 2 ≤ length x.old }
    ensures bits { x.new ≡ drop 1 x.old }
    ensures shifted { (d : Diagram) → StandsIn d x.old → IsShifted d x.old x.new }
    ensures half { (d : Diagram) → StandsIn d x.old → AreEven d x.old → IsDouble d x.old x.new }
{
    x.bits.remove(0);
}
