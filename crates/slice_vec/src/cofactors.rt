//! Cofactors of integers.
ghost use Rattle.std.specs.Prelude.{◌<◌, IfOk, IfErr, length};
ghost use Rattle.diagram_ops.specs.Bounds.{size_in, TakesAtMost};
ghost use Rattle.diagram_ops.specs.Cofactors.{functions_of};
ghost use Rattle.diagram_ops.specs.Made.{StopIs};
ghost use Rattle.slice_vec.specs.Growing.{Grows};
ghost use Rattle.slice_vec.specs.Slices.{StandsIn, InFixed, IsFixed};

use crate::slices::Slices;
use diagram_ops::Diagrams;
use node_store::StoreStop;
use std::sync::ledger::Ledger;
use steps::Steps;

/// The integer with a variable fixed, as wide as before.
///
/// Takes expected time in the nodes above the variable that are reached from the bits, each once for all
/// bits. `Full` comes only where some prefix subfunction of a bit of the answer has no node.
pub fn fix<L: Ledger>(
    d: &mut Diagrams,
    x: &Slices,
    var: u8,
    bit: bool,
    steps: &mut Steps<L>,
) -> Result<Slices, StoreStop>
    requires x { StandsIn d.old.store x.now }
    requires var { var < length d.old.store.order }
    ensures fixed { IfOk result (IsFixed d.old.store d.new.store var bit x.now) }
    ensures grows { Grows d.old (InFixed d.old.store var bit x.now) d.new }
    ensures stop { IfErr result (StopIs d.new.store (InFixed d.old.store var bit x.now)) }
    ensures steps { TakesAtMost (size_in d.old.store (functions_of d.old.store x.now)) d.old.store d.new.store steps.old steps.new }
{
    let _cached = d.cached();
    let bits = d.cofactors(x.alloc(), x.nodes(), var, bit, steps)?;
    Ok(Slices { bits })
}
