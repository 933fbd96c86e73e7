//! Sums.
ghost use Rattle.std.specs.Prelude.{◌≤◌, IfOk, IfErr, length};
ghost use Rattle.diagram_ops.specs.Bounds.{TakesAtMost};
ghost use Rattle.diagram_ops.specs.Made.{StopIs};
ghost use Rattle.slice_vec.specs.Bounds.{sum_steps};
ghost use Rattle.slice_vec.specs.Growing.{Grows};
ghost use Rattle.slice_vec.specs.Slices.{StandsIn, InSum, IsSum};

use crate::place::{add_bits, odd};
use crate::row::Row;
use crate::slices::Slices;
use diagram_ops::Diagrams;
use node_store::{FALSE, StoreStop};
use std::sync::ledger::Ledger;
use steps::Steps;

/// The sum, one bit wider than the wider one.
///
/// Both are read as if extended by their signs. A place where two of the two bits and the carry are one
/// node takes no connective. `Full` comes only where some prefix subfunction of a carry or of a bit of
/// the sum has no node.
pub fn add<L: Ledger>(
    d: &mut Diagrams,
    x: &Slices,
    y: &Slices,
    steps: &mut Steps<L>,
) -> Result<Slices, StoreStop>
    requires x { StandsIn d.old.store x.now }
    requires y { StandsIn d.old.store y.now }
    requires width_x { length x.now ≤ 130 }
    requires width_y { length y.now ≤ 130 }
    ensures sum { IfOk result (IsSum d.old.store d.new.store x.now y.now) }
    ensures grows { Grows d.old (InSum d.old.store x.now y.now) d.new }
    ensures stop { IfErr result (StopIs d.new.store (InSum d.old.store x.now y.now)) }
    ensures steps { TakesAtMost (sum_steps d.old.store x.now y.now) d.old.store d.new.store steps.old steps.new }
{
    let _cached = d.cached();
    let width = x.width().max(y.width());
    let mut row = Row::with_room(x.alloc(), width + 1)?;
    let mut carry = FALSE;
    for i in 0..width {
        let place = add_bits(d, x.bit(i), y.bit(i), carry, steps)?;
        row.push(place.bit);
        carry = place.carry;
    }
    let top = odd(d, x.bit(width), y.bit(width), carry, steps)?;
    row.push(top);
    Ok(row.into_slices())
}
