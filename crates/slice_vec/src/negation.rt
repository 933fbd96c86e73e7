//! Negations.
ghost use Rattle.std.specs.Prelude.{◌≤◌, IfOk, IfErr, length};
ghost use Rattle.diagram_model.specs.Stores.{IsLive};
ghost use Rattle.diagram_ops.specs.Bounds.{TakesAtMost};
ghost use Rattle.diagram_ops.specs.Made.{StopIs};
ghost use Rattle.slice_vec.specs.Bounds.{negation_steps};
ghost use Rattle.slice_vec.specs.Growing.{Grows};
ghost use Rattle.slice_vec.specs.Slices.{StandsIn, InNegation, IsNegation};

use crate::place::{negate_bits, odd};
use crate::row::Row;
use crate::slices::Slices;
use diagram_ops::Diagrams;
use node_store::{Node, StoreStop};
use std::sync::ledger::Ledger;
use steps::Steps;

/// -x where `n` is true, else x, one bit wider.
///
/// The bits are flipped where `n` is true, and 1 is added there. A place takes two connectives, and none where
/// `n` is FALSE. `Full` comes only where some prefix subfunction of a carry or of a bit of the answer has no node.
pub fn negate_where<L: Ledger>(
    d: &mut Diagrams,
    x: &Slices,
    n: Node,
    steps: &mut Steps<L>,
) -> Result<Slices, StoreStop>
    requires x { StandsIn d.old.store x.now }
    requires n { IsLive d.old.store n.0 }
    requires width { length x.now ≤ 130 }
    ensures negation { IfOk result (IsNegation d.old.store d.new.store n.0 x.now) }
    ensures grows { Grows d.old (InNegation d.old.store n.0 x.now) d.new }
    ensures stop { IfErr result (StopIs d.new.store (InNegation d.old.store n.0 x.now)) }
    ensures steps { TakesAtMost (negation_steps d.old.store n.0 x.now) d.old.store d.new.store steps.old steps.new }
{
    let _cached = d.cached();
    let width = x.width();
    let mut row = Row::with_room(x.alloc(), width + 1)?;
    let mut carry = n;
    for i in 0..width {
        let place = negate_bits(d, x.bit(i), n, carry, steps)?;
        row.push(place.bit);
        carry = place.carry;
    }
    let top = odd(d, x.bit(width), n, carry, steps)?;
    row.push(top);
    Ok(row.into_slices())
}
