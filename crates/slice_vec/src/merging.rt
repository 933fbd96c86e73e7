//! Cofactors of two integers, put together by the same variable.
ghost use Rattle.std.specs.Prelude.{◌<◌, IfOk, IfErr, length, max};
ghost use Rattle.diagram_model.specs.Functions.{IsPrefixOf};
ghost use Rattle.diagram_model.specs.Stores.{IsLive, function_of};
ghost use Rattle.diagram_ops.specs.Bounds.{TakesAtMost};
ghost use Rattle.diagram_ops.specs.Diagrams.{IsConsistent, variable_of};
ghost use Rattle.diagram_ops.specs.Made.{StopIs};
ghost use Rattle.slice_vec.specs.Bounds.{merging, merge_steps};
ghost use Rattle.slice_vec.specs.Growing.{Grows, Denotes};
ghost use Rattle.slice_vec.specs.Places.{merge_at};
ghost use Rattle.slice_vec.specs.Slices.{StandsIn, InMerged, IsMerged};

use crate::choice::CHOICE;
use crate::row::Row;
use crate::slices::Slices;
use diagram_ops::Diagrams;
use node_store::{Node, StoreStop};
use std::sync::ledger::Ledger;
use steps::Steps;

/// The table that is the third of three where the first is true, else the second.
const OTHER: u8 = 172;

/// `a` where `var` is true, else `b`, both with `var` fixed, in one walk. `n` is the node of `var`.
fn merge_bit<L: Ledger>(
    d: &mut Diagrams,
    n: Node,
    a: Node,
    b: Node,
    var: u8,
    bit: bool,
    steps: &mut Steps<L>,
) -> Result<Node, StoreStop>
    requires sound { IsConsistent d.old }
    requires n { Denotes d.old.store n.0 (variable_of var) }
    requires a { IsLive d.old.store a.0 }
    requires b { IsLive d.old.store b.0 }
    requires var { var < length d.old.store.order }
    ensures grows { Grows d.old (IsPrefixOf d.old.store.order (merge_at var bit (function_of d.old.store a.0) (function_of d.old.store b.0))) d.new }
    ensures node { IfOk result (λ m. Denotes d.new.store m.0 (merge_at var bit (function_of d.old.store a.0) (function_of d.old.store b.0))) }
    ensures stop { IfErr result (StopIs d.new.store (IsPrefixOf d.old.store.order (merge_at var bit (function_of d.old.store a.0) (function_of d.old.store b.0)))) }
    ensures steps { TakesAtMost (merging d.old.store var bit (function_of d.old.store a.0) (function_of d.old.store b.0)) d.old.store d.new.store steps.old steps.new }
{
    if bit {
        return d.apply3_flipped::<OTHER, _>(n, b, a, var, steps);
    }
    d.apply3_flipped::<CHOICE, _>(n, a, b, var, steps)
}

/// `x` where `var` is true, else `y`, both with `var` fixed, as wide as the wider one. `n` is the node of
/// `var`.
///
/// One walk a bit, and no cofactor is made.
pub fn select_fixed<L: Ledger>(
    d: &mut Diagrams,
    n: Node,
    x: &Slices,
    y: &Slices,
    var: u8,
    bit: bool,
    steps: &mut Steps<L>,
) -> Result<Slices, StoreStop>
    requires n { Denotes d.old.store n.0 (variable_of var) }
    requires x { StandsIn d.old.store x.now }
    requires y { StandsIn d.old.store y.now }
    requires var { var < length d.old.store.order }
    ensures merged { IfOk result (IsMerged d.old.store d.new.store var bit x.now y.now) }
    ensures grows { Grows d.old (InMerged d.old.store var bit x.now y.now) d.new }
    ensures stop { IfErr result (StopIs d.new.store (InMerged d.old.store var bit x.now y.now)) }
    ensures steps { TakesAtMost (merge_steps d.old.store var bit x.now y.now) d.old.store d.new.store steps.old steps.new }
{
    let _cached = d.cached();
    let width = x.width().max(y.width());
    let mut row = Row::with_room(x.alloc(), width)?;
    for i in 0..width {
        let merged = merge_bit(d, n, x.bit(i), y.bit(i), var, bit, steps)?;
        row.push(merged);
    }
    Ok(row.into_slices())
}
