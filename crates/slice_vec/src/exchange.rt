//! Integers with a variable flipped.
ghost use Rattle.std.specs.Prelude.{◌<◌, IfOk, IfErr, length};
ghost use Rattle.diagram_model.specs.Functions.{IsPrefixOf};
ghost use Rattle.diagram_model.specs.Stores.{IsLive, function_of};
ghost use Rattle.diagram_ops.specs.Bounds.{joint_size_in, TakesAtMost};
ghost use Rattle.diagram_ops.specs.Diagrams.{IsConsistent};
ghost use Rattle.diagram_ops.specs.Flips.{flip, exchanged};
ghost use Rattle.diagram_ops.specs.Made.{StopIs};
ghost use Rattle.slice_vec.specs.Bounds.{turn_steps};
ghost use Rattle.slice_vec.specs.Growing.{Grows, Denotes};
ghost use Rattle.slice_vec.specs.Slices.{StandsIn, InTurned, IsTurned};

use crate::row::Row;
use crate::slices::Slices;
use diagram_ops::Diagrams;
use node_store::{FALSE, Node, StoreStop};
use std::sync::ledger::Ledger;
use steps::Steps;

/// A node, and what it is with the variable flipped.
#[derive(Clone, Copy, Drop)]
struct Turned {
    from: Node,
    to: Node,
}

/// The function of a node with a variable flipped where `n` is true, where that of the bit below is
/// known.
fn flip_bit<L: Ledger>(
    d: &mut Diagrams,
    n: Node,
    a: Node,
    below: Turned,
    var: u8,
    steps: &mut Steps<L>,
) -> Result<Node, StoreStop>
    requires sound { IsConsistent d.old }
    requires n { IsLive d.old.store n.0 }
    requires a { IsLive d.old.store a.0 }
    requires below { Denotes d.old.store below.to.0 (exchanged var (function_of d.old.store n.0) (function_of d.old.store below.from.0)) }
    requires var { var < length d.old.store.order }
    ensures grows { Grows d.old (IsPrefixOf d.old.store.order (exchanged var (function_of d.old.store n.0) (function_of d.old.store a.0))) d.new }
    ensures node { IfOk result (λ m. Denotes d.new.store m.0 (exchanged var (function_of d.old.store n.0) (function_of d.old.store a.0))) }
    ensures stop { IfErr result (StopIs d.new.store (IsPrefixOf d.old.store.order (exchanged var (function_of d.old.store n.0) (function_of d.old.store a.0)))) }
    ensures steps { TakesAtMost (joint_size_in d.old.store (function_of d.old.store n.0) (flip var (function_of d.old.store a.0)) (function_of d.old.store a.0)) d.old.store d.new.store steps.old steps.new }
{
    if a == below.from {
        return Ok(below.to);
    }
    d.exchange(n, a, var, steps)
}

/// The integer with a variable flipped where `n` is true, as wide as before.
///
/// One walk a bit. A bit whose node is that of the bit below takes none of its own. `Full` comes only
/// where some prefix subfunction of a bit of the answer has no node.
pub fn flip_where<L: Ledger>(
    d: &mut Diagrams,
    n: Node,
    x: &Slices,
    var: u8,
    steps: &mut Steps<L>,
) -> Result<Slices, StoreStop>
    requires n { IsLive d.old.store n.0 }
    requires x { StandsIn d.old.store x.now }
    requires var { var < length d.old.store.order }
    ensures turned { IfOk result (IsTurned d.old.store d.new.store var n.0 x.now) }
    ensures grows { Grows d.old (InTurned d.old.store var n.0 x.now) d.new }
    ensures stop { IfErr result (StopIs d.new.store (InTurned d.old.store var n.0 x.now)) }
    ensures steps { TakesAtMost (turn_steps d.old.store var n.0 x.now) d.old.store d.new.store steps.old steps.new }
{
    let _cached = d.cached();
    let mut row = Row::with_room(x.alloc(), x.width())?;
    let mut below = Turned {
        from: FALSE,
        to: FALSE,
    };
    for i in 0..x.width() {
        let from = x.bit(i);
        let to = flip_bit(d, n, from, below, var, steps)?;
        row.push(to);
        below = Turned { from, to };
    }
    Ok(row.into_slices())
}
