//! Choices between two integers.
ghost use Rattle.std.specs.Prelude.{IfOk, IfErr, length, max};
ghost use Rattle.diagram_model.specs.Functions.{IsPrefixOf};
ghost use Rattle.diagram_model.specs.Stores.{IsLive};
ghost use Rattle.diagram_ops.specs.Bounds.{joint_size_of, TakesAtMost};
ghost use Rattle.diagram_ops.specs.Diagrams.{IsConsistent};
ghost use Rattle.diagram_ops.specs.Made.{StopIs};
ghost use Rattle.slice_vec.specs.Bounds.{choice_steps};
ghost use Rattle.slice_vec.specs.Growing.{Grows, Denotes};
ghost use Rattle.slice_vec.specs.Places.{choice_at};
ghost use Rattle.slice_vec.specs.Slices.{StandsIn, InChosen, IsChosen};

use crate::row::Row;
use crate::slices::Slices;
use diagram_ops::Diagrams;
use node_store::{FALSE, Node, StoreStop, TRUE};
use std::sync::ledger::Ledger;
use steps::Steps;

/// The table that is the second of three where the first is true, else the third.
pub const CHOICE: u8 = 202;

/// The function of `a` where `n` is true, else that of `b`.
fn choose<L: Ledger>(
    d: &mut Diagrams,
    n: Node,
    a: Node,
    b: Node,
    steps: &mut Steps<L>,
) -> Result<Node, StoreStop>
    requires sound { IsConsistent d.old }
    requires n { IsLive d.old.store n.0 }
    requires a { IsLive d.old.store a.0 }
    requires b { IsLive d.old.store b.0 }
    ensures grows { Grows d.old (IsPrefixOf d.old.store.order (choice_at d.old.store n.0 a.0 b.0)) d.new }
    ensures node { IfOk result (λ m. Denotes d.new.store m.0 (choice_at d.old.store n.0 a.0 b.0)) }
    ensures stop { IfErr result (StopIs d.new.store (IsPrefixOf d.old.store.order (choice_at d.old.store n.0 a.0 b.0))) }
    ensures steps { TakesAtMost (joint_size_of d.old.store n.0 a.0 b.0) d.old.store d.new.store steps.old steps.new }
{
    if a == b {
        return Ok(a);
    }
    if n == TRUE {
        return Ok(a);
    }
    if n == FALSE {
        return Ok(b);
    }
    d.apply3::<CHOICE, _>(n, a, b, steps)
}

/// `x` where `n` is true, else `y`, as wide as the wider one.
///
/// Both are read as if extended by their signs. A place where both bits are one node takes no
/// connective. `Full` comes only where some prefix subfunction of a bit of the answer has no node.
pub fn select<L: Ledger>(
    d: &mut Diagrams,
    n: Node,
    x: &Slices,
    y: &Slices,
    steps: &mut Steps<L>,
) -> Result<Slices, StoreStop>
    requires n { IsLive d.old.store n.0 }
    requires x { StandsIn d.old.store x.now }
    requires y { StandsIn d.old.store y.now }
    ensures chosen { IfOk result (IsChosen d.old.store d.new.store n.0 x.now y.now) }
    ensures grows { Grows d.old (InChosen d.old.store n.0 x.now y.now) d.new }
    ensures stop { IfErr result (StopIs d.new.store (InChosen d.old.store n.0 x.now y.now)) }
    ensures steps { TakesAtMost (choice_steps d.old.store n.0 x.now y.now) d.old.store d.new.store steps.old steps.new }
{
    let _cached = d.cached();
    let width = x.width().max(y.width());
    let mut row = Row::with_room(x.alloc(), width)?;
    for i in 0..width {
        let bit = choose(d, n, x.bit(i), y.bit(i), steps)?;
        row.push(bit);
    }
    Ok(row.into_slices())
}
