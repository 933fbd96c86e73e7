//! The nodes of a gate's variables.
ghost use Rattle.std.specs.Prelude.{◌≡◌, ◌<◌, IfOk, IfErr, length};
ghost use Rattle.diagram_model.specs.Functions.{IsPrefixOf};
ghost use Rattle.diagram_model.specs.Stores.{IsLive};
ghost use Rattle.diagram_ops.specs.Diagrams.{IsConsistent, variable_of};
ghost use Rattle.diagram_ops.specs.Made.{StopIs};
ghost use Rattle.slice_vec.specs.Growing.{Grows, Denotes};
ghost use Rattle.slice_quad.specs.Variables.{opposite_at, both_at};

use diagram_ops::Diagrams;
use node_store::{FALSE, Node, StoreStop};
use std::sync::ledger::Ledger;
use steps::Steps;

/// The table of "not the first".
const OPPOSITE: u8 = 15;

/// The table of "the first and the second".
pub const BOTH: u8 = 192;

/// Where a variable is true.
pub fn variable_node(d: &mut Diagrams, var: u8) -> Result<Node, StoreStop>
    requires sound { IsConsistent d.old }
    requires within { var < length d.old.store.order }
    ensures grows { Grows d.old (IsPrefixOf d.old.store.order (variable_of var)) d.new }
    ensures node { IfOk result (λ n. Denotes d.new.store n.0 (variable_of var)) }
    ensures stop { IfErr result (StopIs d.new.store (IsPrefixOf d.old.store.order (variable_of var))) }
{
    let node = d.variable(var)?;
    Ok(node)
}

/// Where `n` isn't true.
pub fn opposite_node<L: Ledger>(
    d: &mut Diagrams,
    n: Node,
    steps: &mut Steps<L>,
) -> Result<Node, StoreStop>
    requires sound { IsConsistent d.old }
    requires n { IsLive d.old.store n.0 }
    ensures grows { Grows d.old (IsPrefixOf d.old.store.order (opposite_at d.old.store n.0)) d.new }
    ensures node { IfOk result (λ m. Denotes d.new.store m.0 (opposite_at d.old.store n.0)) }
    ensures stop { IfErr result (StopIs d.new.store (IsPrefixOf d.old.store.order (opposite_at d.old.store n.0))) }
{
    d.apply3::<OPPOSITE, _>(n, FALSE, FALSE, steps)
}

/// Where both are true.
pub fn both_node<L: Ledger>(
    d: &mut Diagrams,
    n: Node,
    m: Node,
    steps: &mut Steps<L>,
) -> Result<Node, StoreStop>
    requires sound { IsConsistent d.old }
    requires n { IsLive d.old.store n.0 }
    requires m { IsLive d.old.store m.0 }
    ensures grows { Grows d.old (IsPrefixOf d.old.store.order (both_at d.old.store n.0 m.0)) d.new }
    ensures node { IfOk result (λ k. Denotes d.new.store k.0 (both_at d.old.store n.0 m.0)) }
    ensures stop { IfErr result (StopIs d.new.store (IsPrefixOf d.old.store.order (both_at d.old.store n.0 m.0))) }
{
    d.apply3::<BOTH, _>(n, m, FALSE, steps)
}
