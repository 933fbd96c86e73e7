//! An integer for each of the four coordinates, made one after another.
ghost use Rattle.std.specs.Prelude.{IfOk, IfErr};
ghost use Rattle.diagram_ops.specs.Diagrams.{IsConsistent};
ghost use Rattle.diagram_ops.specs.Made.{StopIs};
ghost use Rattle.slice_vec.specs.Growing.{Grows};
ghost use Rattle.slice_quad.specs.Fourfold.{Takes, Functions, Gives, Among, IsRepeatable, AreGiven};

use crate::coord::Coord;
use crate::four::Four;
use diagram_ops::Diagrams;
use node_store::StoreStop;
use slice_vec::Slices;
use std::sync::ledger::Ledger;
use steps::Steps;

/// A call that makes an integer for a coordinate.
pub trait Makes {
    /// What it asks of the diagram.
    ghost takes: { Self → Takes };

    /// The functions for which it makes nodes.
    ghost functions: { Self → Functions };

    /// What it says of the integer.
    ghost gives: { Self → Gives };

    /// The integer of coordinate `z`.
    fn make<L: Ledger>(
        &self,
        d: &mut Diagrams,
        z: Coord,
        steps: &mut Steps<L>,
    ) -> Result<Slices, StoreStop>
        requires sound { IsConsistent d.old }
        requires takes { takes self.now d.old.store }
        ensures gives { IfOk result (gives self.now d.old.store z d.new.store) }
        ensures grows { Grows d.old (Among (functions self.now) d.old.store) d.new }
        ensures stop { IfErr result (StopIs d.new.store (Among (functions self.now) d.old.store)) };
}

/// The integers of all four.
pub fn each<M: Makes, L: Ledger>(
    d: &mut Diagrams,
    call: &M,
    steps: &mut Steps<L>,
) -> Result<Four, StoreStop>
    requires sound { IsConsistent d.old }
    requires takes { M.takes call.now d.old.store }
    requires repeatable { IsRepeatable (M.takes call.now) (M.functions call.now) (M.gives call.now) }
    ensures gives { IfOk result (AreGiven (M.gives call.now) d.old.store d.new.store) }
    ensures grows { Grows d.old (Among (M.functions call.now) d.old.store) d.new }
    ensures stop { IfErr result (StopIs d.new.store (Among (M.functions call.now) d.old.store)) }
{
    let a = call.make(d, Coord::A, steps)?;
    let b = call.make(d, Coord::B, steps)?;
    let c = call.make(d, Coord::C, steps)?;
    let e = call.make(d, Coord::D, steps)?;
    Ok(Four { a, b, c, d: e })
}
