//! One gate on a state.
ghost use Rattle.std.specs.Prelude.{◌≡◌, ◌-◌, ◌<◌, ◌≤◌, ◌^◌, IfErr, OnOk, OnErr, All, length};
ghost use Rattle.gate_set.specs.Shape.{qubits_of};
ghost use Rattle.circuit_model.specs.Working.{Scaled, FitsWidth, raw, step as next};
ghost use Rattle.slice_vec.specs.Growing.{Grows};
ghost use Rattle.slice_quad.specs.Stops.{OnWidth, QuadStopIs};
ghost use Rattle.slice_quad.specs.Vectors.{Stands};
ghost use Rattle.slice_gates.specs.GateWork.{IsGateWork};
ghost use Rattle.slice_gates.specs.Shown.{Shows};

use crate::side::Side;
use crate::step::step_of;
use diagram_ops::Diagrams;
use gate_set::Gate;
use slice_quad::{QuadStop, SliceQuad, step};

/// Applies a gate to the working vector: the textbook product of its matrix, which is raw, and then the halving.
///
/// `Width` comes exactly where raw doesn't fit the width. Where there are too few nodes, `Full` comes before that is
/// known. After a stop the vector is as before.
pub fn gate_step(
    d: &mut Diagrams,
    q: &mut SliceQuad,
    gate: &Gate,
    width: u8,
) -> Result<(), QuadStop>
    requires stands { Stands d.old.store q.old }
    requires below { All (λ q. q < length d.old.store.order) (qubits_of gate.now) }
    requires least { 2 ≤ width }
    requires greatest { width ≤ 128 }
    requires exponent { q.old.exponent < 2 ^ 32 - 1 }
    ensures shown { (w : Scaled) → Shows d.old.store q.old w → OnOk result (Shows d.new.store q.new (next (length d.old.store.order) w gate.now)) }
    ensures fits { (w : Scaled) → Shows d.old.store q.old w → OnOk result (FitsWidth (length d.old.store.order) width (raw gate.now w).entries) }
    ensures narrow { OnOk result (length q.new.four.a ≤ width) }

    // What a stop says.
    ensures width { (w : Scaled) → Shows d.old.store q.old w → IfErr result (OnWidth (¬ FitsWidth (length d.old.store.order) width (raw gate.now w).entries)) }
    ensures full { (w : Scaled) → Shows d.old.store q.old w → IfErr result (QuadStopIs d.new.store (IsGateWork d.old.store q.old gate.now w.entries)) }
    ensures refused { OnErr result (q.new ≡ q.old) }

    // What stays, and what is made.
    ensures kept { q.new.kept ≡ q.old.kept }
    ensures stands { Stands d.new.store q.new }
    ensures grows { (w : Scaled) → Shows d.old.store q.old w → Grows d.old (IsGateWork d.old.store q.old gate.now w.entries) d.new }
{
    let vars = d.store().order().len();
    let s = step_of(gate, Side::State, vars);
    step(d, q, &s, width)?;
    Ok(())
}
