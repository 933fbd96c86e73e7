//! One step on a vector or a matrix.
ghost use Rattle.std.specs.Prelude.{◌≡◌, ◌+◌, ◌<◌, ◌≤◌, ◌^◌, IfOk, IfErr, OnOk, OnErr, IsTrue, length};
ghost use Rattle.diagram_model.specs.Stores.{Diagram, IsSound};
ghost use Rattle.diagram_ops.specs.Diagrams.{IsConsistent};
ghost use Rattle.diagram_ops.specs.Made.{StopIs};
ghost use Rattle.slice_vec.specs.Growing.{Grows};
ghost use Rattle.slice_quad.specs.Fours.{AreIntegers};
ghost use Rattle.slice_quad.specs.Mix.{Vector};
ghost use Rattle.slice_quad.specs.Settled.{HasBits, IsSettled};
ghost use Rattle.slice_quad.specs.Stepping.{stepped, half_of, IsStepOn, IsStep, IsWork};
ghost use Rattle.slice_quad.specs.Stops.{OnWidth, QuadStopIs, IsNotFull};
ghost use Rattle.slice_quad.specs.Vectors.{vector_in, AreValues, FitsWidth, Stands};

use crate::crossing::exchange_raw;
use crate::four::Four;
use crate::kind::{Step, target_of};
use crate::quad::SliceQuad;
use crate::raw::mix_raw;
use crate::settle::{goes_on, settle};
use crate::stop::QuadStop;
use crate::widths::{evened, trim_four, widest_of};
use diagram_ops::Diagrams;
use node_store::{Node, StoreStop};
use std::marker::Brand;
use std::sync::ledger::{Blank, Ledger};
use steps::Steps;

/// The step's matrix times the vector.
fn raw_step<L: Ledger>(
    d: &mut Diagrams,
    q: &Four,
    s: &Step,
    steps: &mut Steps<L>,
) -> Result<Four, StoreStop>
    requires sound { IsConsistent d.old }
    requires on { IsStepOn (length d.old.store.order) s.now }
    requires whole { AreIntegers d.old.store (length q.now.a) q.now }
    requires some { 1 ≤ length q.now.a }
    requires few { length q.now.a ≤ 128 }
    ensures values { IfOk result (AreValues d.new.store (stepped s.now (vector_in d.old.store q.now))) }
    ensures grows { Grows d.old (IsStep d.old.store s.now q.now) d.new }
    ensures stop { IfErr result (StopIs d.new.store (IsStep d.old.store s.now q.now)) }
{
    match s {
        Step::Mix {
            controls,
            target,
            rows,
            half,
        } => mix_raw(d, target_of(*controls, *target, *rows, *half), q, steps),
        Step::Exchange {
            controls,
            first,
            second,
        } => exchange_raw(d, controls, *first, *second, q, steps),
    }
}

/// Raw over a power of √2, if it fits the width, with the factors of 2 that all entries share taken out.
fn settled(raw: Four, exponent: u32, kept: Node, width: u8) -> Result<SliceQuad, QuadStop>
    requires some { HasBits raw }
    requires least { 2 ≤ width }
    requires greatest { width ≤ 128 }
    ensures settled { (d : Diagram) (v : Vector) → IsSound d → AreValues d v raw → IfOk result (λ q. IsSettled d v exponent q.four q.exponent) }
    ensures fits { (d : Diagram) (v : Vector) → IsSound d → AreValues d v raw → OnOk result (FitsWidth width v) }
    ensures width { (d : Diagram) (v : Vector) → IsSound d → AreValues d v raw → IfErr result (OnWidth (¬ FitsWidth width v)) }
    ensures narrow { IfOk result (λ q. length q.four.a ≤ width) }
    ensures kept { IfOk result (λ q. q.kept ≡ kept) }
    ensures not_full { IfErr result IsNotFull }
{
    let mut four = raw;
    trim_four(&mut four);
    if widest_of(&four) > usize::from(width) {
        return Err(QuadStop::Width);
    }
    let exponent = settle(&mut four, exponent);
    let even = evened(four)?;
    Ok(SliceQuad {
        four: even,
        exponent,
        kept,
    })
}

/// Whether a step leaves a vector as it is: its matrix is the unit matrix, each coefficient has room in the width, and no
/// factor of 2 is to be taken out.
fn is_idle(q: &SliceQuad, s: &Step, width: u8) -> bool
    ensures settled { IsTrue result → (d : Diagram) → IsSound d → Stands d q.now → IsSettled d (stepped s.now (vector_in d q.now.four)) (q.now.exponent + half_of s.now) q.now.four q.now.exponent }
    ensures fits { IsTrue result → (d : Diagram) → Stands d q.now → FitsWidth width (stepped s.now (vector_in d q.now.four)) }
    ensures narrow { IsTrue result → length q.now.four.a ≤ width }
{
    if !s.is_unit() {
        return false;
    }
    if q.four.a.width() > usize::from(width) {
        return false;
    }
    !goes_on(&q.four, q.exponent)
}

/// Applies a step: its matrix times the vector, which is raw, and then the factors of 2 that all entries share
/// taken out, each for two roots, while two roots are left.
///
/// `Width` comes exactly where a coefficient of raw isn't a signed number of `width` bits. Where there are too
/// few nodes, `Full` comes before that is known. Each node that is made denotes a work function of the step
/// with the first variables of the order fixed, and `Full` comes only where such a function has no node. After
/// a stop the vector is as before.
///
/// The cost is that of the connectives: for each bit of each coordinate one walk for X, one to four connectives for a
/// diagonal matrix, two cofactors and up to nine connectives for any other matrix, and two cofactors and four choices
/// for an exchange. A coordinate that is 0 costs next to nothing. The unit matrix, on a vector that fits and has no factor of 2
/// to be taken out, makes no node and takes no memory. No node is freed.
pub fn step(d: &mut Diagrams, q: &mut SliceQuad, s: &Step, width: u8) -> Result<(), QuadStop>
    requires stands { Stands d.old.store q.old }
    requires on { IsStepOn (length d.old.store.order) s.now }
    requires least { 2 ≤ width }
    requires greatest { width ≤ 128 }
    requires exponent { q.old.exponent + half_of s.now < 2 ^ 32 }
    ensures settled { OnOk result (IsSettled d.new.store (stepped s.now (vector_in d.old.store q.old.four)) (q.old.exponent + half_of s.now) q.new.four q.new.exponent) }
    ensures fits { OnOk result (FitsWidth width (stepped s.now (vector_in d.old.store q.old.four))) }
    ensures narrow { OnOk result (length q.new.four.a ≤ width) }

    // What a stop says.
    ensures width { IfErr result (OnWidth (¬ FitsWidth width (stepped s.now (vector_in d.old.store q.old.four)))) }
    ensures full { IfErr result (QuadStopIs d.new.store (IsWork d.old.store s.now q.old)) }
    ensures refused { OnErr result (q.new ≡ q.old) }

    // What stays, and what is made.
    ensures kept { q.new.kept ≡ q.old.kept }
    ensures stands { Stands d.new.store q.new }
    ensures grows { Grows d.old (IsWork d.old.store s.now q.old) d.new }
{
    step_counted::<Brand>(d, q, s, width, Blank::new(1))
}

fn step_counted<L: Ledger>(
    d: &mut Diagrams,
    q: &mut SliceQuad,
    s: &Step,
    width: u8,
    blank: Blank,
) -> Result<(), QuadStop>
    requires stands { Stands d.old.store q.old }
    requires on { IsStepOn (length d.old.store.order) s.now }
    requires least { 2 ≤ width }
    requires greatest { width ≤ 128 }
    requires exponent { q.old.exponent + half_of s.now < 2 ^ 32 }
    requires name { blank.name ≡ L.name }
    requires parts { blank.parts ≡ L.parts }
    requires some { 0 < blank.parts }
    ensures settled { OnOk result (IsSettled d.new.store (stepped s.now (vector_in d.old.store q.old.four)) (q.old.exponent + half_of s.now) q.new.four q.new.exponent) }
    ensures fits { OnOk result (FitsWidth width (stepped s.now (vector_in d.old.store q.old.four))) }
    ensures narrow { OnOk result (length q.new.four.a ≤ width) }
    ensures width { IfErr result (OnWidth (¬ FitsWidth width (stepped s.now (vector_in d.old.store q.old.four)))) }
    ensures full { IfErr result (QuadStopIs d.new.store (IsWork d.old.store s.now q.old)) }
    ensures refused { OnErr result (q.new ≡ q.old) }
    ensures kept { q.new.kept ≡ q.old.kept }
    ensures stands { Stands d.new.store q.new }
    ensures grows { Grows d.old (IsWork d.old.store s.now q.old) d.new }
{
    let _cached = d.cached();
    if is_idle(q, s, width) {
        return Ok(());
    }
    let mut steps = Steps::<L>::new(blank);
    let exponent = q.exponent + u32::from(s.half());
    let raw = raw_step(d, &q.four, s, &mut steps)?;
    let next = settled(raw, exponent, q.kept, width)?;
    *q = next;
    Ok(())
}
