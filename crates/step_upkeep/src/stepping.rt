//! One step on a vector or a matrix, with upkeep.
ghost use Rattle.std.specs.Prelude.{◌≡◌, ◌+◌, ◌-◌, ◌<◌, ◌≤◌, ◌^◌, length};
ghost use Rattle.slice_quad.specs.Stepping.{half_of, IsStepOn};
ghost use Rattle.slice_quad.specs.Vectors.{Stands};
ghost use Rattle.step_upkeep.specs.Accepted.{IsAccepted, stop_of};
ghost use Rattle.step_upkeep.specs.Tried.{IsStepped, IsTried, is_full};

use crate::upkeep::{keep_up, reclaim_to, schedule_of};
use amp_dense::{Rules, Stop};
use bit_lists::Order;
use diagram_ops::Diagrams;
use slice_quad::{QuadStop, SliceQuad, Step, step};
use std::alloc::Global;

/// Whether a step was refused for want of nodes.
fn is_full(answer: &Result<(), QuadStop>) -> bool
    ensures { result ≡ is_full answer.now }
{
    match answer {
        Ok(()) => false,
        Err(QuadStop::Width) => false,
        Err(QuadStop::Full { .. }) => true,
        Err(QuadStop::OutOfMemory) => false,
    }
}

/// The step, as one fact.
fn once(d: &mut Diagrams, q: &mut SliceQuad, s: &Step, width: u8) -> Result<(), QuadStop>
    requires stands { Stands d.old.store q.old }
    requires on { IsStepOn (length d.old.store.order) s.now }
    requires least { 2 ≤ width }
    requires greatest { width ≤ 128 }
    requires exponent { q.old.exponent + half_of s.now < 2 ^ 32 }
    ensures { IsStepped d.old d.new s.now q.old q.new width result }
{
    let answer = step(d, q, s, width);
    answer
}

/// The step, and once more after a reclaim where there were too few nodes for it.
fn tried(
    alloc: Global,
    d: &mut Diagrams,
    q: &mut SliceQuad,
    s: &Step,
    width: u8,
) -> Result<(), QuadStop>
    requires stands { Stands d.old.store q.old }
    requires on { IsStepOn (length d.old.store.order) s.now }
    requires least { 2 ≤ width }
    requires greatest { width ≤ 128 }
    requires exponent { q.old.exponent + half_of s.now < 2 ^ 32 }
    ensures { IsTried d.old d.new s.now q.old q.new width result }
{
    let _cached = d.cached();
    let first = once(d, q, s, width);
    if !is_full(&first) {
        return first;
    }
    let _freed = reclaim_to(alloc, d, q)?;
    let second = once(d, q, s, width);
    second
}

/// The stop of the step of this number, in this order.
fn told(stop: QuadStop, number: u32, order: Order) -> Stop
    ensures { result ≡ stop_of stop number order }
{
    match stop {
        QuadStop::Width => Stop::Width { gate: number },
        QuadStop::Full { held } => Stop::Nodes {
            gate: number,
            order,
            held,
        },
        QuadStop::OutOfMemory => Stop::OutOfMemory,
    }
}

/// Multiplies a vector or matrix by a step as `step` of slice_quad does, where so many are accepted. Where a sift is due, all variables are sifted first,
/// for the functions that it is stored by; a sift reclaims too. Where a reclaim is due, the nodes that it isn't stored by are freed first. Where the store is
/// full in the middle of the step, they are freed too, and the step is tried once more.
///
/// So `Nodes` comes only where the step's work functions alone need at least as many nodes as the limit, in the order in force. Where a
/// reclaim was due and no sift, no other nodes are held afterwards than those of the work functions. A due sift alone changes the order.
pub fn accept(
    alloc: Global,
    d: &mut Diagrams,
    q: &mut SliceQuad,
    rules: &Rules,
    s: &Step,
    accepted: u32,
) -> Result<(), Stop>
    requires stands { Stands d.old.store q.old }
    requires on { IsStepOn (length d.old.store.order) s.now }
    requires exponent { q.old.exponent + half_of s.now < 2 ^ 32 }
    requires few { accepted < 2 ^ 32 - 1 }
    ensures { IsAccepted rules.now accepted d.old d.new s.now q.old q.new result }
{
    let width = rules.width();
    let schedule = schedule_of(rules);
    keep_up(alloc, d, q, schedule, accepted)?;
    match tried(alloc, d, q, s, width) {
        Ok(()) => Ok(()),
        Err(stop) => Err(told(stop, accepted + 1, d.store().order())),
    }
}
