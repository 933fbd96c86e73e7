//! When upkeep is due, and reclaims and sifts to a vector or matrix.
ghost use Rattle.std.specs.Prelude.{◌≡◌, ◌+◌, [], true, false, length, IfOk, OnOk, OnErr};
ghost use Rattle.diagram_model.specs.Stores.{held};
ghost use Rattle.node_reclaim.specs.Reclaims.{HoldsOnly};
ghost use Rattle.sifting.specs.Answers.{AreInTurn, SiftsTo, last_order};
ghost use Rattle.slice_quad.specs.Vectors.{Stands};
ghost use Rattle.step_upkeep.specs.Due.{is_due, IsInForce};
ghost use Rattle.step_upkeep.specs.Upkept.{KeepsQuad, InQuad, functions_in};

use amp_dense::Rules;
use bit_lists::OutOfMemory;
use diagram_ops::Diagrams;
use node_reclaim::reclaim;
use sifting::{Sifted, sift_all};
use slice_quad::{SliceQuad, roots};
use std::alloc::Global;

/// After each how many accepted gates nodes are reclaimed, and after each how many all variables are sifted. 0 is never.
#[derive(Clone, Copy, Drop)]
pub struct Schedule {
    pub reclaim: u32,
    pub sift: u32,
}

/// When the rules want upkeep.
pub(crate) fn schedule_of(rules: &Rules) -> Schedule
    ensures { result ≡ record { reclaim = rules.now.reclaim; sift = rules.now.sift } }
{
    Schedule {
        reclaim: rules.reclaim,
        sift: rules.sift,
    }
}

/// Whether upkeep is due after so many accepted gates: after each `every` of them, and never where that is 0.
pub fn is_due(every: u32, gates: u32) -> bool
    ensures { result ≡ is_due every gates }
{
    every != 0 && gates != 0 && gates % every == 0
}

/// Frees all nodes but those of a vector or matrix and the ones below them, empties the cache, and answers how
/// many were freed. Takes the time of `reclaim` of node_reclaim.
pub fn reclaim_to(alloc: Global, d: &mut Diagrams, q: &SliceQuad) -> Result<u32, OutOfMemory>
    requires { Stands d.old.store q.now }
    ensures keeps { KeepsQuad d.old q.now d.new }
    ensures order { d.new.store.order ≡ d.old.store.order }
    ensures holds { OnOk result (HoldsOnly d.new.store (InQuad d.old.store q.now)) }
    ensures freed { IfOk result (λ k. k + held d.new.store ≡ held d.old.store) }
    ensures cache { OnOk result (d.new.cache.entries ≡ []) }
    ensures refused { OnErr result (d.new ≡ d.old) }
{
    let _cached = d.cached();
    let roots = roots(alloc, q)?;
    let freed = reclaim(alloc, d, roots.as_slice())?;
    Ok(freed)
}

/// Sifts all variables in turn for the functions that a vector or matrix is stored by, with one answer each. All nodes but
/// those of the vector or matrix and the ones below them are freed, and the cache is empty. After a want of memory the order may be
/// any order of the variables. Takes the time of `sift_all` of sifting.
pub fn sift_to(alloc: Global, d: &mut Diagrams, q: &SliceQuad) -> Result<Vec<Sifted>, OutOfMemory>
    requires { Stands d.old.store q.now }
    ensures keeps { KeepsQuad d.old q.now d.new }

    // The answers, and the order.
    ensures count { IfOk result (λ rs. length rs.items ≡ length d.old.store.order) }
    ensures turns { IfOk result (λ rs. AreInTurn (functions_in d.old.store q.now) d.old.store.limit d.old.store.order 0 rs.items) }
    ensures last { IfOk result (λ rs. d.new.store.order ≡ last_order d.old.store.order rs.items) }
    ensures order { OnOk result (SiftsTo (functions_in d.old.store q.now) d.old.store.limit (length d.old.store.order) 0 d.old.store.order d.new.store.order) }
    ensures cache { OnOk result (d.new.cache.entries ≡ []) }
{
    let _cached = d.cached();
    let roots = roots(alloc, q)?;
    let sifted = sift_all(alloc, d, roots.as_slice())?;
    Ok(sifted)
}

/// Reclaims where it is due after so many accepted gates.
fn reclaim_due(
    alloc: Global,
    d: &mut Diagrams,
    q: &SliceQuad,
    every: u32,
    gates: u32,
) -> Result<(), OutOfMemory>
    requires { Stands d.old.store q.now }
    ensures keeps { KeepsQuad d.old q.now d.new }
    ensures order { d.new.store.order ≡ d.old.store.order }
    ensures holds { is_due every gates ≡ true → OnOk result (HoldsOnly d.new.store (InQuad d.old.store q.now)) }
{
    let _cached = d.cached();
    if !is_due(every, gates) {
        return Ok(());
    }
    let _freed = reclaim_to(alloc, d, q)?;
    Ok(())
}

/// Sifts where that is due after so many accepted gates, and else reclaims where that is due: a sift begins with a reclaim.
pub fn keep_up(
    alloc: Global,
    d: &mut Diagrams,
    q: &SliceQuad,
    schedule: Schedule,
    gates: u32,
) -> Result<(), OutOfMemory>
    requires { Stands d.old.store q.now }
    ensures keeps { KeepsQuad d.old q.now d.new }
    ensures in_force { OnOk result (IsInForce schedule.sift gates (functions_in d.old.store q.now) d.old.store.limit d.old.store.order d.new.store.order) }
    ensures order { is_due schedule.sift gates ≡ false → d.new.store.order ≡ d.old.store.order }
    ensures holds { is_due schedule.reclaim gates ≡ true → is_due schedule.sift gates ≡ false → OnOk result (HoldsOnly d.new.store (InQuad d.old.store q.now)) }
{
    if is_due(schedule.sift, gates) {
        let _sifted = sift_to(alloc, d, q)?;
        return Ok(());
    }
    reclaim_due(alloc, d, q, schedule.reclaim, gates)?;
    Ok(())
}
