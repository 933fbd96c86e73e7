//! Upkeep of the diagrams of a state.
ghost use Rattle.std.specs.Prelude.{◌+◌, ◌<◌, length, IfOk, IfErr};
ghost use Rattle.slice_quad.specs.Vectors.{Stands};
ghost use Rattle.state_update.specs.declared.events.Event.TheVariants as events;
ghost use Rattle.state_update.specs.Events.{KeepsNodes, Upkeeps, UpkeepStops};

use crate::events::Report;
use amp_dense::Stop;
use diagram_ops::Diagrams;
use level_swap::{room, swap};
use node_reclaim::reclaim;
use sifting::{sift_all, sift_variable};
use slice_quad::{SliceQuad, roots};
use std::alloc::Global;

/// Frees the nodes that are not reached from those of the integers.
pub(crate) fn reclaim_rest(alloc: Global, d: &mut Diagrams, q: &SliceQuad) -> Result<Report, Stop>
    requires { Stands d.old.store q.now }
    ensures done { IfOk result (λ r. Upkeeps q.now d.old events.Reclaim r d.new) }
    ensures stopped { IfErr result (λ stop. UpkeepStops q.now d.old events.Reclaim stop d.new) }
    ensures keeps { KeepsNodes q.now d.old d.new }
{
    let _cached = d.cached();
    let roots = roots(alloc, q)?;
    let freed = reclaim(alloc, d, roots.as_slice())?;
    Ok(Report::Freed(freed))
}

/// Exchanges the variables at a place and at the next one, where there is room.
pub(crate) fn swap_places(
    alloc: Global,
    d: &mut Diagrams,
    q: &SliceQuad,
    level: u8,
) -> Result<Report, Stop>
    requires stands { Stands d.old.store q.now }
    requires level { level + 1 < length d.old.store.order }
    ensures done { IfOk result (λ r. Upkeeps q.now d.old (events.Swap level) r d.new) }
    ensures stopped { IfErr result (λ stop. UpkeepStops q.now d.old (events.Swap level) stop d.new) }
    ensures keeps { KeepsNodes q.now d.old d.new }
{
    let there = room(d.store(), level);
    if !there.is_enough() {
        return Ok(Report::NoRoom(there));
    }
    d.forget();
    let swapped = swap(alloc, d.lend(), level);
    let _cached = d.cached();
    swapped?;
    Ok(Report::Swapped)
}

/// Moves a variable to its least place.
pub(crate) fn sift_one(
    alloc: Global,
    d: &mut Diagrams,
    q: &SliceQuad,
    var: u8,
) -> Result<Report, Stop>
    requires stands { Stands d.old.store q.now }
    requires var { var < length d.old.store.order }
    ensures done { IfOk result (λ r. Upkeeps q.now d.old (events.SiftOne var) r d.new) }
    ensures stopped { IfErr result (λ stop. UpkeepStops q.now d.old (events.SiftOne var) stop d.new) }
    ensures keeps { KeepsNodes q.now d.old d.new }
{
    let _cached = d.cached();
    let roots = roots(alloc, q)?;
    let sifted = sift_variable(alloc, d, roots.as_slice(), var)?;
    Ok(Report::OneSifted(sifted))
}

/// Moves each variable to its least place, one after the other.
pub(crate) fn sift_each(alloc: Global, d: &mut Diagrams, q: &SliceQuad) -> Result<Report, Stop>
    requires { Stands d.old.store q.now }
    ensures done { IfOk result (λ r. Upkeeps q.now d.old events.SiftAll r d.new) }
    ensures stopped { IfErr result (λ stop. UpkeepStops q.now d.old events.SiftAll stop d.new) }
    ensures keeps { KeepsNodes q.now d.old d.new }
{
    let _cached = d.cached();
    let roots = roots(alloc, q)?;
    let sifted = sift_all(alloc, d, roots.as_slice())?;
    Ok(Report::AllSifted(sifted))
}

/// Empties the cache.
pub(crate) fn forget_cache(d: &mut Diagrams, q: &SliceQuad) -> Report
    requires { Stands d.old.store q.now }
    ensures done { Upkeeps q.now d.old events.ForgetCache result d.new }
    ensures keeps { KeepsNodes q.now d.old d.new }
{
    d.forget();
    Report::Forgotten
}
