//! Events on a state: gates, and upkeep of its diagrams.
ghost use Rattle.std.specs.Prelude.{◌≡◌, ◌+◌, ◌<◌, ◌≤◌, ◌^◌, ◌++◌, All, length, take, IfOk, IfErr, OnOk};
ghost use Rattle.circuit_model.specs.Working.{work};
ghost use Rattle.amp_dense.specs.Standing.{vector};
ghost use Rattle.gate_set.specs.Shape.{IsOn};
ghost use Rattle.state_update.specs.declared.events.Event.TheVariants as events;
ghost use Rattle.state_update.specs.Kept.{standing_of};
ghost use Rattle.state_update.specs.Events.{IsWithin, gate_of, gates_of, Reports, EventStops, IsAfter, Runs, Stops};

use crate::events::{Event, EventStop, Report};
use crate::node_upkeep::{forget_cache, reclaim_rest, sift_each, sift_one, swap_places};
use crate::sliced::SlicedState;
use amp_dense::{Amplitudes, Stop};
use gate_set::Gate;
use std::alloc::Global;

impl SlicedState {
    /// Applies a gate.
    fn step(&mut self, alloc: Global, gate: &Gate) -> Result<Report, Stop>
        requires within { IsOn (length self.old.input) gate.now }
        requires few { length self.old.gates < 2000000 }
        ensures done { IfOk result (λ r. Reports self.old (events.Gate gate.now) r self.new) }
        ensures stopped { IfErr result (λ stop. EventStops self.old (events.Gate gate.now) stop self.new) }
    {
        self.apply(alloc, gate)?;
        Ok(Report::Stepped)
    }

    /// Frees the nodes that the integers don't reach.
    fn reclaim(&mut self, alloc: Global) -> Result<Report, Stop>
        ensures done { IfOk result (λ r. Reports self.old events.Reclaim r self.new) }
        ensures stopped { IfErr result (λ stop. EventStops self.old events.Reclaim stop self.new) }
    {
        let answer = reclaim_rest(alloc, &mut self.diagrams, &self.quad);
        answer
    }

    /// Exchanges the variables at a place and at the next one.
    fn swap(&mut self, alloc: Global, level: u8) -> Result<Report, Stop>
        requires { level + 1 < length self.old.input }
        ensures done { IfOk result (λ r. Reports self.old (events.Swap level) r self.new) }
        ensures stopped { IfErr result (λ stop. EventStops self.old (events.Swap level) stop self.new) }
    {
        let answer = swap_places(alloc, &mut self.diagrams, &self.quad, level);
        answer
    }

    /// Moves a variable to its least place.
    fn sift_one(&mut self, alloc: Global, var: u8) -> Result<Report, Stop>
        requires { var < length self.old.input }
        ensures done { IfOk result (λ r. Reports self.old (events.SiftOne var) r self.new) }
        ensures stopped { IfErr result (λ stop. EventStops self.old (events.SiftOne var) stop self.new) }
    {
        let answer = sift_one(alloc, &mut self.diagrams, &self.quad, var);
        answer
    }

    /// Moves each variable to its least place, one after the other.
    fn sift_all(&mut self, alloc: Global) -> Result<Report, Stop>
        ensures done { IfOk result (λ r. Reports self.old events.SiftAll r self.new) }
        ensures stopped { IfErr result (λ stop. EventStops self.old events.SiftAll stop self.new) }
    {
        let answer = sift_each(alloc, &mut self.diagrams, &self.quad);
        answer
    }

    /// Empties the cache.
    fn forget(&mut self) -> Report
        ensures { Reports self.old events.ForgetCache result self.new }
    {
        let report = forget_cache(&mut self.diagrams, &self.quad);
        report
    }

    /// One event. A gate is applied as `apply` does; a reclaim, the sifts and a swap act as those of node_reclaim, sifting
    /// and level_swap on the nodes of the integers. A swap, a sift and a reclaim empty the cache. After a stop the accepted
    /// gates and all entries are as before.
    pub fn upkeep(&mut self, alloc: Global, e: &Event) -> Result<Report, Stop>
        requires within { IsWithin (length self.old.input) e.now }
        requires few { length self.old.gates + length (gate_of e.now) ≤ 2000000 }
        ensures done { IfOk result (λ r. Reports self.old e.now r self.new) }
        ensures stopped { IfErr result (λ stop. EventStops self.old e.now stop self.new) }
        ensures input { self.new.input ≡ self.old.input }
    {
        match e {
            Event::Gate(gate) => self.step(alloc, gate),
            Event::Reclaim => self.reclaim(alloc),
            Event::Swap(level) => self.swap(alloc, *level),
            Event::SiftOne(var) => self.sift_one(alloc, *var),
            Event::SiftAll => self.sift_all(alloc),
            Event::ForgetCache => Ok(self.forget()),
        }
    }

    /// `run_events`, event by event.
    fn run_in_turn(&mut self, alloc: Global, list: &[Event]) -> Result<Vec<Report>, EventStop>
        requires count { length list.now < 2 ^ 32 }
        requires within { All (IsWithin (length self.old.input)) list.now }
        requires few { length self.old.gates + length (gates_of list.now) ≤ 2000000 }
        ensures runs { IfOk result (λ rs. Runs self.old list.now rs.items self.new) }
        ensures stops { IfErr result (λ stop. Stops self.old list.now stop self.new) }
    {
        let Ok(mut reports) = Vec::with_capacity(alloc, list.len()) else {
            return Err(EventStop {
                at: 0,
                stop: Stop::OutOfMemory,
            });
        };
        'events: for e in list {
            match self.upkeep(alloc, e) {
                Ok(report) => reports.push_reserved(report),
                Err(stop) => {
                    let at = reports.len() as u32;
                    return Err(EventStop { at, stop });
                }
            }
        }
        Ok(reports)
    }

    /// The events of a list in turn, up to the first that stops, with one report each. Room for the reports is taken first. The entries
    /// are those of the gates alone.
    pub fn run_events(&mut self, alloc: Global, list: &[Event]) -> Result<Vec<Report>, EventStop>
        requires count { length list.now < 2 ^ 32 }
        requires within { All (IsWithin (length self.old.input)) list.now }
        requires few { length self.old.gates + length (gates_of list.now) ≤ 2000000 }
        ensures runs { IfOk result (λ rs. Runs self.old list.now rs.items self.new) }
        ensures stops { IfErr result (λ stop. Stops self.old list.now stop self.new) }

        // The accepted gates, and the working vector.
        ensures input { self.new.input ≡ self.old.input }
        ensures accepted { OnOk result (IsAfter self.old (gates_of list.now) self.new) }
        ensures accepted_before { IfErr result (λ stop. IsAfter self.old (gates_of (take stop.at list.now)) self.new) }
        ensures entries { OnOk result (vector (standing_of self.new) ≡ work (self.old.gates ++ gates_of list.now) self.old.input) }
        ensures entries_before { IfErr result (λ stop. vector (standing_of self.new) ≡ work (self.old.gates ++ gates_of (take stop.at list.now)) self.old.input) }
    {
        let answer = self.run_in_turn(alloc, list);
        answer
    }
}
