//! A working vector as integers over decision diagrams.
ghost use Rattle.std.specs.Prelude.{◌≡◌, ◌≤◌, ◌<◌, length, All, IfOk, IfErr, OnOk, OnErr, IfSome, IfNone};

use amp_dense::{Amplitudes, Rules, Stop};
use bit_lists::{Bits, Order, OutOfMemory};
use diagram_ops::Diagrams;
use gate_set::Gate;
use ring_omega::Quad;
use slice_gates::{Side, step_of};
use slice_quad::{SliceQuad, entry, exponent, next_nonzero, start};
use slice_weights::{Walk, count_nonzero, last_nonzero};
use std::alloc::Global;
use std::marker::Model;
use step_upkeep::accept;

/// The working vector of at most 64 qubits, as integers over decision diagrams with a variable for each qubit.
///
/// A gate takes the time of the connectives of its step: what it costs depends on how many functions the bits of the
/// vector share, not on the number of basis states. Nodes that are no longer wanted are reclaimed after every so many
/// gates, as the rules say, and where the diagrams are full. All variables are sifted after every so many gates, as the rules say.
#[derive(Drop)]
pub struct SlicedState {
    input: Bits,
    rules: Rules,
    gates: Vec<Gate>,
    pub(crate) diagrams: Diagrams,
    pub(crate) quad: SliceQuad,
}

impl Model for SlicedState {
    ghost use Rattle.state_update.specs.Kept.{State, IsKept};

    ghost Value = { State };

    ghost view = { λ s. record { input = s.input; rules = s.rules; gates = s.gates.items; diagrams = s.diagrams; quad = s.quad } };

    ghost invariant = { λ s. IsKept (record { input = s.input; rules = s.rules; gates = s.gates.items; diagrams = s.diagrams; quad = s.quad }) };
}

impl SlicedState {
    ghost use Rattle.gate_set.specs.Shape.{IsOn};
    ghost use Rattle.amp_dense.specs.Standing.{FitsAfter, vector};
    ghost use Rattle.slice_quad.specs.Vectors.{Stands};
    ghost use Rattle.slice_gates.specs.Shown.{Shows};
    ghost use Rattle.step_upkeep.specs.Chains.{Proceeds};
    ghost use Rattle.state_update.specs.Kept.{standing_of, vector_chain};

    /// The diagrams, with one variable for each qubit, and the integers that stand in them. The kept function is FALSE.
    pub fn parts(&self) -> (&Diagrams, &SliceQuad)
        ensures diagrams { result.0.now ≡ self.now.diagrams }
        ensures quad { result.1.now ≡ self.now.quad }
        ensures variables { length self.now.diagrams.store.order ≡ length self.now.input }
        ensures limit { self.now.diagrams.store.limit ≡ self.now.rules.nodes }
        ensures capacity { self.now.diagrams.cache.capacity ≡ self.now.rules.cache }
        ensures stands { Stands self.now.diagrams.store self.now.quad }
        ensures shows { Shows self.now.diagrams.store self.now.quad (vector (standing_of self.now)) }
        ensures kept { self.now.quad.kept.0 ≡ 0 }
    {
        let _held = self.diagrams.cached();
        (&self.diagrams, &self.quad)
    }

    /// The order of variables in force, top first. It takes no memory.
    pub fn order(&self) -> Order
        ensures { result ≡ (standing_of self.now).order }
    {
        self.diagrams.store().order()
    }

    /// Applies a gate.
    fn proceed(&mut self, alloc: Global, gate: &Gate) -> Result<(), Stop>
        requires within { IsOn (length self.old.input) gate.now }
        requires few { length self.old.gates < 2000000 }
        ensures { Proceeds vector_chain FitsAfter (standing_of self.old) gate.now result (standing_of self.new) self.new.diagrams.store }
    {
        let accepted = self.accepted();
        self.gates.reserve(1)?;
        let s = step_of(gate, Side::State, self.input.len());
        accept(
            alloc,
            &mut self.diagrams,
            &mut self.quad,
            &self.rules,
            &s,
            accepted,
        )?;
        self.gates.push_reserved(gate.copied(alloc));
        Ok(())
    }
}

impl Amplitudes for SlicedState {
    ghost use Rattle.std.specs.Prelude.{◌≡◌, ◌<◌, true, false, IfErr, OnOk, OnErr, length};
    ghost use Rattle.gate_set.specs.Shape.{IsOn};
    ghost use Rattle.amp_dense.specs.Standing.{Standing, Accepts, Applies, MayStop, NamesOrder, Reorders, in_order};
    ghost use Rattle.node_reclaim.specs.Reclaims.{HoldsOnly};
    ghost use Rattle.slice_weights.specs.Paths.{IsWalk};
    ghost use Rattle.step_upkeep.specs.Chains.{InWork, MayLeave};
    ghost use Rattle.step_upkeep.specs.Due.{is_due};
    ghost use Rattle.state_update.specs.Kept.{standing_of, sliced_policy, vector_chain};

    const MOST: u8 = 64;

    ghost MOST = { 64 };

    type Walk = Walk;

    ghost standing = { λ s. standing_of s };

    ghost policy = { sliced_policy };

    ghost may_leave = { MayLeave };

    ghost walks = { λ s w. IsWalk s.diagrams.store s.quad.four w };

    ghost last = { λ w. w.last };

    fn start(alloc: Global, input: &Bits, rules: &Rules) -> Result<Self, Stop> {
        let _width = rules.width();
        let mut diagrams = Diagrams::new(alloc, input.len(), rules.nodes, rules.cache)?;
        let Ok(quad) = start(alloc, &mut diagrams, input) else {
            return Err(Stop::OutOfMemory);
        };
        Ok(SlicedState {
            input: *input,
            rules: *rules,
            gates: Vec::new(alloc),
            diagrams,
            quad,
        })
    }

    /// Where a sift is due, all variables are sifted first, for the functions that the vector is stored by. Where a reclaim is due, the nodes that the
    /// vector isn't stored by are freed first. Where the diagrams are full in the middle of the gate, they are freed too, and the gate is tried
    /// once more. `Nodes` comes only where the gate's work functions alone need as many nodes as the rules allow, in the order in force.
    fn apply(&mut self, alloc: Global, gate: &Gate) -> Result<(), Stop>
        requires within { IsOn (length (standing_of self.old).input) gate.now }
        requires few { length (standing_of self.old).gates < 2000000 }
        ensures accepts { OnOk result (Accepts sliced_policy (standing_of self.old) gate.now (standing_of self.new)) }
        ensures stops { IfErr result (MayStop (Applies sliced_policy (standing_of self.old) gate.now)) }
        ensures in_force { IfErr result (NamesOrder (standing_of self.new).order) }
        ensures refused { OnErr result (standing_of self.new ≡ in_order (standing_of self.old) (standing_of self.new).order) }
        ensures order { Reorders sliced_policy MayLeave (standing_of self.old) result (standing_of self.new).order }
        ensures after_reclaim { is_due (standing_of self.old).rules.reclaim (length (standing_of self.old).gates) ≡ true → is_due (standing_of self.old).rules.sift (length (standing_of self.old).gates) ≡ false → OnOk result (HoldsOnly self.new.diagrams.store (InWork vector_chain (standing_of self.old) gate.now)) }
    {
        self.proceed(alloc, gate)
    }

    fn entry(&self, x: &Bits) -> Quad {
        entry(&self.diagrams, &self.quad, x)
    }

    fn next_nonzero(
        &self,
        _alloc: Global,
        after: Option<&Bits>,
    ) -> Result<Option<Bits>, OutOfMemory> {
        next_nonzero(&self.diagrams, &self.quad, after)
    }

    fn walk(&self, alloc: Global) -> Result<Walk, OutOfMemory> {
        Walk::begin(alloc, &self.diagrams, &self.quad)
    }

    fn advance(&self, walk: &mut Walk) -> Result<Option<(Bits, Quad)>, OutOfMemory> {
        walk.advance(&self.diagrams, &self.quad)
    }

    fn last_nonzero(&self, alloc: Global) -> Result<Option<Bits>, OutOfMemory> {
        last_nonzero(alloc, &self.diagrams, &self.quad)
    }

    fn count_nonzero(&self, alloc: Global) -> Result<u128, OutOfMemory> {
        count_nonzero(alloc, &self.diagrams, &self.quad)
    }

    fn exponent(&self) -> u32 {
        exponent(&self.quad)
    }

    fn accepted(&self) -> u32 {
        self.gates.len() as u32
    }
}
