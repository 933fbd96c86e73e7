//! Weights of a working vector over decision diagrams, and its outcomes.
use crate::sliced::SlicedState;
use bit_lists::{Bits, OutOfMemory, Partial};
use probabilities::{Weigh, WeighStop};
use ring_omega::Weight;
use slice_weights::{OutcomeWalk, next_outcome, weigh};
use std::alloc::Global;

impl Weigh for SlicedState {
    ghost use Rattle.slice_weights.specs.OnTop.{IsOutcomeWalk};

    type Outcomes = OutcomeWalk;

    ghost weighs = { λ s measured w. IsOutcomeWalk s.diagrams.store s.quad.four measured w };

    ghost last_outcome = { λ w. w.last };

    fn weigh(&self, alloc: Global, p: &Partial) -> Result<Weight, WeighStop> {
        let (d, q) = self.parts();
        weigh(alloc, d, q, p)
    }

    fn next_outcome(
        &self,
        alloc: Global,
        measured: &Bits,
        after: Option<&Bits>,
    ) -> Result<Option<Bits>, OutOfMemory> {
        let (d, q) = self.parts();
        next_outcome(alloc, d, q, measured, after)
    }

    fn outcomes(&self, alloc: Global, measured: &Bits) -> Result<OutcomeWalk, OutOfMemory> {
        let (d, q) = self.parts();
        OutcomeWalk::begin(alloc, d, q, measured)
    }

    fn next_weighed(
        &self,
        alloc: Global,
        measured: &Bits,
        outcomes: &mut OutcomeWalk,
    ) -> Result<Option<(Bits, Weight)>, WeighStop> {
        let (d, q) = self.parts();
        outcomes.next(alloc, d, q, measured)
    }
}
