//! A working vector whose states are weighed for draws.
use bit_lists::{OutOfMemory, Partial};
use probabilities::{Weigh, WeighStop};
use ring_omega::Weight;
use sampler::Weighs;
use std::alloc::Global;

/// A working vector from which outcomes are drawn.
#[derive(Drop)]
pub struct Weighed<'a, A> {
    pub state: &'a A,
}

impl<'a, A: Weigh> Weighs for Weighed<'a, A> {
    ghost use Rattle.std.specs.Prelude.{length};
    ghost use Rattle.amp_dense.specs.Standing.{vector};

    ghost qubits = { λ w. length (A.standing w.state.now).input };

    ghost entries = { λ w. (vector (A.standing w.state.now)).entries };

    // No part of the states weighs more than all of them.
    fn weigh(&self, alloc: Global, p: &Partial) -> Result<Weight, OutOfMemory> {
        match self.state.weigh(alloc, p) {
            Ok(w) => Ok(w),
            Err(WeighStop::TooWide) => unreachable!(),
            Err(WeighStop::OutOfMemory) => Err(OutOfMemory),
        }
    }
}
