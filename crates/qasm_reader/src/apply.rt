//! Gates of a call, place by place.
ghost use Rattle.std.specs.Prelude.{◌≡◌, ◌≤◌, ◌<◌, ◌++◌, ℕ, OnOk, All, length};
ghost use Rattle.qasm_lex.specs.Angles.{given_by};
ghost use Rattle.qasm_gates.specs.Private.Proper.{AreQubits, IsMeant, done_in};
ghost use Rattle.qasm_gates.specs.Private.Views.{IsGates, IsKnown, callee_gate};
ghost use Rattle.qasm_reader.specs.Acts.{qubits_at, place_count, product};
ghost use Rattle.qasm_reader.specs.Private.Seen.{seen_targets};

use crate::registers::Target;
use crate::targets::{places, qubit_at};
use arrayvec::ArrayVec;
use bit_lists::OutOfMemory;
use gate_set::Gate;
use qasm_gates::{Callee, Gates};
use qasm_lex::Bound;
use std::alloc::Global;

fn narrow(qubit: u64) -> u8
    requires { qubit < 64 }
    ensures { result ≡ qubit }
{
    qubit as u8
}

// The qubits of a gate at the place.
#[tactic(auto, using(crate::proofs::Applied::small_at))]
fn qubits_at(targets: &[Target], place: u32) -> ArrayVec<u8, 64>
    requires few { length targets.now ≤ 64 }
    requires small { All (λ q. q < 64) (qubits_at (seen_targets targets.now) place) }
    ensures { result.items ≡ qubits_at (seen_targets targets.now) place }
{
    let mut on = ArrayVec::new();
    for target in targets {
        on.push(narrow(qubit_at(*target, place)));
    }
    on
}

/// Adds the gates of a call whose angles have these values: those of each place of its arguments in turn.
pub fn apply(
    alloc: Global,
    known: &Gates<'_>,
    callee: Callee,
    bound: &[Bound],
    targets: &[Target],
    gates: &mut Vec<Gate>,
) -> Result<(), OutOfMemory>
    requires gates { IsGates known.now }
    requires callee { IsKnown known.now callee }
    requires counted { length bound.now ≡ (callee_gate known.now callee).angles }
    requires few { length targets.now ≤ 64 }
    requires placed { (place : ℕ) → place < place_count (seen_targets targets.now) → AreQubits (callee_gate known.now callee).arity (qubits_at (seen_targets targets.now) place) }
    requires meant { IsMeant ((callee_gate known.now callee).means (given_by bound.now)) }
    ensures { OnOk result (gates.new.items ≡ gates.old.items ++ product (done_in ((callee_gate known.now callee).means (given_by bound.now))) (seen_targets targets.now)) }
{
    for place in 0..places(targets) {
        let qubits = qubits_at(targets, place);
        known.expand(alloc, callee, bound, qubits.as_slice(), gates)?;
    }
    Ok(())
}
