//! `prob`: the exact probabilities of a circuit's outcomes.
ghost use Rattle.std.specs.Prelude.{◌≡◌, ◌≤◌, length, IfErr, OnOk, IsErrOf};
ghost use Rattle.outside.specs.Outside.{Rose};
ghost use Rattle.causes.specs.declared.cause.Cause.TheVariants.{WeightTooWide};
ghost use Rattle.phases.specs.Phases.{StopsWhere};
ghost use Rattle.amp_dense.specs.Standing.{vector};
ghost use Rattle.sliq_engine.specs.Prob.{IsHeavy, Weighs};
ghost use Rattle.sliq_engine.specs.Ending.{MayEnd, MayStopBy};

use crate::reading::read_circuit;
use crate::simulation::{simulated, zeros_of};
use amp_dense::Rules;
use bit_lists::Partial;
use causes::Cause;
use outputs::send_outcomes;
use outside::Sink;
use probabilities::{Weigh, counted};
use state_update::SlicedState;
use std::alloc::Global;

/// Carries out `prob` on the text of its file. Nothing is written before the last gate was applied and all states were weighed.
pub fn prob<K: Sink>(alloc: Global, out: &mut K, text: &[u8], rules: &Rules) -> Result<(), Cause>
    requires { length text.now ≤ 16777216 }
    ensures done { OnOk result (MayEnd (Weighs rules.now text.now) Cause.Done (K.written out.old) (K.written out.new)) }
    ensures stop { IfErr result (λ cause. MayEnd (Weighs rules.now text.now) cause (K.written out.old) (K.written out.new)) }
    ensures fault { IsErrOf result Cause.WriteFault → Rose (K.faults out.old) (K.faults out.new) }
    ensures counts { K.faults out.old ≤ K.faults out.new }
{
    let circuit = read_circuit(alloc, 1, text)?;
    let input = zeros_of(&circuit);
    let state = simulated::<SlicedState>(alloc, &input, &circuit, rules)?;
    check_weight(alloc, circuit.qubits(), &state)?;
    let measured = counted(circuit.measured());
    send_outcomes(alloc, out, &measured, &state)?;
    Ok(())
}

// Stops where all states together weigh 2^127 or more.
fn check_weight<A: Weigh>(alloc: Global, qubits: u8, state: &A) -> Result<(), Cause>
    requires few { qubits ≤ 64 }
    requires size { length (A.standing state.now).input ≡ qubits }
    ensures light { OnOk result (¬ IsHeavy qubits (vector (A.standing state.now)).entries) }
    ensures stop { IfErr result (MayStopBy (StopsWhere (IsHeavy qubits (vector (A.standing state.now)).entries) WeightTooWide)) }
{
    let all = Partial::free(qubits);
    state.weigh(alloc, &all)?;
    Ok(())
}
