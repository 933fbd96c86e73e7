//! `eq`: whether two circuits are the same up to a scalar.
ghost use Rattle.std.specs.Prelude.{◌≡◌, ◌≤◌, length, IfErr, OnOk, IsErrOf};
ghost use Rattle.outside.specs.Outside.{Rose};
ghost use Rattle.sliq_engine.specs.Eq.{Compares, told_by};
ghost use Rattle.sliq_engine.specs.Ending.{MayEnd};

use crate::reading::read_circuit;
use crate::simulation::check_qubits;
use amp_dense::Rules;
use amp_printer::Verdict;
use causes::Cause;
use equivalence::compare;
use outputs::send_verdict;
use outside::Sink;
use std::alloc::Global;

/// Carries out `eq` on the texts of its files. Nothing is written before the last step. The answer is Ok for Done alone, so Differs is an
/// error here, though the whole output was written.
pub fn eq<K: Sink>(
    alloc: Global,
    out: &mut K,
    one: &[u8],
    two: &[u8],
    rules: &Rules,
) -> Result<(), Cause>
    requires first { length one.now ≤ 16777216 }
    requires second { length two.now ≤ 16777216 }
    ensures done { OnOk result (MayEnd (Compares rules.now one.now two.now) Cause.Done (K.written out.old) (K.written out.new)) }
    ensures stop { IfErr result (λ cause. MayEnd (Compares rules.now one.now two.now) cause (K.written out.old) (K.written out.new)) }
    ensures fault { IsErrOf result Cause.WriteFault → Rose (K.faults out.old) (K.faults out.new) }
    ensures counts { K.faults out.old ≤ K.faults out.new }
{
    let u = read_circuit(alloc, 1, one)?;
    let v = read_circuit(alloc, 2, two)?;
    check_qubits(u.qubits(), v.qubits())?;
    let verdict = compare(alloc, &u, &v, rules)?;
    send_verdict(out, &verdict)?;
    told(&verdict)?;
    Ok(())
}

// The cause of a run that has written this verdict, where it isn't Done.
fn told(verdict: &Verdict) -> Result<(), Cause>
    ensures done { OnOk result (told_by verdict.now ≡ Cause.Done) }
    ensures differs { IfErr result (λ cause. (cause ≡ told_by verdict.now) × (cause ≡ Cause.Differs)) }
{
    match verdict {
        Verdict::Scalar(..) => Ok(()),
        Verdict::Differs { .. } => Err(Cause::Differs),
    }
}
