//! Each command, on the texts of its files.
ghost use Rattle.std.specs.Prelude.{◌≡◌, ◌≤◌, length, IfErr, OnOk, IsErrOf, All};
ghost use Rattle.outside.specs.Outside.{Rose};
ghost use Rattle.sliq_words.specs.Asked.{file_count, InRange};
ghost use Rattle.sliq_engine.specs.Comes.{CarriesOut};
ghost use Rattle.sliq_engine.specs.Ending.{MayEnd};
ghost use Rattle.sliq_engine.specs.Private.{bytes_of};

use crate::demo::demo;
use crate::eq::eq;
use crate::overlaps::overlaps;
use crate::prob::prob;
use crate::sample::sample;
use crate::sim::sim;
use amp_dense::Rules;
use causes::Cause;
use outside::Sink;
use sliq_words::Task;
use std::alloc::Global;

/// Carries out a task on the texts of its files.
pub fn perform<K: Sink>(
    alloc: Global,
    out: &mut K,
    task: Task,
    rules: &Rules,
    texts: &[Vec<u8>],
) -> Result<(), Cause>
    requires files { length texts.now ≡ file_count task }
    requires values { InRange task }
    requires short { All (λ text. length text ≤ 16777216) (bytes_of texts.now) }
    ensures done { OnOk result (MayEnd (CarriesOut task rules.now (bytes_of texts.now)) Cause.Done (K.written out.old) (K.written out.new)) }
    ensures stop { IfErr result (λ cause. MayEnd (CarriesOut task rules.now (bytes_of texts.now)) cause (K.written out.old) (K.written out.new)) }
    ensures fault { IsErrOf result Cause.WriteFault → Rose (K.faults out.old) (K.faults out.new) }
    ensures counts { K.faults out.old ≤ K.faults out.new }
{
    match task {
        Task::Sim { input } => sim(alloc, out, &texts[0], input, rules),
        Task::Prob => prob(alloc, out, &texts[0], rules),
        Task::Eq => eq(alloc, out, &texts[0], &texts[1], rules),
        Task::Demo {
            qubits,
            gates,
            seed,
        } => demo(alloc, out, qubits, gates, seed, rules),
        Task::Sample { shots, seed } => sample(alloc, out, &texts[0], shots, seed, rules),
        Task::Fidelity => overlaps(alloc, out, &texts[0], &texts[1], rules),
    }
}
