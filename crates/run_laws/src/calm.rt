//! Runs over devices that never fail.
ghost use Rattle.std.specs.Prelude.{◌≢◌};
ghost use Rattle.causes.specs.declared.cause.Cause.TheVariants.{ReadFault, WriteFault};

use outside::{CalmShelf, CalmSink};
use sliq_engine::{Ended, run};
use std::alloc::Global;

/// A run over devices that never fail. It is `run` there: no cause is a fault of a device.
pub fn calm_run(
    alloc: Global,
    words: &[String],
    shelf: &mut CalmShelf,
    out: &mut CalmSink,
    err: &mut CalmSink,
) -> Ended
    ensures reads { result.cause ≢ ReadFault }
    ensures writes { result.cause ≢ WriteFault }
{
    run(alloc, words, shelf, out, err)
}
