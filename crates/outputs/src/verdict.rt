//! The verdict of a comparison, sent.
ghost use Rattle.std.specs.Prelude.{OnOk, OnErr, ◌≤◌};
ghost use Rattle.outside.specs.Outside.{Rose};
ghost use Rattle.outside.specs.Bytes.{Added, AddedSome};
ghost use Rattle.amp_printer.specs.Verdicts.{IsShort, verdict_text};

use crate::output::SendStop;
use amp_printer::{Verdict, verdict_text};
use outside::{Sink, write_all};

/// Writes the lines of a verdict.
pub fn send_verdict<K: Sink>(out: &mut K, verdict: &Verdict) -> Result<(), SendStop>
    requires { IsShort verdict.now }
    ensures ok { OnOk result (Added (K.written out.old) (K.written out.new) (verdict_text verdict.now)) }
    ensures err { OnErr result (AddedSome (K.written out.old) (K.written out.new) (verdict_text verdict.now)) }
    ensures fault { OnErr result (Rose (K.faults out.old) (K.faults out.new)) }
    ensures counts { K.faults out.old ≤ K.faults out.new }
{
    let lines = verdict_text(verdict);
    write_all(out, lines.as_bytes())?;
    Ok(())
}
