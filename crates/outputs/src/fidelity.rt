//! The fidelity of two circuits, sent.
ghost use Rattle.std.specs.Prelude.{OnOk, OnErr, ◌≤◌};
ghost use Rattle.outside.specs.Outside.{Rose};
ghost use Rattle.outside.specs.Bytes.{Added, AddedSome};
ghost use Rattle.amp_printer.specs.Texts.{fidelity_text};

use crate::output::SendStop;
use amp_printer::fidelity_line;
use outside::{Sink, write_all};
use ring_omega::Weight;

/// Writes the line of a fidelity, which stands over the power `k` of 2.
pub fn send_fidelity<K: Sink>(out: &mut K, w: Weight, k: u32) -> Result<(), SendStop>
    ensures ok { OnOk result (Added (K.written out.old) (K.written out.new) (fidelity_text w k)) }
    ensures err { OnErr result (AddedSome (K.written out.old) (K.written out.new) (fidelity_text w k)) }
    ensures fault { OnErr result (Rose (K.faults out.old) (K.faults out.new)) }
    ensures counts { K.faults out.old ≤ K.faults out.new }
{
    let line = fidelity_line(w, k);
    write_all(out, line.as_bytes())?;
    Ok(())
}
