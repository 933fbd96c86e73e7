//! A sink of bytes.
ghost use Rattle.std.specs.Prelude.{◌≡◌, ◌≤◌, ◌<◌, ℕ, List, length, take, Option, IfOk, OnErr};
ghost use Rattle.outside.specs.Outside.{Rose};
ghost use Rattle.outside.specs.Bytes.{Added};

use crate::Failed;

/// Takes bytes, some of a piece at a time.
pub trait Sink {
    /// The bytes written, where they are told.
    ghost written: { Self → Option (List ℕ) };

    /// A count of faults, which never falls.
    ghost faults: { Self → ℕ };

    /// Writes a front of a piece and answers its length. After `Failed` nothing of it was written.
    fn write(&mut self, piece: &[u8]) -> Result<usize, Failed>
        requires { 0 < length piece.now }
        ensures some { IfOk result (λ count. 0 < count) }
        ensures bound { IfOk result (λ count. count ≤ length piece.now) }
        ensures bytes { IfOk result (λ count. Added (written self.old) (written self.new) (take count piece.now)) }
        ensures nothing { OnErr result (written self.new ≡ written self.old) }
        ensures cause { OnErr result (Rose (faults self.old) (faults self.new)) }
        ensures counts { faults self.old ≤ faults self.new };
}
