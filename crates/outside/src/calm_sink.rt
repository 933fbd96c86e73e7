//! A sink that keeps nothing and never fails.
ghost use Rattle.std.specs.Prelude.{◌≡◌};

use crate::{Failed, Sink};
use std::marker::Model;

/// A sink that takes each piece whole, keeps no bytes and doesn't tell them.
#[derive(Drop)]
pub struct CalmSink {
    taken: u64,
}

impl Model for CalmSink {
    ghost use Rattle.std.specs.Prelude.{ℕ};

    ghost Value = { ℕ };

    ghost view = { λ s. s.taken };
}

impl CalmSink {
    /// A sink that has taken nothing.
    pub fn new() -> CalmSink
        ensures { result ≡ 0 }
    {
        CalmSink { taken: 0 }
    }

    /// How many bytes it took. The number stays at 2^64 - 1 once it is there.
    pub fn number(&self) -> u64
        ensures { result ≡ self.now }
    {
        self.taken
    }
}

impl Sink for CalmSink {
    ghost use Rattle.std.specs.Prelude.{◌≤◌, ◌<◌, length, take, Option, None, List, ℕ, IfOk, IsOk, OnErr};
    ghost use Rattle.outside.specs.Outside.{raised, Rose};
    ghost use Rattle.outside.specs.Bytes.{Added};

    ghost written = { λ s. None };

    ghost faults = { λ s. 0 };

    fn write(&mut self, piece: &[u8]) -> Result<usize, Failed>
        requires { 0 < length piece.now }
        ensures some { IfOk result (λ count. 0 < count) }
        ensures bound { IfOk result (λ count. count ≤ length piece.now) }
        ensures cause { OnErr result (Rose 0 0) }
        ensures whole { result ≡ Ok (length piece.now) }
        ensures number { self.new ≡ raised self.old (length piece.now) }
    {
        self.taken = self.taken.saturating_add(piece.len() as u64);
        Ok(piece.len())
    }
}
