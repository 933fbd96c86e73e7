//! Output in large pieces.
ghost use Rattle.std.specs.Prelude.{◌≡◌, ◌≤◌, ◌+◌, ◌++◌, [], length, IfOk, OnOk, OnErr};
ghost use Rattle.outside.specs.Outside.{Rose};
ghost use Rattle.outside.specs.Bytes.{Added, AddedSome};
ghost use Rattle.outside.specs.Buffering.{Sent, SentSome};

use crate::{Failed, Sink, write_all};
use bit_lists::OutOfMemory;
use std::alloc::Global;
use std::marker::Model;

/// The most bytes that wait.
const ROOM: usize = 65_536;

/// Bytes that wait to be written, at most 65,536.
///
/// The memory is taken by `new`. What still waits when it is dropped is lost: end with `flush`.
#[derive(Drop)]
pub struct Buffered {
    bytes: Vec<u8>,
}

impl Model for Buffered {
    ghost use Rattle.std.specs.Prelude.{◌≤◌, ℕ, List, vec_capacity};

    ghost Value = { List ℕ };

    ghost view = { λ s. s.bytes.items };

    ghost invariant = { λ s. 65536 ≤ vec_capacity s.bytes };
}

impl Buffered {
    pub fn new(alloc: Global) -> Result<Buffered, OutOfMemory>
        ensures { IfOk result (λ s. s ≡ []) }
    {
        Ok(Buffered {
            bytes: Vec::with_capacity(alloc, ROOM)?,
        })
    }

    /// Sends a piece: it waits, or is written behind what waits.
    pub fn put<K: Sink>(&mut self, out: &mut K, piece: &[u8]) -> Result<(), Failed>
        ensures ok { OnOk result (Sent (K.written out.old) self.old (K.written out.new) self.new piece.now) }
        ensures err { OnErr result (SentSome (K.written out.old) self.old (K.written out.new) piece.now) }
        ensures fault { OnErr result (Rose (K.faults out.old) (K.faults out.new)) }
        ensures counts { K.faults out.old ≤ K.faults out.new }
    {
        if piece.len() <= ROOM && self.bytes.len() <= ROOM - piece.len() {
            self.hold(piece);
            return Ok(());
        }
        self.flush(out)?;
        if piece.len() > ROOM {
            return write_all(out, piece);
        }
        self.hold(piece);
        Ok(())
    }

    /// Writes what waits.
    pub fn flush<K: Sink>(&mut self, out: &mut K) -> Result<(), Failed>
        ensures ok { OnOk result (Added (K.written out.old) (K.written out.new) self.old) }
        ensures empty { OnOk result (self.new ≡ []) }
        ensures err { OnErr result (AddedSome (K.written out.old) (K.written out.new) self.old) }
        ensures fault { OnErr result (Rose (K.faults out.old) (K.faults out.new)) }
        ensures counts { K.faults out.old ≤ K.faults out.new }
    {
        write_all(out, &self.bytes)?;
        self.bytes.clear();
        Ok(())
    }

    fn hold(&mut self, piece: &[u8])
        requires { length self.old + length piece.now ≤ 65536 }
        ensures { self.new ≡ self.old ++ piece.now }
    {
        self.bytes.extend_from_slice(piece).unwrap();
    }
}
