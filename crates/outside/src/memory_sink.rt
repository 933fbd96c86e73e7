//! A sink in memory, which fails where it is told to.
ghost use Rattle.std.specs.Prelude.{◌≡◌, ◌≤◌, ◌<◌, ◌+◌, ◌-◌, ◌++◌, [], min, take, length, vec_len, vec_capacity, is_err, IfOk, OnOk, OnErr};
ghost use Rattle.outside.specs.Memory.{is_next_bad};
ghost use Rattle.outside.specs.Outside.{raised, Rose};
ghost use Rattle.outside.specs.Bytes.{Added};

use crate::bad_calls::is_next_bad;
use crate::{Failed, Sink};
use bit_lists::OutOfMemory;
use std::alloc::Global;
use std::marker::Model;

/// A sink that keeps its bytes and tells them.
#[derive(Drop)]
pub struct MemorySink {
    bytes: Vec<u8>,
    most: usize,
    room: usize,
    bad_writes: Vec<u32>,
    writes: u64,
    faults: u64,
}

impl Model for MemorySink {
    ghost use Rattle.std.specs.Prelude.{◌≤◌, vec_len, vec_capacity};
    ghost use Rattle.outside.specs.Memory.{Sunk};

    ghost Value = { Sunk };

    ghost view = { λ s. record {
      bytes = s.bytes.items;
      most = s.most;
      room = s.room;
      bad_writes = s.bad_writes.items;
      writes = s.writes;
      faults = s.faults;
    } };

    ghost invariant = { λ s. (1 ≤ s.most) × (s.room ≤ vec_capacity s.bytes) × (vec_len s.bytes ≤ s.room) };
}

impl MemorySink {
    ghost use Rattle.outside.specs.Memory.{Sunk};

    /// A sink that takes `room` bytes in all and `most` at a time, and whose writes of these numbers fail.
    ///
    /// Writes are counted from 1. The memory for `room` bytes is taken here, and no write takes any.
    pub fn new(
        alloc: Global,
        most: usize,
        room: usize,
        bad_writes: Vec<u32>,
    ) -> Result<MemorySink, OutOfMemory>
        requires { 1 ≤ most }
        ensures { IfOk result (λ s. s ≡ record { bytes = []; most = most; room = room; bad_writes = bad_writes.items; writes = 0; faults = 0 }) }
    {
        Ok(MemorySink {
            bytes: Vec::with_capacity(alloc, room)?,
            most,
            room,
            bad_writes,
            writes: 0,
            faults: 0,
        })
    }

    /// The bytes written.
    pub fn written(&self) -> &[u8]
        ensures { result.now ≡ self.now.bytes }
    {
        &self.bytes
    }
}

impl Sink for MemorySink {
    ghost use Rattle.std.specs.Prelude.{Some};
    ghost use Rattle.outside.specs.Memory.{write_fails, IsSameSink};

    ghost written = { λ s. Some s.bytes };

    ghost faults = { λ s. s.faults };

    fn write(&mut self, piece: &[u8]) -> Result<usize, Failed>
        requires { 0 < length piece.now }
        ensures some { IfOk result (λ count. 0 < count) }
        ensures bound { IfOk result (λ count. count ≤ length piece.now) }
        ensures bytes { IfOk result (λ count. Added (Some self.old.bytes) (Some self.new.bytes) (take count piece.now)) }
        ensures nothing { OnErr result (Some self.new.bytes ≡ Some self.old.bytes) }
        ensures cause { OnErr result (Rose self.old.faults self.new.faults) }
        ensures counts { self.old.faults ≤ self.new.faults }

        // Exactly these writes fail, and the others take as much as they may.
        ensures fails { is_err result ≡ write_fails self.old }
        ensures takes { IfOk result (λ count. count ≡ min (min (length piece.now) self.old.most) (self.old.room - length self.old.bytes)) }
        ensures number { self.new.writes ≡ raised self.old.writes 1 }
        ensures no_fault { OnOk result (self.new.faults ≡ self.old.faults) }
        ensures same { IsSameSink self.old self.new }
    {
        let bad = is_next_bad(self.writes, &self.bad_writes);
        self.writes = self.writes.saturating_add(1);
        if bad || self.room <= self.bytes.len() {
            self.faults = self.faults.saturating_add(1);
            return Err(Failed);
        }
        let count = piece.len().min(self.most).min(self.room - self.bytes.len());
        append(&mut self.bytes, &piece[..count]);
        Ok(count)
    }
}

// The room was taken before, so no memory is.
fn append(bytes: &mut Vec<u8>, piece: &[u8])
    requires { vec_len bytes.old + length piece.now ≤ vec_capacity bytes.old }
    ensures items { bytes.new.items ≡ bytes.old.items ++ piece.now }
    ensures capacity { vec_capacity bytes.old ≤ vec_capacity bytes.new }
{
    bytes.extend_from_slice(piece).unwrap();
}
