//! Whole texts, over any shelf and any sink.
ghost use Rattle.std.specs.Prelude.{◌≡◌, ◌↔◌, ◌≤◌, ◌<◌, IsTrue, IfOk, OnOk, OnErr, IfSome, IsErrOf, length, vec_len};
ghost use Rattle.outside.specs.Outside.{Rose, SameTexts, NoneFalls};
ghost use Rattle.outside.specs.Bytes.{Added, AddedSome};

use crate::{Failed, Shelf, Sink};
use std::alloc::Global;
use thiserror::Error;

/// The longest text that is read.
const MOST_BYTES: usize = 16_777_216;

/// The most bytes that are asked for at a time.
const PIECE: usize = 65_536;

/// Why a text wasn't taken.
#[derive(Clone, Copy, Debug, PartialEq, Eq, Error)]
pub enum TakeStop {
    #[error("Fault")]
    Fault,
    #[error("TooLong")]
    TooLong,
    #[error("OutOfMemory")]
    OutOfMemory,
}

/// Takes the whole text of a name, up to 16,777,216 bytes.
///
/// It asks for 65,536 bytes at a time, and the memory is in proportion to the text.
pub fn read_all<S: Shelf>(alloc: Global, shelf: &mut S, name: &str) -> Result<Vec<u8>, TakeStop>
    ensures text { IfOk result (λ bytes. IfSome (S.text shelf.old name.now) (λ text. bytes.items ≡ text)) }
    ensures ended { OnOk result (IsTrue (S.ended shelf.new)) }
    ensures taken { IfOk result (λ bytes. S.taken shelf.new ≡ vec_len bytes) }
    ensures short { IfOk result (λ bytes. vec_len bytes ≤ 16777216) }
    ensures fault { IsErrOf result TakeStop.Fault → Rose (S.faults shelf.old name.now) (S.faults shelf.new name.now) }
    ensures too_long { IsErrOf result TakeStop.TooLong ↔ (IsTrue (S.ready shelf.new) × (S.taken shelf.new ≡ 16777217)) }
    ensures long { IsErrOf result TakeStop.TooLong → IfSome (S.text shelf.old name.now) (λ text. 16777216 < length text) }
    ensures texts { SameTexts (S.text shelf.old) (S.text shelf.new) }
    ensures counts { NoneFalls (S.faults shelf.old) (S.faults shelf.new) }
{
    if shelf.begin(name).is_err() {
        return Err(TakeStop::Fault);
    }
    let mut bytes = Vec::new(alloc);
    let mut piece = [0u8; PIECE];
    'pieces: loop {
        let most = PIECE.min(MOST_BYTES + 1 - bytes.len());
        let Ok(count) = shelf.read(&mut piece[..most]) else {
            return Err(TakeStop::Fault);
        };
        if count == 0 {
            return Ok(bytes);
        }
        if count > MOST_BYTES - bytes.len() {
            return Err(TakeStop::TooLong);
        }
        if bytes.extend_from_slice(&piece[..count]).is_err() {
            return Err(TakeStop::OutOfMemory);
        }
    }
}

/// Writes all the bytes, in order. It takes no memory.
pub fn write_all<K: Sink>(sink: &mut K, bytes: &[u8]) -> Result<(), Failed>
    ensures ok { OnOk result (Added (K.written sink.old) (K.written sink.new) bytes.now) }
    ensures err { OnErr result (AddedSome (K.written sink.old) (K.written sink.new) bytes.now) }
    ensures fault { OnErr result (Rose (K.faults sink.old) (K.faults sink.new)) }
    ensures counts { K.faults sink.old ≤ K.faults sink.new }
{
    let mut rest = bytes;
    'rest: while !rest.is_empty() {
        let count = sink.write(rest)?;
        rest = &rest[count..];
    }
    Ok(())
}
