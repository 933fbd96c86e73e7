//! A sink over a standard stream. It tells no bytes.
ghost use Rattle.std.specs.Prelude.{◌≡◌, ◌<◌, ◌≤◌, IfSome, length};

use crate::{Failed, Sink};
use std::io::{ErrorKind, Write};

/// A sink that writes to a writer of std.
#[derive(Drop)]
pub struct StreamSink<W: Write> {
    writer: W,
    faults: u64,
}

impl<W: Write> StreamSink<W> {
    pub fn new(writer: W) -> StreamSink<W>
        ensures { ⟦<StreamSink<W> as Sink>⟧.faults result ≡ 0 }
    {
        StreamSink { writer, faults: 0 }
    }
}

impl<W: Write> Sink for StreamSink<W> {
    ghost use Rattle.std.specs.Prelude.{None};

    ghost written = { λ s. None };

    ghost faults = { λ s. s.faults };

    fn write(&mut self, piece: &[u8]) -> Result<usize, Failed> {
        let Some(count) = write_some(&mut self.writer, piece) else {
            self.faults = self.faults.saturating_add(1);
            return Err(Failed);
        };
        Ok(count)
    }
}

// Writes once more where a signal came between. A writer that takes nothing of a piece takes no more.
fn write_some<W: Write>(writer: &mut W, piece: &[u8]) -> Option<usize>
    ensures some { IfSome result (λ count. 0 < count) }
    ensures bound { IfSome result (λ count. count ≤ length piece.now) }
{
    for _ in 0..u64::MAX {
        match writer.write(piece) {
            Ok(0) => return None,
            Ok(count) => return Some(count),
            Err(error) => {
                if error.kind() != ErrorKind::Interrupted {
                    return None;
                }
            }
        }
    }
    None
}
