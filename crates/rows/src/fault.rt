//! Why a table has no whole answer.

use bit_lists::OutOfMemory;
use outside::{Failed, Sink, write_all};
use std::alloc::Global;

/// Why a table has no whole answer. Lines are counted from 1.
#[derive(Clone, Copy)]
pub enum Fault {
    /// Standard input could not be read, is too long, or is no text.
    Unread,
    /// This line is none of a table's, or not one that may stand there.
    Line(u32),
    /// The table ends within a row.
    Open,
    /// Standard output could not be written.
    Unwritten,
    /// Memory was wanted and refused.
    OutOfMemory,
}

impl From<OutOfMemory> for Fault {
    fn from(_stop: OutOfMemory) -> Self {
        Fault::OutOfMemory
    }
}

impl From<Failed> for Fault {
    fn from(_failed: Failed) -> Self {
        Fault::Unwritten
    }
}

/// Tells a fault.
pub fn say<K: Sink>(alloc: Global, err: &mut K, fault: Fault) -> Result<(), Fault> {
    match fault {
        Fault::Unread => write_all(err, b"rows: standard input was not read\n")?,
        Fault::Line(number) => {
            let Ok(line) = format!(in alloc; "rows: bad line {number}\n") else {
                return Err(Fault::OutOfMemory);
            };
            write_all(err, line.as_bytes())?;
        }
        Fault::Open => write_all(err, b"rows: the last row has no run\n")?,
        Fault::Unwritten => write_all(err, b"rows: standard output was not written\n")?,
        Fault::OutOfMemory => write_all(err, b"rows: out of memory\n")?,
    }
    Ok(())
}
