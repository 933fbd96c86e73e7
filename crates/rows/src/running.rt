//! Runs on devices in memory.
ghost use Rattle.std.specs.Prelude.{◌≤◌};

use crate::counted::Counted;
use crate::devices::Devices;
use crate::row::Row;
use crate::stream::Stream;
use bit_lists::OutOfMemory;
use outside::{MemoryShelf, MemorySink, Named, Shelf};
use sliq_engine::run;
use std::alloc::Global;

/// The most bytes that a run may write.
const ROOM: usize = 1_048_576;

/// How a run ended, what it wrote, and how often it began and read a text.
#[derive(Drop)]
pub struct Ran {
    pub status: u8,
    pub out: MemorySink,
    pub err: MemorySink,
    pub begins: u64,
    pub reads: u64,
}

/// The run of a row on these devices, with this front of its file a.
pub fn run_row(
    alloc: Global,
    row: &Row,
    devices: Devices,
    front: usize,
) -> Result<Ran, OutOfMemory> {
    if row.stream {
        let text = front_of(alloc, row.files.first(), front)?;
        return run_on(alloc, row, devices, Stream::new(text));
    }
    let shelf = MemoryShelf::new(
        alloc,
        named(alloc, &row.files, front)?,
        devices.read_most.max(1) as usize,
        vec![in alloc; devices.bad_begin]?,
        vec![in alloc; devices.bad_read]?,
    )?;
    run_on(alloc, row, devices, shelf)
}

// A front of a text.
fn front_of(alloc: Global, text: Option<&Vec<u8>>, front: usize) -> Result<Vec<u8>, OutOfMemory> {
    let Some(text) = text else {
        return Ok(Vec::new(alloc));
    };
    let length = text.len().min(front);
    let part = Vec::from_slice(alloc, &text[..length])?;
    Ok(part)
}

// The files a and b.
fn named(alloc: Global, texts: &[Vec<u8>], front: usize) -> Result<Vec<Named>, OutOfMemory> {
    let mut files = Vec::new(alloc);
    for (i, name) in ["a", "b"].iter().enumerate() {
        if i < texts.len() {
            let most = if i == 0 { front } else { usize::MAX };
            files.push(Named {
                name: String::from_str(alloc, name)?,
                text: front_of(alloc, texts.get(i), most)?,
            })?;
        }
    }
    Ok(files)
}

// A run on this shelf.
fn run_on<S: Shelf + Drop>(
    alloc: Global,
    row: &Row,
    devices: Devices,
    shelf: S,
) -> Result<Ran, OutOfMemory> {
    let mut counted = Counted::new(shelf);
    let mut out = sink(alloc, devices.write_most, devices.bad_write)?;
    let mut err = sink(alloc, devices.write_most, devices.bad_err_write)?;
    let ended = run(alloc, &row.words, &mut counted, &mut out, &mut err);
    Ok(Ran {
        status: ended.status,
        out,
        err,
        begins: counted.begins,
        reads: counted.reads,
    })
}

fn sink(alloc: Global, most: u32, bad: u32) -> Result<MemorySink, OutOfMemory> {
    let bad_writes = vec![in alloc; bad]?;
    MemorySink::new(alloc, most.max(1) as usize, ROOM, bad_writes)
}
