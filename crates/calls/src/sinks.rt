//! Bytes that sinks take.
use crate::shelves::TEXT;
use bit_lists::OutOfMemory;
use call_rows::{Page, Row};
use outside::{Buffered, CalmSink, MemorySink, StreamSink, write_all};
use std::alloc::Global;

pub fn tell(row: &mut Row<'_>, page: &mut Page) {
    match row.name() {
        "line" => tell_line(row, page),
        "buffered" => tell_buffered(row.count(), page),
        "calm" => tell_calm(page),
        "stream" => tell_stream(page),
        "cut off" => tell_cut_off(page),
        _ => page.text("no such sink"),
    }
}

/// A sink that takes so many bytes at a time and so many in all, where this write fails, from 1 on; 0 is none.
pub fn sink_of(
    alloc: Global,
    most: usize,
    room: usize,
    write: u32,
) -> Result<MemorySink, OutOfMemory> {
    let writes = vec![in alloc; write]?;
    MemorySink::new(alloc, most.max(1), room, writes)
}

// By the most bytes of a write, the room and the write that fails, whether a line is taken whole, and what was taken.
fn tell_line(row: &mut Row<'_>, page: &mut Page) {
    match sink_of(
        page.alloc,
        row.count() as usize,
        row.count() as usize,
        row.count(),
    ) {
        Ok(mut sink) => {
            page.show(&write_all(&mut sink, b"qubits 2\n"));
            page.text(" ");
            page.put(sink.written());
        }
        Err(stop) => page.show(&stop),
    }
}

// By the write that fails, what is put and sent of many small pieces and one that is longer than the buffer.
fn tell_buffered(bad: u32, page: &mut Page) {
    match (
        sink_of(page.alloc, 1_048_576, 1_048_576, bad),
        Buffered::new(page.alloc),
    ) {
        (Ok(mut sink), Ok(mut buffer)) => tell_pieces(&mut buffer, &mut sink, page),
        _ => page.text("no memory"),
    }
}

// Whether small pieces are put, how many bytes are out then, whether the rest is put and sent, and how many bytes are out at the end.
fn tell_pieces(buffer: &mut Buffered, sink: &mut MemorySink, page: &mut Page) {
    let mut put = true;
    for _ in 0..1_000 {
        put = put && buffer.put(sink, b"line").is_ok();
    }
    page.show(&(put, sink.written().len()));
    match vec![in page.alloc; b'.'; 65_537] {
        Ok(long) => {
            let put = buffer.put(sink, &long).is_ok() && buffer.put(sink, b"\n\n").is_ok();
            page.show(&(put && buffer.flush(sink).is_ok()));
        }
        Err(_) => page.text("no memory"),
    }
    page.show(&sink.written().len());
}

// What a calm sink says of three bytes, and how many it has then.
fn tell_calm(page: &mut Page) {
    let mut sink = CalmSink::new();
    page.show(&(write_all(&mut sink, b"123"), sink.number()));
}

// What a stream says of a text, and what it has then.
fn tell_stream(page: &mut Page) {
    let mut bytes = Vec::new(page.alloc);
    let mut sink = StreamSink::new(&mut bytes);
    page.show(&write_all(&mut sink, TEXT.as_bytes()));
    page.text(" ");
    page.put(&bytes);
}

// The same of a stream that has room for four bytes, and takes no more.
fn tell_cut_off(page: &mut Page) {
    let mut room = [0u8; 4];
    let mut sink = StreamSink::new(&mut room[..]);
    page.show(&write_all(&mut sink, TEXT.as_bytes()));
    page.text(" ");
    page.put(&room);
}
