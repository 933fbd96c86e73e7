//! Calls that are data: standard input is a table of calls with their arguments, and standard output tells what each of them answers.
//!
//! The table's head says how it is written. What isn't written so is told as no call.
#![tactic(auto)]

mod circuits;
mod ends;
mod gates;
mod laws;
mod lexemes;
mod lines;
mod lists;
mod matrices;
mod outcomes;
mod ring;
mod shelves;
mod sinks;
mod vectors;
mod words;

use call_rows::{Page, Row};
use outside::{FileShelf, Shelf, Sink, StreamSink, read_all, write_all};
use std::alloc::Global;
use std::process::ExitCode;
use std::str;

fn main(rt: HostRuntime) -> ExitCode {
    let mut files = FileShelf::new(&rt);
    let mut out = StreamSink::new(rt.stdout());
    if answer(rt.alloc(), &mut files, &mut out) {
        ExitCode::SUCCESS
    } else {
        ExitCode::FAILURE
    }
}

// Reads the table, and writes what its calls answer.
fn answer<S: Shelf, K: Sink>(alloc: Global, files: &mut S, out: &mut K) -> bool {
    let mut page = Page::new(alloc);
    match read_all(alloc, files, "-") {
        Ok(table) => tell_table(&table, files, &mut page),
        Err(stop) => page.show(&stop),
    }
    page.whole && write_all(out, &page.bytes).is_ok()
}

fn tell_table<S: Shelf>(table: &[u8], files: &mut S, page: &mut Page) {
    let text = str::from_utf8(table).unwrap_or("no text");
    for line in text.lines() {
        if !line.is_empty() && !line.starts_with('#') {
            tell_line(line, files, page);
        }
    }
}

// A line, and below it what its call answers.
fn tell_line<S: Shelf>(line: &str, files: &mut S, page: &mut Page) {
    page.text(line);
    page.text("\n");
    let mut words = Page::new(page.alloc);
    words.spell(line);
    tell_call(Row::new(&words.bytes), files, page);
    page.text("\n\n");
}

fn tell_call<S: Shelf>(mut row: Row<'_>, files: &mut S, page: &mut Page) {
    match row.name() {
        "file" => shelves::tell_file(files, &mut row, page),
        "laws" => laws::call_laws(page),
        "list" => lists::tell(&mut row, page),
        "number" => ring::tell(&mut row, page),
        "gates" => gates::tell(&mut row, page),
        "line" => lines::tell(&mut row, page),
        "vector" => vectors::tell(&mut row, page),
        "outcome" => outcomes::tell(&mut row, page),
        "matrix" => matrices::tell(&mut row, page),
        "tokens" => lexemes::tell_tokens(&mut row, page),
        "angle" => lexemes::tell_angle(&mut row, page),
        "circuit" => circuits::tell(&mut row, page),
        "ask" => words::tell(&mut row, page),
        "end" => ends::tell(&mut row, page),
        "shelf" => shelves::tell(&mut row, page),
        "sink" => sinks::tell(&mut row, page),
        _ => page.text("no such call"),
    }
}
