//! Calls over diagrams that are data: standard input is a table of calls with their arguments, and standard output tells what each of them
//! answers.
//!
//! The table's head says how it is written. What isn't written so is told as no call.
#![tactic(auto)]

mod asked;
mod integers;
mod moves;
mod small;
mod states;
mod walks;
mod weights;
mod wide;

use call_rows::{Page, Row};
use outside::{FileShelf, Shelf, Sink, StreamSink, read_all, write_all};
use std::alloc::Global;
use std::process::ExitCode;
use std::str;

fn main(rt: HostRuntime) -> ExitCode {
    let mut shelf = FileShelf::new(&rt);
    let mut out = StreamSink::new(rt.stdout());
    if answer(rt.alloc(), &mut shelf, &mut out) {
        ExitCode::SUCCESS
    } else {
        ExitCode::FAILURE
    }
}

// Reads the table, and writes what its calls answer.
fn answer<S: Shelf, K: Sink>(alloc: Global, shelf: &mut S, out: &mut K) -> bool {
    let mut page = Page::new(alloc);
    match read_all(alloc, shelf, "-") {
        Ok(table) => tell_table(&table, &mut page),
        Err(stop) => page.show(&stop),
    }
    page.whole && write_all(out, &page.bytes).is_ok()
}

fn tell_table(table: &[u8], page: &mut Page) {
    let text = str::from_utf8(table).unwrap_or("no text");
    for line in text.lines() {
        if !line.is_empty() && !line.starts_with('#') {
            page.text(line);
            page.text("\n");
            tell_call(&mut Row::new(line.as_bytes()), page);
            page.text("\n\n");
        }
    }
}

fn tell_call(row: &mut Row<'_>, page: &mut Page) {
    match row.name() {
        "vector" => states::tell(row, page),
        "identity" => small::tell_identity(row.count(), page),
        "turns" => small::tell_turns(page),
        "steps" => small::tell_steps(page),
        "due" => small::tell_due(row.count(), row.count(), page),
        "integers" => integers::tell(row, page),
        "wide" => wide::tell(row, page),
        _ => page.text("no such call"),
    }
}
