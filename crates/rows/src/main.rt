//! Runs that are data: standard input is a table of runs, and standard output tells what each of them wrote and how it ended.
//!
//! The table's head says how it is written. A table that is not, and a fault of a stream, are told on standard error, with status 1.
#![tactic(auto)]

mod counted;
mod devices;
mod directive;
mod fault;
mod page;
mod row;
mod running;
mod stream;
mod sweep;
mod table;

use fault::{Fault, say};
use outside::{FileShelf, Shelf, Sink, StreamSink, read_all};
use std::alloc::Global;
use std::process::ExitCode;
use std::str;
use table::tell_table;

fn main(rt: HostRuntime) -> ExitCode {
    let mut shelf = FileShelf::new(&rt);
    let mut out = StreamSink::new(rt.stdout());
    match answer(rt.alloc(), &mut shelf, &mut out) {
        Ok(()) => ExitCode::SUCCESS,
        Err(fault) => {
            let mut err = StreamSink::new(rt.stderr());
            let _ = say(rt.alloc(), &mut err, fault);
            ExitCode::FAILURE
        }
    }
}

// Reads the table, and writes its answer.
fn answer<S: Shelf, K: Sink>(alloc: Global, shelf: &mut S, out: &mut K) -> Result<(), Fault> {
    let Ok(table) = read_all(alloc, shelf, "-") else {
        return Err(Fault::Unread);
    };
    let Ok(text) = str::from_utf8(&table) else {
        return Err(Fault::Unread);
    };
    tell_table(alloc, text, out)
}
