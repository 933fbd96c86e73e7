//! The program: words, files and standard streams to the engine, and its status back.
#![tactic(auto)]

ghost use Rattle.std.specs.Prelude.{◌≡◌, map, string_bytes};
ghost use Rattle.std.specs.Process.{exit_status};
ghost use Rattle.causes.specs.declared.cause.Cause.{Cause};
ghost use Rattle.sliq_engine.specs.Comes.{Comes};
ghost use Rattle.sliq_engine.specs.Ending.{MayEnd};
ghost use Rattle.causes.specs.Status.{Tells, status_of, lines_of};

use outside::{FileShelf, Shelf, Sink, StreamSink};
use sliq_engine::{Cause, end, run};
use std::alloc::Global;
use std::process::ExitCode;
use std::{env, io};

fn main(rt: HostRuntime) -> ExitCode {
    let mut err = StreamSink::new(rt.stderr());
    let words = match env::args(&rt) {
        Ok(words) => words,
        Err(error) => {
            if error.kind() == io::ErrorKind::OutOfMemory {
                return out_of_memory();
            }
            return bad_words(&mut err);
        }
    };
    let Ok(words) = words.collect::<Vec<String>>(rt.alloc()) else {
        return out_of_memory();
    };
    let mut shelf = FileShelf::new(&rt);
    let mut out = StreamSink::new(rt.stdout());
    run_to_status(rt.alloc(), &words, &mut shelf, &mut out, &mut err)
}

// A run, and the status that the process ends with.
fn run_to_status<S: Shelf, K: Sink, E: Sink>(
    alloc: Global,
    words: &[String],
    shelf: &mut S,
    out: &mut K,
    err: &mut E,
) -> ExitCode
    ensures { (cause : Cause) × MayEnd (Comes (record { text = S.text; faults = S.faults; ready = S.ready; taken = S.taken; ended = S.ended }) (map string_bytes words.now) shelf.old shelf.new) cause (K.written out.old) (K.written out.new) × (exit_status result ≡ status_of cause)
        × Tells (lines_of cause) (E.written err.old) (E.written err.new) (E.faults err.old) (E.faults err.new) }
{
    let ended = run(alloc, words, shelf, out, err);
    ExitCode::from(ended.status)
}

// Words that are no texts ask for nothing.
fn bad_words<E: Sink>(err: &mut E) -> ExitCode
    ensures status { exit_status result ≡ status_of Cause.BadWords }
    ensures err { Tells (lines_of Cause.BadWords) (E.written err.old) (E.written err.new) (E.faults err.old) (E.faults err.new) }
{
    ExitCode::from(end(Cause::BadWords, err).status)
}

// Without memory for the words nothing is printed.
fn out_of_memory() -> ExitCode
    ensures { exit_status result ≡ status_of Cause.OutOfMemory }
{
    ExitCode::from(Cause::OutOfMemory.status())
}
