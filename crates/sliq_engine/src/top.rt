//! The top call.
ghost use Rattle.std.specs.Prelude.{◌≡◌, ◌≤◌, [], map, string_bytes, None};
ghost use Rattle.outside.specs.Outside.{Rose, SameTexts, NoneFalls};
ghost use Rattle.sliq_words.specs.Asked.{asked_of, command_in, files_of};
ghost use Rattle.sliq_engine.specs.Comes.{Comes};
ghost use Rattle.sliq_engine.specs.Ending.{MayEnd};
ghost use Rattle.causes.specs.Status.{Tells, status_of, lines_of};

use crate::perform::perform;
use crate::taking::take_all;
use causes::{Cause, Ended, end};
use outside::{Shelf, Sink};
use sliq_words::{AskStop, ask};
use std::alloc::Global;

/// Carries out the command of the words: takes its files from the shelf, writes its output on `out`, and says on `err` why it
/// stopped.
///
/// Where there are fewer than two words or the second names no command it takes no memory, which no clause says.
pub fn run<S: Shelf, K: Sink, E: Sink>(
    alloc: Global,
    words: &[String],
    shelf: &mut S,
    out: &mut K,
    err: &mut E,
) -> Ended
    ensures runs { MayEnd (Comes (record { text = S.text; faults = S.faults; ready = S.ready; taken = S.taken; ended = S.ended }) (map string_bytes words.now) shelf.old shelf.new) result.cause (K.written out.old) (K.written out.new) }
    ensures status { result.status ≡ status_of result.cause }
    ensures err { Tells (lines_of result.cause) (E.written err.old) (E.written err.new) (E.faults err.old) (E.faults err.new) }
    ensures no_words { command_in (map string_bytes words.now) ≡ None → result.cause ≡ Cause.BadWords }
    ensures write_fault { result.cause ≡ Cause.WriteFault → Rose (K.faults out.old) (K.faults out.new) }

    // What stays. Words without files, as those of `demo`, and words that ask for nothing leave the shelf untouched.
    ensures untouched { files_of (asked_of (map string_bytes words.now)) ≡ [] → shelf.new ≡ shelf.old }
    ensures texts { SameTexts (S.text shelf.old) (S.text shelf.new) }
    ensures counts { NoneFalls (S.faults shelf.old) (S.faults shelf.new) }
    ensures out_counts { K.faults out.old ≤ K.faults out.new }
    ensures err_counts { E.faults err.old ≤ E.faults err.new }
{
    let cause = carry_out(alloc, words, shelf, out);
    end(cause, err)
}

// The same but for err.
fn carry_out<S: Shelf, K: Sink>(
    alloc: Global,
    words: &[String],
    shelf: &mut S,
    out: &mut K,
) -> Cause
    ensures runs { MayEnd (Comes (record { text = S.text; faults = S.faults; ready = S.ready; taken = S.taken; ended = S.ended }) (map string_bytes words.now) shelf.old shelf.new) result (K.written out.old) (K.written out.new) }
    ensures no_words { command_in (map string_bytes words.now) ≡ None → result ≡ Cause.BadWords }
    ensures write_fault { result ≡ Cause.WriteFault → Rose (K.faults out.old) (K.faults out.new) }
    ensures untouched { files_of (asked_of (map string_bytes words.now)) ≡ [] → shelf.new ≡ shelf.old }
    ensures texts { SameTexts (S.text shelf.old) (S.text shelf.new) }
    ensures counts { NoneFalls (S.faults shelf.old) (S.faults shelf.new) }
    ensures out_counts { K.faults out.old ≤ K.faults out.new }
{
    let asked = match ask(alloc, words) {
        Ok(asked) => asked,
        Err(AskStop::Bad) => return Cause::BadWords,
        Err(AskStop::OutOfMemory) => return Cause::OutOfMemory,
    };
    let texts = match take_all(alloc, shelf, asked.files.as_slice()) {
        Ok(texts) => texts,
        Err(cause) => return cause,
    };
    match perform(alloc, out, asked.task, &asked.rules, texts.as_slice()) {
        Ok(()) => Cause::Done,
        Err(cause) => cause,
    }
}
