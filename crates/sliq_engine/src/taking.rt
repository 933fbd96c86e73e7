//! The texts of a run's files, taken from the shelf.
ghost use Rattle.std.specs.Prelude.{◌≡◌, ◌≤◌, [], IfOk, IfErr, Ok, All, length, vec_len, map, string_bytes};
ghost use Rattle.outside.specs.Outside.{SameTexts, NoneFalls};
ghost use Rattle.sliq_engine.specs.Taking.{TakesFile, Takes};
ghost use Rattle.sliq_engine.specs.Ending.{MayStopBy};
ghost use Rattle.sliq_engine.specs.Private.{bytes_of};

use causes::Cause;
use outside::{Shelf, TakeStop, read_all};
use std::alloc::Global;

/// The texts of these files, in their order.
pub fn take_all<S: Shelf>(
    alloc: Global,
    shelf: &mut S,
    files: &[String],
) -> Result<Vec<Vec<u8>>, Cause>
    requires { length files.now ≤ 2 }
    ensures takes { IfOk result (λ texts. Takes (record { text = S.text; faults = S.faults; ready = S.ready; taken = S.taken; ended = S.ended }) 1 (map string_bytes files.now) shelf.old shelf.new (Ok (bytes_of texts.items))) }
    ensures stop { IfErr result (MayStopBy (Takes (record { text = S.text; faults = S.faults; ready = S.ready; taken = S.taken; ended = S.ended }) 1 (map string_bytes files.now) shelf.old shelf.new)) }
    ensures count { IfOk result (λ texts. vec_len texts ≡ length files.now) }
    ensures short { IfOk result (λ texts. All (λ text. length text ≤ 16777216) (bytes_of texts.items)) }
    ensures untouched { files.now ≡ [] → shelf.new ≡ shelf.old }
    ensures texts { SameTexts (S.text shelf.old) (S.text shelf.new) }
    ensures counts { NoneFalls (S.faults shelf.old) (S.faults shelf.new) }
{
    let mut texts = Vec::new(alloc);
    let mut file = 1;
    'files: for name in files {
        let text = take(alloc, shelf, file, name)?;
        if texts.push(text).is_err() {
            return Err(Cause::OutOfMemory);
        }
        file += 1;
    }
    Ok(texts)
}

// The text of the file of this number.
fn take<S: Shelf>(alloc: Global, shelf: &mut S, file: u8, name: &str) -> Result<Vec<u8>, Cause>
    ensures takes { IfOk result (λ text. TakesFile (record { text = S.text; faults = S.faults; ready = S.ready; taken = S.taken; ended = S.ended }) file name.now shelf.old shelf.new (Ok text.items)) }
    ensures stop { IfErr result (MayStopBy (TakesFile (record { text = S.text; faults = S.faults; ready = S.ready; taken = S.taken; ended = S.ended }) file name.now shelf.old shelf.new)) }
    ensures texts { SameTexts (S.text shelf.old) (S.text shelf.new) }
    ensures counts { NoneFalls (S.faults shelf.old) (S.faults shelf.new) }
{
    match read_all(alloc, shelf, name) {
        Ok(text) => Ok(text),
        Err(TakeStop::Fault) => Err(Cause::ReadFault),
        Err(TakeStop::TooLong) => Err(Cause::TooLong { file }),
        Err(TakeStop::OutOfMemory) => Err(Cause::OutOfMemory),
    }
}
