//! A shelf over files. It tells no bytes.
ghost use Rattle.std.specs.Prelude.{◌≡◌, ◌≤◌, ℕ, List, false, IfSome, length};

use crate::{Failed, Shelf};
use std::fs::File;
use std::io::{ErrorKind, Input, Read};
use std::rt::Files;

/// What a begun text is read from.
#[derive(Drop)]
enum Source<F: Read + Drop, I: Read + Drop> {
    Named(F),
    Standard(I),
}

/// A shelf whose names are paths, and `-` standard input.
///
/// It keeps one count of faults, for every name.
#[derive(Drop)]
pub struct FileShelf<'a, R: Files + Input> {
    rt: &'a R,
    source: Option<Source<R::File, R::Reader>>,
    faults: u64,
    taken: u64,
    ended: bool,
}

impl<'a, R: Files + Input> FileShelf<'a, R> {
    pub fn new(rt: &'a R) -> FileShelf<'a, R>
        ensures faults { (name : List ℕ) → ⟦<FileShelf<'a, R> as Shelf>⟧.faults result name ≡ 0 }
        ensures ready { ⟦<FileShelf<'a, R> as Shelf>⟧.ready result ≡ false }
    {
        FileShelf {
            rt,
            source: None,
            faults: 0,
            taken: 0,
            ended: false,
        }
    }
}

impl<'a, R: Files + Input> Shelf for FileShelf<'a, R> {
    ghost use Rattle.std.specs.Prelude.{None, true, is_some};

    ghost text = { λ s name. None };

    ghost is_begun = { λ s name. true };

    ghost left = { λ s. None };

    ghost faults = { λ s name. s.faults };

    ghost ready = { λ s. is_some s.source };

    ghost taken = { λ s. s.taken };

    ghost ended = { λ s. s.ended };

    fn begin(&mut self, name: &str) -> Result<(), Failed> {
        self.source = None;
        self.taken = 0;
        self.ended = false;
        if name == "-" {
            self.source = Some(Source::Standard(self.rt.reader()));
            return Ok(());
        }
        let Ok(file) = File::open(self.rt, name) else {
            self.faults = self.faults.saturating_add(1);
            return Err(Failed);
        };
        self.source = Some(Source::Named(file));
        Ok(())
    }

    fn read(&mut self, buf: &mut [u8]) -> Result<usize, Failed> {
        let got = match &mut self.source {
            None => unreachable!(),
            Some(Source::Named(file)) => read_some(file, buf),
            Some(Source::Standard(input)) => read_some(input, buf),
        };
        let Some(count) = got else {
            self.faults = self.faults.saturating_add(1);
            return Err(Failed);
        };
        self.taken = self.taken.saturating_add(count as u64);
        self.ended = self.ended || (count == 0 && !buf.is_empty());
        Ok(count)
    }
}

// Reads once more where a signal came between.
fn read_some<R: Read>(source: &mut R, buf: &mut [u8]) -> Option<usize>
    ensures { IfSome result (λ count. count ≤ length buf.new) }
{
    for _ in 0..u64::MAX {
        match source.read(buf) {
            Ok(count) => return Some(count),
            Err(error) => {
                if error.kind() != ErrorKind::Interrupted {
                    return None;
                }
            }
        }
    }
    None
}
