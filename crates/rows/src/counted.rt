//! A shelf that counts its calls.
ghost use Rattle.std.specs.Prelude.{◌≡◌, ◌≤◌, ℕ, List};

use outside::{Failed, Shelf};

/// A shelf, and how often a text of it was begun and read.
#[derive(Drop)]
pub struct Counted<S: Shelf + Drop> {
    shelf: S,
    pub begins: u64,
    pub reads: u64,
}

impl<S: Shelf + Drop> Counted<S> {
    /// A shelf of which nothing was begun.
    pub fn new(shelf: S) -> Counted<S> {
        Counted {
            shelf,
            begins: 0,
            reads: 0,
        }
    }
}

impl<S: Shelf + Drop> Shelf for Counted<S> {
    ghost text = { λ s name. S.text s.shelf name };

    ghost is_begun = { λ s name. S.is_begun s.shelf name };

    ghost left = { λ s. S.left s.shelf };

    ghost faults = { λ s name. S.faults s.shelf name };

    ghost ready = { λ s. S.ready s.shelf };

    ghost taken = { λ s. S.taken s.shelf };

    ghost ended = { λ s. S.ended s.shelf };

    fn begin(&mut self, name: &str) -> Result<(), Failed> {
        self.begins = self.begins.saturating_add(1);
        self.shelf.begin(name)
    }

    fn read(&mut self, buf: &mut [u8]) -> Result<usize, Failed> {
        self.reads = self.reads.saturating_add(1);
        self.shelf.read(buf)
    }
}
