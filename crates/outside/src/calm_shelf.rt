//! A shelf in memory that never fails.
ghost use Rattle.std.specs.Prelude.{◌≡◌, ◌≤◌, [], None, false, length};
ghost use Rattle.outside.specs.Memory.{text_in};

use crate::named::{find, give, text_in};
use crate::{Failed, Named, Shelf};
use std::alloc::Global;
use std::marker::Model;

/// A shelf that tells its texts and never fails.
///
/// A name that isn't among its files has the empty text. Of two files with one name the first counts.
#[derive(Drop)]
pub struct CalmShelf {
    files: Vec<Named>,
    // The file of the last name, and how much of its text was taken.
    current: Option<usize>,
    at: usize,
    ready: bool,
    taken: u64,
    ended: bool,
}

impl Model for CalmShelf {
    ghost use Rattle.std.specs.Prelude.{◌≤◌, ◌<◌, drop, length, vec_len, IfSome};
    ghost use Rattle.outside.specs.Memory.{Calm, text_in};

    ghost Value = { Calm };

    ghost view = { λ s. record {
      files = s.files.items;
      current = s.current;
      ready = s.ready;
      left = drop s.at (text_in s.files.items s.current);
      taken = s.taken;
      ended = s.ended;
    } };

    ghost invariant = { λ s. IfSome s.current (λ place. place < vec_len s.files) × (s.at ≤ length (text_in s.files.items s.current)) };
}

impl CalmShelf {
    ghost use Rattle.outside.specs.Memory.{Calm};

    /// A shelf of these files. It takes no memory.
    pub fn new(_alloc: Global, files: Vec<Named>) -> CalmShelf
        ensures { result ≡ record {
          files = files.items;
          current = None;
          ready = false;
          left = [];
          taken = 0;
          ended = false;
        } }
    {
        CalmShelf {
            files,
            current: None,
            at: 0,
            ready: false,
            taken: 0,
            ended: false,
        }
    }
}

impl Shelf for CalmShelf {
    ghost use Rattle.std.specs.Prelude.{Some, ◌==◌};
    ghost use Rattle.std.specs.Option.{option_eq};
    ghost use Rattle.outside.specs.Memory.{place_of};

    ghost text = { λ s name. Some (text_in s.files (place_of name s.files)) };

    ghost is_begun = { λ s name. option_eq (λ i j. i == j) (place_of name s.files) s.current };

    ghost left = { λ s. Some s.left };

    ghost faults = { λ s name. 0 };

    ghost ready = { λ s. s.ready };

    ghost taken = { λ s. s.taken };

    ghost ended = { λ s. s.ended };

    fn begin(&mut self, name: &str) -> Result<(), Failed> {
        self.current = find(&self.files, name);
        self.at = 0;
        self.ready = true;
        self.taken = 0;
        self.ended = false;
        Ok(())
    }

    fn read(&mut self, buf: &mut [u8]) -> Result<usize, Failed> {
        let count = give(text_in(&self.files, self.current), self.at, usize::MAX, buf);
        self.at += count;
        self.taken = self.taken.saturating_add(count as u64);
        self.ended = self.ended || (count == 0 && !buf.is_empty());
        Ok(count)
    }
}
