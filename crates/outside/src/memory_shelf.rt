//! A shelf in memory, which fails where it is told to.
ghost use Rattle.std.specs.Prelude.{◌≡◌, ◌↔◌, ◌⊎◌, ◌≤◌, ◌<◌, ◌-◌, ◌+◌, ◌++◌, [], None, Some, false, min, take, drop, length, replicate, is_some, is_err, IsTrue, IsOk, IfSome, IfOk, OnOk, OnErr};
ghost use Rattle.outside.specs.Memory.{is_next_bad};
ghost use Rattle.outside.specs.Outside.{raised, Rose, SameTexts, NoneFalls, BegunRose, SameBegun, Gives, GivesEnd};

use crate::bad_calls::is_next_bad;
use crate::named::{find, give};
use crate::{Failed, Named, Shelf};
use bit_lists::OutOfMemory;
use std::alloc::Global;
use std::marker::Model;

/// A shelf that tells its texts.
///
/// It keeps one count of faults for each file and one for all missing names. Of two files with one name the first
/// counts.
#[derive(Drop)]
pub struct MemoryShelf {
    files: Vec<Named>,
    most: usize,
    bad_begins: Vec<u32>,
    bad_reads: Vec<u32>,
    begins: u64,
    reads: u64,
    faults: Vec<u64>,
    missing: u64,
    // The file of the last name, whether its begin was Ok, and how much of its text was taken.
    current: Option<usize>,
    ready: bool,
    at: usize,
    taken: u64,
    ended: bool,
}

impl Model for MemoryShelf {
    ghost use Rattle.std.specs.Prelude.{◌≡◌, ◌≤◌, ◌<◌, drop, length, vec_len, IfSome, [], IsTrue, IsSome};
    ghost use Rattle.std.specs.Option.{option_map_or};
    ghost use Rattle.outside.specs.Memory.{Shelved, text_at};

    ghost Value = { Shelved };

    ghost view = { λ s. record {
      files = s.files.items;
      most = s.most;
      bad_begins = s.bad_begins.items;
      bad_reads = s.bad_reads.items;
      begins = s.begins;
      reads = s.reads;
      faults = s.faults.items;
      missing = s.missing;
      current = s.current;
      ready = s.ready;
      left = option_map_or (λ i. drop s.at (text_at s.files.items i)) s.current [];
      taken = s.taken;
      ended = s.ended;
    } };

    ghost invariant = { λ s. (1 ≤ s.most) × (vec_len s.faults ≡ vec_len s.files)
        × IfSome s.current (λ i. (i < vec_len s.files) × (s.at ≤ length (text_at s.files.items i))) × (IsTrue s.ready → IsSome s.current) };
}

impl MemoryShelf {
    ghost use Rattle.outside.specs.Memory.{Shelved};

    /// A shelf of these files that gives at most `most` bytes at a time, and whose begins and reads of these numbers
    /// fail. Both are counted from 1.
    pub fn new(
        alloc: Global,
        files: Vec<Named>,
        most: usize,
        bad_begins: Vec<u32>,
        bad_reads: Vec<u32>,
    ) -> Result<MemoryShelf, OutOfMemory>
        requires { 1 ≤ most }
        ensures { IfOk result (λ s. s ≡ record {
          files = files.items;
          most = most;
          bad_begins = bad_begins.items;
          bad_reads = bad_reads.items;
          begins = 0;
          reads = 0;
          faults = replicate (length files.items) 0;
          missing = 0;
          current = None;
          ready = false;
          left = [];
          taken = 0;
          ended = false;
        }) }
    {
        let faults = vec![in alloc; 0u64; files.len()]?;
        Ok(MemoryShelf {
            files,
            most,
            bad_begins,
            bad_reads,
            begins: 0,
            reads: 0,
            faults,
            missing: 0,
            current: None,
            ready: false,
            at: 0,
            taken: 0,
            ended: false,
        })
    }
}

impl Shelf for MemoryShelf {
    ghost use Rattle.std.specs.Prelude.{Some};
    ghost use Rattle.outside.specs.Memory.{text_of, is_begun_in, count_of, begin_fails, IsSameShelf, HasSameFaults};

    ghost text = { λ s name. text_of s name };

    ghost is_begun = { λ s name. is_begun_in s name };

    ghost left = { λ s. Some s.left };

    ghost faults = { λ s name. count_of s name };

    ghost ready = { λ s. s.ready };

    ghost taken = { λ s. s.taken };

    ghost ended = { λ s. s.ended };

    fn begin(&mut self, name: &str) -> Result<(), Failed>
        ensures begun { IsTrue (is_begun_in self.new name.now) }
        ensures ready { IsTrue self.new.ready ↔ IsOk result }
        ensures left { OnOk result (IfSome (text_of self.old name.now) (λ whole. self.new.left ≡ whole)) }
        ensures taken { OnOk result (self.new.taken ≡ 0) }
        ensures ended { OnOk result (self.new.ended ≡ false) }
        ensures cause { OnErr result (Rose (count_of self.old name.now) (count_of self.new name.now)) }
        ensures texts { SameTexts (text_of self.old) (text_of self.new) }
        ensures counts { NoneFalls (count_of self.old) (count_of self.new) }

        // Exactly these calls fail.
        ensures fails { is_err result ≡ begin_fails self.old name.now }
        ensures number { self.new.begins ≡ raised self.old.begins 1 }
        ensures reads { self.new.reads ≡ self.old.reads }
        ensures no_fault { OnOk result (HasSameFaults self.old self.new) }
        ensures same { IsSameShelf self.old self.new }
    {
        let bad = is_next_bad(self.begins, &self.bad_begins);
        self.begins = self.begins.saturating_add(1);
        self.current = find(&self.files, name);
        self.at = 0;
        let Some(i) = self.current else {
            self.missing = self.missing.saturating_add(1);
            self.ready = false;
            return Err(Failed);
        };
        if bad {
            self.faults[i] = self.faults[i].saturating_add(1);
            self.ready = false;
            return Err(Failed);
        }
        self.ready = true;
        self.taken = 0;
        self.ended = false;
        Ok(())
    }

    fn read(&mut self, buf: &mut [u8]) -> Result<usize, Failed>
        requires { IsTrue self.old.ready }
        ensures bound { IfOk result (λ count. count ≤ length buf.new) }
        ensures bytes { IfOk result (λ count. Gives (Some self.old.left) (Some self.new.left) (take count buf.new)) }
        ensures end { IfOk result (λ count. GivesEnd buf.new count → self.old.left ≡ []) }
        ensures taken { IfOk result (λ count. self.new.taken ≡ raised self.old.taken count) }
        ensures ended { IfOk result (λ count. IsTrue self.new.ended ↔ (IsTrue self.old.ended ⊎ GivesEnd buf.new count)) }
        ensures cause { OnErr result (BegunRose (is_begun_in self.old) (count_of self.old) (count_of self.new)) }
        ensures taken_err { OnErr result (self.new.taken ≡ self.old.taken) }
        ensures ended_err { OnErr result (self.new.ended ≡ self.old.ended) }
        ensures told { is_some (Some self.new.left) ≡ is_some (Some self.old.left) }
        ensures begun { SameBegun (is_begun_in self.old) (is_begun_in self.new) }
        ensures ready { self.new.ready ≡ self.old.ready }
        ensures texts { SameTexts (text_of self.old) (text_of self.new) }
        ensures counts { NoneFalls (count_of self.old) (count_of self.new) }

        // Exactly these calls fail, and the others give as much as they may.
        ensures fails { is_err result ≡ is_next_bad self.old.reads self.old.bad_reads }
        ensures gives { IfOk result (λ count. count ≡ min (min (length buf.new) self.old.most) (length self.old.left)) }
        ensures number { self.new.reads ≡ raised self.old.reads 1 }
        ensures begins { self.new.begins ≡ self.old.begins }
        ensures no_fault { OnOk result (HasSameFaults self.old self.new) }
        ensures left_err { OnErr result (self.new.left ≡ self.old.left) }
        ensures same { IsSameShelf self.old self.new }
    {
        let bad = is_next_bad(self.reads, &self.bad_reads);
        self.reads = self.reads.saturating_add(1);
        let Some(i) = self.current else {
            unreachable!();
        };
        if bad {
            self.faults[i] = self.faults[i].saturating_add(1);
            return Err(Failed);
        }
        let count = give(&self.files[i].text, self.at, self.most, buf);
        self.at += count;
        self.taken = self.taken.saturating_add(count as u64);
        self.ended = self.ended || (count == 0 && !buf.is_empty());
        Ok(count)
    }
}
