//! The results of one call, by their three arguments.
ghost use Rattle.std.specs.Prelude.{◌≡◌, ◌≢◌, ◌⊎◌, ℕ, ◌+◌, ◌-◌, ◌<◌, ◌≤◌, ◌*◌, ◌/◌, ◌^◌, OnOk, OnErr, IfOk, IfSome, map, length, None, Some, [], IsOk, slice_set, nat_lt};
ghost use Rattle.memos.specs.Memo.{found};
ghost use Rattle.memos.specs.MemoPlaces.{home, slot_of, slots_of, Puts, SameFound};
ghost use Rattle.tables.specs.Probing.{IsAbsent, IsProbed, AreApart, holds, entries_of, at};
ghost use Rattle.tables.specs.Searching.{ProbeMeans, LocateMeans};

use bit_lists::OutOfMemory;
use std::alloc::{AllocError, Global};
use std::marker::Model;
use std::mem;
use tables::{Probe, places_for};

/// The most places of a short row: 80 KiB, which stay in a processor's second cache. A row doubles as
/// it grows, so it has exactly as many once it is wide.
const SHORT_ROW: usize = 4096;

/// A place, which counts only in the call of its stamp.
#[derive(Clone, Copy, Drop)]
pub struct Place {
    pub f: u32,
    pub g: u32,
    pub h: u32,
    pub node: u32,
    pub stamp: u32,
}

/// Odd factors whose products spread the bits of the arguments.
const F_FACTOR: u32 = 2654435769;

const G_FACTOR: u32 = 2246822519;

const H_FACTOR: u32 = 3266489917;

/// Where the search for these arguments begins among n places.
fn home_of(places: usize, f: u32, g: u32, h: u32) -> usize
    requires { places < 2 ^ 32 }
    ensures value { result ≡ home places (f, g, h) }
    ensures within { result ≤ places }
{
    let mix = f
        .wrapping_mul(F_FACTOR)
        .wrapping_add(g.wrapping_mul(G_FACTOR))
        .wrapping_add(h.wrapping_mul(H_FACTOR));
    ((mix as u64 * places as u64) >> 32) as usize
}

/// Searches a part of the places.
fn probe_part(places: &[Place], now: u32, f: u32, g: u32, h: u32) -> Probe
    ensures { ProbeMeans (slot_of now) places.now (f, g, h) result }
{
    for (index, place) in places.iter().enumerate() {
        if place.stamp != now {
            return Probe::Vacant { index };
        }
        if place.f == f && place.g == g && place.h == h {
            return Probe::Found {
                index,
                node: place.node,
            };
        }
    }
    Probe::Full
}

/// Searches all places from one on.
fn search_from(places: &[Place], start: usize, now: u32, f: u32, g: u32, h: u32) -> Probe
    requires { start ≤ length places.now }
    ensures { LocateMeans (slot_of now) places.now start (f, g, h) result }
{
    match probe_part(&places[start..], now, f, g, h) {
        Probe::Full => probe_part(&places[..start], now, f, g, h),
        Probe::Found { index, node } => Probe::Found {
            index: start + index,
            node,
        },
        Probe::Vacant { index } => Probe::Vacant {
            index: start + index,
        },
    }
}

/// Searches all places from the home of these arguments on.
fn locate(places: &[Place], now: u32, f: u32, g: u32, h: u32) -> Probe
    requires { length places.now < 2 ^ 32 }
    ensures { LocateMeans (slot_of now) places.now (home (length places.now) (f, g, h)) (f, g, h) result }
{
    search_from(places, home_of(places.len(), f, g, h), now, f, g, h)
}

/// The results of one call by open addressing: only the places with its stamp count.
#[derive(Drop)]
struct Places {
    alloc: Global,
    places: Vec<Place>,
    stamp: u32,
    room: usize,
}

impl Model for Places {
    ghost use Rattle.memos.specs.MemoPlaces.{MemoValue};

    ghost Value = { MemoValue };

    ghost use Rattle.memos.specs.Stored.{view_of, IsStored};

    ghost view = { view_of };

    ghost invariant = { IsStored };
}

impl Places {
    /// No place, and no memory.
    fn new(alloc: Global) -> Places
        ensures empty { result.entries ≡ [] }
    {
        Places {
            alloc,
            places: Vec::new(alloc),
            stamp: 1,
            room: 0,
        }
    }

    /// No result in so many places.
    fn sized(alloc: Global, places: usize) -> Result<Places, AllocError>
        requires { places < 2 ^ 32 }
        ensures empty { IfOk result (λ t. t.entries ≡ []) }
        ensures spare { IfOk result (λ t. t.spare + places / 4 ≡ places) }
    {
        let free = Place {
            f: 0,
            g: 0,
            h: 0,
            node: 0,
            stamp: 0,
        };
        let places_free = vec![in alloc; free; places]?;
        Ok(Places {
            alloc,
            places: places_free,
            stamp: 1,
            room: places - places / 4,
        })
    }

    /// Forgets all results, and keeps the memory.
    fn begin(&mut self)
        ensures empty { self.new.entries ≡ [] }
    {
        if self.stamp == u32::MAX {
            self.places.clear();
            self.stamp = 1;
            self.room = 0;
            return;
        }
        self.stamp += 1;
        self.room = self.places.len() - self.places.len() / 4;
    }

    fn find(&self, f: u32, g: u32, h: u32) -> Option<u32>
        ensures { result ≡ found self.now.entries f g h }
    {
        match locate(&self.places, self.stamp, f, g, h) {
            Probe::Found { node, .. } => Some(node),
            Probe::Vacant { .. } => None,
            Probe::Full => None,
        }
    }

    fn add(&mut self, f: u32, g: u32, h: u32, node: u32)
        requires room { 0 < self.old.spare }
        requires new { found self.old.entries f g h ≡ None }
        ensures puts { Puts self.old.entries self.new.entries f g h node }
        ensures spare { self.new.spare + 1 ≡ self.old.spare }
        ensures len { length self.new.entries ≡ length self.old.entries + 1 }
    {
        match locate(&self.places, self.stamp, f, g, h) {
            Probe::Vacant { index } => {
                let stamp = self.stamp;
                self.places[index] = Place {
                    f,
                    g,
                    h,
                    node,
                    stamp,
                };
                self.room -= 1;
            }
            Probe::Found { .. } => unreachable!(),
            Probe::Full => unreachable!(),
        }
    }

    /// Adds the results of another memo's places.
    fn refill(&mut self, from: &[Place], stamp: u32)
        requires empty { self.old.entries ≡ [] }
        requires room { length (entries_of (slots_of stamp from.now)) ≤ self.old.spare }
        requires apart { AreApart (slots_of stamp from.now) }
        ensures found { SameFound (entries_of (slots_of stamp from.now)) self.new.entries }
        ensures spare { self.new.spare + length (entries_of (slots_of stamp from.now)) ≡ self.old.spare }
        ensures len { length self.new.entries ≡ length (entries_of (slots_of stamp from.now)) }
    {
        for place in from {
            if place.stamp == stamp {
                self.add(place.f, place.g, place.h, place.node);
            }
        }
    }

    /// Makes room for one more result.
    fn grow(&mut self) -> Result<(), AllocError>
        ensures room { OnOk result (0 < self.new.spare) }
        ensures found { SameFound self.old.entries self.new.entries }
        ensures len { length self.new.entries ≡ length self.old.entries }
        ensures err { OnErr result (self.new ≡ self.old) }
    {
        let room = self.places.len() - self.places.len() / 4;
        let places = places_for(room + 1)?;
        let mut larger = Places::sized(self.alloc, places)?;
        larger.refill(&self.places, self.stamp);
        *self = larger;
        Ok(())
    }

    fn has_room(&self) -> bool
        ensures { result ≡ nat_lt 0 self.now.spare }
    {
        0 < self.room
    }

    /// Whether these are as many places as a short row has at most.
    fn is_wide(&self) -> bool {
        self.places.len() >= SHORT_ROW
    }

    /// Whether the results are few enough for a short row.
    fn fits_short_row(&self) -> bool {
        let room = self.places.len() - self.places.len() / 4;
        room - self.room <= SHORT_ROW - SHORT_ROW / 4
    }

    /// Forgets all results, and makes room for so many.
    fn empty_for(&mut self, results: usize) -> Result<(), AllocError>
        ensures empty { OnOk result (self.new.entries ≡ []) }
        ensures room { OnOk result (results ≤ self.new.spare) }
    {
        self.begin();
        if self.room < results {
            let places = places_for(results)?;
            *self = Places::sized(self.alloc, places)?;
        }
        Ok(())
    }

    /// Becomes a copy of another memo's results, with room for one more.
    fn take_from(&mut self, other: &Places) -> Result<(), AllocError>
        ensures room { OnOk result (0 < self.new.spare) }
        ensures found { OnOk result (SameFound other.now.entries self.new.entries) }
        ensures len { OnOk result (length self.new.entries ≡ length other.now.entries) }
    {
        let room = other.places.len() - other.places.len() / 4;
        self.empty_for(room + 1)?;
        self.refill(&other.places, other.stamp);
        Ok(())
    }
}

/// A short row of places for small calls, and a long one that is used once a call outgrows it, and
/// stays in use until a call has few results.
#[derive(Drop)]
struct Rows {
    current: Places,
    other: Places,
    is_long: bool,
}

impl Model for Rows {
    ghost use Rattle.memos.specs.MemoPlaces.{MemoValue};

    ghost Value = { MemoValue };

    ghost view = { λ r. r.current };
}

impl Rows {
    fn new(alloc: Global) -> Rows
        ensures empty { result.entries ≡ [] }
    {
        Rows {
            current: Places::new(alloc),
            other: Places::new(alloc),
            is_long: false,
        }
    }

    /// Forgets all results. Goes back to the short row where the last call had few.
    fn begin(&mut self)
        ensures empty { self.new.entries ≡ [] }
    {
        if self.is_long && self.current.fits_short_row() {
            mem::swap(&mut self.current, &mut self.other);
            self.is_long = false;
        }
        self.current.begin();
    }

    fn find(&self, f: u32, g: u32, h: u32) -> Option<u32>
        ensures { result ≡ found self.now.entries f g h }
    {
        self.current.find(f, g, h)
    }

    /// Makes room for one more result.
    fn widen(&mut self) -> Result<(), AllocError>
        ensures room { OnOk result (0 < self.new.spare) }
        ensures found { SameFound self.old.entries self.new.entries }
        ensures len { length self.new.entries ≡ length self.old.entries }
        ensures err { OnErr result (self.new ≡ self.old) }
    {
        if self.is_long {
            return self.current.grow();
        }
        if !self.current.is_wide() {
            return self.current.grow();
        }
        self.other.take_from(&self.current)?;
        mem::swap(&mut self.current, &mut self.other);
        self.is_long = true;
        Ok(())
    }

    fn insert(&mut self, f: u32, g: u32, h: u32, node: u32) -> Result<(), AllocError>
        requires new { found self.old.entries f g h ≡ None }
        ensures puts { OnOk result (Puts self.old.entries self.new.entries f g h node) }
        ensures len { OnOk result (length self.new.entries ≡ length self.old.entries + 1) }
        ensures err { OnErr result (self.new ≡ self.old) }
    {
        if !self.current.has_room() {
            self.widen()?;
        }
        self.current.add(f, g, h, node);
        Ok(())
    }
}

/// The results of one call, in memory that is kept from call to call.
///
/// Each call takes expected constant time. `begin` touches no memory, whatever was kept before; and
/// after large calls the second small one works in a short row again, which stays in the processor's
/// cache.
#[derive(Drop)]
pub struct Memo {
    inner: Rows,
}

impl Model for Memo {
    ghost use Rattle.memos.specs.Memo.{Triple};
    ghost use Rattle.std.specs.Prelude.{List, ℕ};

    ghost Value = { List (Triple × ℕ) };

    ghost view = { λ m. m.inner.entries };
}

impl Memo {
    /// No result. Takes no memory yet.
    pub fn new(alloc: Global) -> Memo
        ensures { result ≡ [] }
    {
        Memo {
            inner: Rows::new(alloc),
        }
    }

    /// Forgets all results, and keeps the memory for the next call.
    pub fn begin(&mut self)
        ensures { self.new ≡ [] }
    {
        self.inner.begin();
    }

    /// The result for these arguments.
    pub fn find(&self, f: u32, g: u32, h: u32) -> Option<u32>
        ensures { result ≡ found self.now f g h }
    {
        self.inner.find(f, g, h)
    }

    /// Adds a result for arguments that have none.
    pub fn add(&mut self, f: u32, g: u32, h: u32, node: u32) -> Result<(), OutOfMemory>
        requires new { found self.old f g h ≡ None }
        ensures here { OnOk result (found self.new f g h ≡ Some node) }
        ensures others { (a b c : ℕ) → (a ≢ f) ⊎ ((b ≢ g) ⊎ (c ≢ h)) → found self.new a b c ≡ found self.old a b c }
        ensures len { OnOk result (length self.new ≡ length self.old + 1) }
        ensures err { OnErr result (self.new ≡ self.old) }
    {
        self.inner.insert(f, g, h, node)?;
        Ok(())
    }
}
