//! The held nodes of one variable, by their children.
ghost use Rattle.std.specs.Prelude.{◌≡◌, ◌≢◌, ◌⊎◌, ℕ, ◌+◌, ◌-◌, ◌<◌, ◌≤◌, ◌*◌, ◌/◌, ◌^◌, OnOk, OnErr, IfOk, IfSome, IfNone, true, map, length, None, Some, [], IsOk, slice_set};
ghost use Rattle.tables.specs.NodePlaces.{home, slot_of, slots_of};
ghost use Rattle.tables.specs.NodeTable.{AreNodes, Children, found, found_in, Puts, SameFound};
ghost use Rattle.tables.specs.Probing.{IsAbsent, IsProbed, AreApart, free, gone, holds, entries_of, at, used_of};
ghost use Rattle.tables.specs.Searching.{ProbeMeans, LocateMeans, node_of};
ghost use Rattle.tables.specs.Seeking.{Sought, IsSeat};

use crate::probe::{MOST_KEYS, Probe, places_for};
use std::alloc::{AllocError, Global};
use std::marker::Model;

/// A place of the table.
#[derive(Clone, Copy, Drop)]
pub enum Place {
    Free,
    Removed,
    Held { low: u32, high: u32, node: u32 },
}

/// Odd factors whose products spread the bits of the children.
const LOW_FACTOR: u32 = 2654435769;

const HIGH_FACTOR: u32 = 2246822519;

/// Where the search for these children begins among n places.
fn home_of(places: usize, low: u32, high: u32) -> usize
    requires { places < 2 ^ 32 }
    ensures value { result ≡ home places (low, high) }
    ensures within { result ≤ places }
{
    let mix = low
        .wrapping_mul(LOW_FACTOR)
        .wrapping_add(high.wrapping_mul(HIGH_FACTOR));
    ((mix as u64 * places as u64) >> 32) as usize
}

/// Searches a part of the places.
fn probe_part(places: &[Place], low: u32, high: u32) -> Probe
    ensures { ProbeMeans slot_of places.now (low, high) result }
{
    for (index, place) in places.iter().enumerate() {
        match *place {
            Place::Free => return Probe::Vacant { index },
            Place::Removed => (),
            Place::Held {
                low: l,
                high: h,
                node,
            } => {
                if l == low && h == high {
                    return Probe::Found { index, node };
                }
            }
        }
    }
    Probe::Full
}

/// The held nodes of one variable: open addressing, with at least one place free.
#[derive(Drop)]
pub struct NodeTable {
    alloc: Global,
    places: Vec<Place>,
    room: usize,
    len: usize,
}

impl Model for NodeTable {
    ghost use Rattle.tables.specs.NodeTable.{TableValue};

    ghost Value = { TableValue };

    ghost use Rattle.tables.specs.Stored.{view_of, IsStored};

    ghost view = { view_of };

    ghost invariant = { IsStored };
}

/// Searches all places from one on.
fn search_from(places: &[Place], start: usize, low: u32, high: u32) -> Probe
    requires { start ≤ length places.now }
    ensures { LocateMeans slot_of places.now start (low, high) result }
{
    match probe_part(&places[start..], low, high) {
        Probe::Full => probe_part(&places[..start], low, high),
        Probe::Found { index, node } => Probe::Found {
            index: start + index,
            node,
        },
        Probe::Vacant { index } => Probe::Vacant {
            index: start + index,
        },
    }
}

/// Searches all places from the home of these children on.
fn locate(places: &[Place], low: u32, high: u32) -> Probe
    requires { length places.now < 2 ^ 32 }
    ensures { LocateMeans slot_of places.now (home (length places.now) (low, high)) (low, high) result }
{
    search_from(places, home_of(places.len(), low, high), low, high)
}

/// Whether a place is free.
fn is_free(place: Place) -> bool
    ensures { result ≡ true → slot_of place ≡ free }
{
    match place {
        Place::Free => true,
        Place::Removed => false,
        Place::Held { .. } => false,
    }
}

/// Whether a node was taken from a place.
fn is_removed(place: Place) -> bool
    ensures { result ≡ true → slot_of place ≡ gone }
{
    match place {
        Place::Removed => true,
        Place::Free => false,
        Place::Held { .. } => false,
    }
}

/// The index after another in the circle of so many places.
fn next_of(places: usize, index: usize) -> usize
    requires { index < places }
    ensures more { index + 1 < places → result ≡ index + 1 }
    ensures last { places ≤ index + 1 → result ≡ 0 }
    ensures within { result < places }
{
    if index + 1 < places { index + 1 } else { 0 }
}

/// Frees the removed place at an index where the place after it is free. How many were freed.
fn free_one(places: &mut [Place], index: usize) -> usize
    requires { index < length places.old }
    ensures len { length places.new ≡ length places.old }
    ensures one { result ≤ 1 }
    ensures entries { entries_of (slots_of places.new) ≡ entries_of (slots_of places.old) }
    ensures used { used_of (slots_of places.new) + result ≡ used_of (slots_of places.old) }
    ensures probed { (start : Children → ℕ) → IsProbed start (slots_of places.old) → IsProbed start (slots_of places.new) }
{
    let next = next_of(places.len(), index);
    if is_removed(places[index]) && is_free(places[next]) {
        places[index] = Place::Free;
        return 1;
    }
    0
}

/// Frees the removed places past which no search goes, the last one first. How many were freed.
fn free_removed(places: &mut [Place]) -> usize
    ensures len { length places.new ≡ length places.old }
    ensures entries { entries_of (slots_of places.new) ≡ entries_of (slots_of places.old) }
    ensures used { used_of (slots_of places.new) + result ≡ used_of (slots_of places.old) }
    ensures probed { (start : Children → ℕ) → IsProbed start (slots_of places.old) → IsProbed start (slots_of places.new) }
{
    let mut freed = 0;
    let mut index = places.len();
    while index > 0 {
        index -= 1;
        freed += free_one(places, index);
    }
    freed
}

impl NodeTable {
    /// No node. Takes no memory.
    pub fn new(alloc: Global) -> NodeTable
        ensures empty { result.entries ≡ [] }
    {
        NodeTable {
            alloc,
            places: Vec::new(alloc),
            room: 0,
            len: 0,
        }
    }

    /// An empty table with so many places.
    fn sized(alloc: Global, places: usize) -> Result<NodeTable, AllocError>
        requires { places < 2 ^ 32 }
        ensures empty { IfOk result (λ t. t.entries ≡ []) }
        ensures spare { IfOk result (λ t. t.spare + places / 4 ≡ places) }
    {
        let free = vec![in alloc; Place::Free; places]?;
        Ok(NodeTable {
            alloc,
            places: free,
            room: places - places / 4,
            len: 0,
        })
    }

    /// Adds all nodes of another table's places.
    fn refill(&mut self, from: &[Place])
        requires empty { self.old.entries ≡ [] }
        requires room { length (entries_of (slots_of from.now)) ≤ self.old.spare }
        requires apart { AreApart (slots_of from.now) }
        ensures found { (low high : ℕ) → found self.new low high ≡ found_in (entries_of (slots_of from.now)) low high }
        ensures spare { self.new.spare + length (entries_of (slots_of from.now)) ≡ self.old.spare }
        ensures len { length self.new.entries ≡ length (entries_of (slots_of from.now)) }
    {
        for place in from {
            match *place {
                Place::Held { low, high, node } => self.add(low, high, node),
                Place::Removed => (),
                Place::Free => (),
            }
        }
    }

    /// Makes room for more nodes.
    pub fn reserve(&mut self, more: usize) -> Result<(), AllocError>
        ensures room { OnOk result (more ≤ self.new.spare) }
        ensures kept { SameFound self.old self.new }
        ensures spare { self.old.spare ≤ self.new.spare }
        ensures len { length self.new.entries ≡ length self.old.entries }
        ensures err { OnErr result (self.new ≡ self.old) }
    {
        if more <= self.room {
            return Ok(());
        }
        if more > MOST_KEYS {
            return Err(AllocError);
        }
        let len = self.len;
        let places = places_for(len + more)?;
        let mut larger = NodeTable::sized(self.alloc, places)?;
        larger.refill(&self.places);
        *self = larger;
        Ok(())
    }

    /// The node with these children.
    pub fn find(&self, low: u32, high: u32) -> Option<u32>
        ensures { result ≡ found self.now low high }
    {
        self.seek(low, high).node()
    }

    /// Where the search for the node with these children ends: at the node, or else at the place where
    /// it goes, if one is free.
    pub fn seek(&self, low: u32, high: u32) -> Probe
        ensures node { node_of result ≡ found self.now low high }
        ensures sought { Sought self.now low high result }
    {
        locate(&self.places, low, high)
    }

    /// Adds a node that is not there.
    pub fn add(&mut self, low: u32, high: u32, node: u32)
        requires room { 0 < self.old.spare }
        requires new { found self.old low high ≡ None }
        ensures puts { Puts self.old self.new low high (Some node) }
        ensures spare { self.new.spare + 1 ≡ self.old.spare }
        ensures len { length self.new.entries ≡ length self.old.entries + 1 }
    {
        match self.seek(low, high) {
            Probe::Vacant { index } => self.put(index, low, high, node),
            Probe::Found { .. } => unreachable!(),
            Probe::Full => unreachable!(),
        }
    }

    /// Adds a node that is not there, where the search for it ended. Makes room where there is none, and
    /// searches again only then.
    pub fn add_at(&mut self, end: Probe, low: u32, high: u32, node: u32) -> Result<(), AllocError>
        requires sought { Sought self.old low high end }
        requires new { found self.old low high ≡ None }
        ensures puts { OnOk result (Puts self.old self.new low high (Some node)) }
        ensures len { OnOk result (length self.new.entries ≡ length self.old.entries + 1) }
        ensures err { OnErr result (self.new ≡ self.old) }
    {
        if let Probe::Vacant { index } = end {
            if self.room > 0 {
                self.put(index, low, high, node);
                return Ok(());
            }
        }
        self.reserve(1)?;
        self.add(low, high, node);
        Ok(())
    }

    /// Puts a node at the place where the search for it ended.
    fn put(&mut self, index: usize, low: u32, high: u32, node: u32)
        requires room { 0 < self.old.spare }
        requires seat { IsSeat self.old low high index }
        ensures puts { Puts self.old self.new low high (Some node) }
        ensures spare { self.new.spare + 1 ≡ self.old.spare }
        ensures len { length self.new.entries ≡ length self.old.entries + 1 }
    {
        self.places[index] = Place::Held { low, high, node };
        self.room -= 1;
        self.len += 1;
    }

    /// Takes a node away. Its place is not free for others before `refresh`.
    pub fn remove(&mut self, low: u32, high: u32)
        ensures puts { Puts self.old self.new low high None }
        ensures spare { self.new.spare ≡ self.old.spare }
        ensures len { (n : ℕ) → found self.old low high ≡ Some n → length self.new.entries + 1 ≡ length self.old.entries }
    {
        match locate(&self.places, low, high) {
            Probe::Found { index, .. } => {
                self.places[index] = Place::Removed;
                self.len -= 1;
            }
            Probe::Vacant { .. } => (),
            Probe::Full => (),
        }
    }

    /// Frees the places of nodes that were taken away, where no search goes past them. One pass over
    /// the places: no node moves, and nothing is hashed.
    pub fn refresh(&mut self)
        ensures entries { self.new.entries ≡ self.old.entries }
        ensures spare { self.old.spare ≤ self.new.spare }
    {
        let freed = free_removed(&mut self.places);
        self.room += freed;
    }

    /// How many nodes there are.
    pub fn len(&self) -> usize
        ensures { result ≡ length self.now.entries }
    {
        self.len
    }

    /// The nodes, one for each entry, in no order. One pass over the places.
    pub fn nodes(&self) -> Result<Vec<u32>, AllocError>
        ensures { IfOk result (λ ns. AreNodes self.now ns.items) }
    {
        let mut nodes = Vec::with_capacity(self.alloc, self.len)?;
        for place in &self.places {
            match *place {
                Place::Held { node, .. } => nodes.push(node)?,
                Place::Removed => (),
                Place::Free => (),
            }
        }
        Ok(nodes)
    }

    /// A table of the same nodes, in as many places as they take.
    pub fn try_copy(&self) -> Result<NodeTable, AllocError>
        ensures found { IfOk result (λ t. SameFound self.now t) }
        ensures len { IfOk result (λ t. length t.entries ≡ length self.now.entries) }
    {
        let places = places_for(self.len)?;
        if self.places.len() <= places {
            return Ok(NodeTable {
                alloc: self.alloc,
                places: self.places.clone()?,
                room: self.room,
                len: self.len,
            });
        }
        let mut copy = NodeTable::sized(self.alloc, places)?;
        copy.refill(&self.places);
        Ok(copy)
    }
}
