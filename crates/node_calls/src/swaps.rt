//! Swaps of two variables, and what all numbers of a store have before and after.
ghost use Rattle.std.specs.Prelude.{◌≡◌, ◌+◌, ◌<◌, true, length};

use crate::live::{table_of, variable_at};
use call_rows::Page;
use diagram_model::Parts;
use level_swap::{room, swap, try_swap};
use node_store::{Node, Store};
use std::alloc::Global;

/// What a number has: its parts and its truth table.
#[derive(Clone, Copy, Drop)]
pub struct Entry {
    parts: Option<Parts>,
    table: Option<u16>,
}

fn entry_of(store: &Store, number: u32) -> Entry {
    Entry {
        parts: store.parts_of(Node(number)),
        table: table_of(store, Node(number)),
    }
}

/// Keeps what each number has. Whether there is memory.
pub fn mark(store: &Store, entries: &mut Vec<Entry>) -> bool {
    entries.clear();
    let mut all = true;
    for number in 0..store.past() {
        all = entries.push(entry_of(store, number)).is_ok() && all;
    }
    all
}

/// Whether each number that was live still has its table, whether each that was held has its parts, if that is asked, and whether none is gone
/// and at most so many have come.
pub fn tell_kept(store: &Store, entries: &[Entry], asks: bool, most: u32, page: &mut Page) {
    let (mut tables, mut parts) = (true, true);
    for number in 0..store.past() {
        if let Some(was) = entries.get(number as usize) {
            let now = entry_of(store, number);
            tables = tables && (was.table.is_none() || now.table == was.table);
            parts = parts && (!asks || was.parts.is_none() || now.parts == was.parts);
        }
    }
    let more = store.held().wrapping_sub(held_in(entries));
    page.show(&(
        tables,
        parts,
        store.past() as usize >= entries.len() && more <= most,
    ));
}

fn held_in(entries: &[Entry]) -> u32 {
    let mut count = 0u32;
    for entry in entries {
        count = count.wrapping_add(u32::from(entry.parts.is_some()));
    }
    count
}

// Whether a place has another one below it.
fn is_level(store: &Store, level: u8) -> bool
    ensures { result ≡ true → level + 1 < length store.now.order }
{
    level < 128 && level + 1 < store.order().len()
}

/// The room at a level.
pub fn tell_room(store: &Store, level: u8, page: &mut Page) {
    if is_level(store, level) {
        page.show(&room(store, level));
    }
}

/// Whether the room at a level is what is free and four times its nodes, and whether a swap succeeds there.
pub fn tell_swap(alloc: Global, store: &mut Store, level: u8, page: &mut Page) {
    if is_level(store, level) && room(store, level).is_enough() {
        let there = room(store, level);
        let free = store.limit().wrapping_sub(store.held());
        let need = count_of(store, variable_at(&store.order(), level)).wrapping_mul(4);
        page.show(&(there.free == free, there.need == need));
        page.show(&swap(alloc, store, level));
    }
}

// How many nodes of a variable are held.
fn count_of(store: &Store, var: u8) -> u32 {
    let mut count = 0u32;
    for number in 0..store.past() {
        if let Some(parts) = store.parts_of(Node(number)) {
            count = count.wrapping_add(u32::from(parts.var == var));
        }
    }
    count
}

/// What a swap that tests the room answers.
pub fn tell_tried(alloc: Global, store: &mut Store, level: u8, page: &mut Page) {
    if is_level(store, level) {
        page.show(&try_swap(alloc, store, level));
    }
}
