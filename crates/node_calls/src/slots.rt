//! A store of all functions of three variables, of which the nodes of parity alone are kept, as slots.
use crate::live::{are_live, table_node, tell_order};
use bit_lists::{Order, OutOfMemory};
use call_rows::Page;
use diagram_model::Parts;
use node_store::{Node, Reached, Slots, Store};
use std::alloc::Global;

/// Fills a store, keeps what parity reaches, and tells how many nodes are freed, and what is left.
pub fn tell(page: &mut Page) {
    match Store::with_order(page.alloc, &Order::natural(3), 254) {
        Ok(mut store) => {
            let filled = fill(&mut store);
            page.show(&(filled.is_some(), store.held()));
            match filled {
                Some((parity, majority)) => tell_parity(store, parity, majority, page),
                None => drop(store),
            }
        }
        Err(stop) => page.show(&stop),
    }
}

// The nodes of parity and majority, once all functions have theirs.
fn fill(store: &mut Store) -> Option<(Node, Node)> {
    let mut found = (Node(0), Node(0));
    for table in 0..256u32 {
        let n = table_node(store, wide(table)).ok()?;
        if table == 150 {
            found.0 = n;
        }
        if table == 232 {
            found.1 = n;
        }
    }
    Some(found)
}

// A table of three variables as one of four of which the last isn't read.
fn wide(table: u32) -> u32 {
    let mut wide = 0u32;
    for at in 0..16u8 {
        wide |= table.wrapping_shr(u32::from(at / 2)) % 2 << at;
    }
    wide
}

fn tell_parity(store: Store, parity: Node, majority: Node, page: &mut Page) {
    match marked(&store, parity) {
        Ok(marks) => {
            page.show(&(marks.has(parity), marks.has(majority)));
            let parts = store.parts_of(majority);
            let mut slots = store.unseal().seal().unseal();
            page.show(&slots.keep_only(&marks));
            drop(marks);
            tell_kept(&mut slots, parity, parts, page);
            drop(slots);
        }
        Err(_) => drop(store),
    }
}

fn marked(store: &Store, n: Node) -> Result<Reached, OutOfMemory> {
    let roots = [n];
    if are_live(store, &roots) {
        Ok(store.reached(&roots)?)
    } else {
        Err(OutOfMemory)
    }
}

// What is left, and what becomes of it once parity's node has majority's parts, and of the order once two variables are exchanged.
fn tell_kept(slots: &mut Slots, parity: Node, majority: Option<Parts>, page: &mut Page) {
    page.show(&(slots.held(), slots.order().len(), walked(slots)));
    for var in 0..3u8 {
        tell_numbers(slots, var, page);
    }
    if let Some(parts) = majority {
        page.show(&(
            comes_and_goes(slots, parts),
            is_rewritten(slots, parity, parts),
        ));
    }
    if slots.order().len() > 1 {
        slots.exchange(0);
    }
    tell_order(&slots.order(), page);
}

// How many nodes of a variable are held, by their number and by their list, and whether those are its own.
fn tell_numbers(slots: &Slots, var: u8, page: &mut Page) {
    if var >= slots.order().len() {
        return;
    }
    match slots.numbers_of(var) {
        Ok(numbers) => {
            let mut own = true;
            for number in &numbers {
                own = own && is_of(slots.parts_of(Node(*number)), var);
            }
            page.show(&(slots.nodes_of(var), numbers.len(), own));
        }
        Err(_) => page.text(" no memory"),
    }
}

fn is_of(parts: Option<Parts>, var: u8) -> bool {
    match parts {
        Some(parts) => parts.var == var,
        None => false,
    }
}

// How many held nodes are met from number to number, at most ten.
fn walked(slots: &Slots) -> u32 {
    let mut at = None;
    let mut count = 0u32;
    for _ in 0..10 {
        if let Some(n) = slots.next_held(at) {
            if n.0 < slots.past() {
                count = count.wrapping_add(1);
            }
            at = Some(n);
        }
    }
    count
}

// Adds a node of parts that are not held, and takes it away. Whether it was found meanwhile alone.
fn comes_and_goes(slots: &mut Slots, parts: Parts) -> bool {
    let (var, low, high) = (parts.var, Node(parts.low), Node(parts.high));
    if var >= slots.order().len() || slots.reserve(var, 2).is_err() {
        return false;
    }
    if slots.held() >= slots.limit() || slots.find(var, low, high).is_some() {
        return false;
    }
    let n = slots.add(var, low, high);
    if slots.find(var, low, high) != Some(n) || slots.parts_of(n).is_none() {
        return false;
    }
    slots.free(n);
    slots.find(var, low, high).is_none()
}

// Gives a node parts that are not held. Whether it is then found by these alone.
fn is_rewritten(slots: &mut Slots, n: Node, parts: Parts) -> bool {
    let (var, low, high) = (parts.var, Node(parts.low), Node(parts.high));
    let Some(was) = slots.parts_of(n) else {
        return false;
    };
    if var >= slots.order().len() || was.var >= slots.order().len() {
        return false;
    }
    if slots.reserve(var, 1).is_err() || slots.find(var, low, high).is_some() {
        return false;
    }
    slots.rewrite(n, var, low, high);
    let old = slots.find(was.var, Node(was.low), Node(was.high));
    (slots.parts_of(n), slots.find(var, low, high), old) == (Some(parts), Some(n), None)
}
