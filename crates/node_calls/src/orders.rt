//! Orders of variables, and moves of variables to their best places.
use crate::live::{are_live, is_live, table_node, table_of, tell_order};
use bit_lists::{Order, OutOfMemory};
use call_rows::{Page, Row};
use diagram_ops::Diagrams;
use node_store::{FALSE, Node, Store};
use sifting::{Sifted, sift_all, sift_variable};
use std::alloc::Global;
use std::mem;

/// The natural order of so many variables, at most 128, after exchanges of places with the next ones, each a digit.
fn order_of(vars: u8, exchanges: &[u8]) -> Order {
    let mut order = Order::natural(vars.min(128));
    for digit in exchanges {
        let place = digit.wrapping_sub(b'0');
        if place < 10 && place + 1 < order.len() {
            order.exchange(place);
        }
    }
    order
}

/// Diagrams of so many variables, in an order, with so many nodes and cached answers.
pub fn begun(
    alloc: Global,
    vars: u8,
    exchanges: &[u8],
    limit: u32,
    capacity: u32,
) -> Result<Diagrams, OutOfMemory> {
    let limit = limit.max(1).min(262_144);
    let mut d = Diagrams::new(alloc, vars.min(128), limit, capacity.max(1).min(1_000))?;
    match Store::with_order(alloc, &order_of(vars, exchanges), limit) {
        Ok(store) => {
            put(&mut d, store);
            Ok(d)
        }
        Err(stop) => {
            drop(d);
            Err(stop)
        }
    }
}

/// Puts a store in the place of another one.
pub fn put(d: &mut Diagrams, store: Store) {
    d.forget();
    let old = mem::replace(d.lend(), store);
    drop(old);
}

/// For each of four variables, what comes of its sift in diagrams that hold the node of a table by places, by exchanges of the order and a
/// limit.
pub fn tell_sifts(row: &mut Row<'_>, page: &mut Page) {
    let exchanges = row.word();
    let limit = row.count();
    let table = row.count();
    for var in 0..4u8 {
        match begun(page.alloc, 4, exchanges, limit, 16) {
            Ok(mut d) => {
                tell_sift_of(&mut d, table, var, page);
                drop(d);
            }
            Err(stop) => page.show(&stop),
        }
        page.text("\n");
    }
}

fn tell_sift_of(d: &mut Diagrams, table: u32, var: u8, page: &mut Page) {
    d.forget();
    match table_node(d.lend(), table) {
        Ok(root) => {
            let was = table_of(d.store(), root);
            tell_sift(d, root, var, page);
            page.show(&(table_of(d.store(), root) == was));
        }
        Err(stop) => page.show(&stop),
    }
}

/// What comes of the sift of a variable for a root; and the order of the store, and whether nothing else is held or cached.
pub fn tell_sift(d: &mut Diagrams, root: Node, var: u8, page: &mut Page) {
    if var < d.store().order().len() && is_live(d.store(), root) {
        match sift_variable(page.alloc, d, &[root], var) {
            Ok(answer) => {
                tell_answer(&answer, page);
                page.show(&(d.store().held() == answer.after && d.cached() == 0));
            }
            Err(stop) => page.show(&stop),
        }
    }
    tell_order(&d.store().order(), page);
}

// The place, the nodes before and after, the rooms that were too small downwards and upwards, and the order.
fn tell_answer(answer: &Sifted, page: &mut Page) {
    page.show(&(answer.place, answer.before, answer.after));
    page.show(&(answer.stopped_down, answer.stopped_up));
    tell_order(&answer.order, page);
}

/// What comes of the sifts of all variables for a root.
pub fn tell_sifted(d: &mut Diagrams, root: Node, page: &mut Page) {
    if are_live(d.store(), &[root]) {
        match sift_all(page.alloc, d, &[root]) {
            Ok(answers) => tell_answers(&answers, page),
            Err(stop) => page.show(&stop),
        }
    }
}

fn tell_answers(answers: &[Sifted], page: &mut Page) {
    for answer in answers {
        page.show(&(answer.place, answer.before, answer.after));
    }
}
