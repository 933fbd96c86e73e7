//! Which nodes are there, and calls on those that are.
ghost use Rattle.std.specs.Prelude.{◌≡◌, ◌≤◌, ◌<◌, true, length};
ghost use Rattle.std.specs.List.{All};
ghost use Rattle.bit_lists.specs.Orders.{has};
ghost use Rattle.diagram_model.specs.Stores.{IsLive, IsAbove};

use bit_lists::{Bits, Order, Partial};
use call_rows::Page;
use node_store::{FALSE, Node, Store, StoreStop, TRUE};
use std::marker::Brand;
use std::sync::ledger::{Blank, Ledger};
use steps::Steps;

/// Whether `n` is live.
pub fn is_live(store: &Store, n: Node) -> bool
    ensures { result ≡ true → IsLive store.now n.0 }
{
    match store.parts_of(n) {
        Some(_) => true,
        None => n.0 < 2,
    }
}

/// Whether all of some nodes are live.
pub fn are_live(store: &Store, roots: &[Node]) -> bool
    ensures { result ≡ true → All (λ n. IsLive store.now n.0) roots.now }
{
    for root in roots {
        if !is_live(store, *root) {
            return false;
        }
    }
    true
}

// Whether `var` is a variable of the store, and stands above `n`.
fn stands_above(store: &Store, var: u8, n: Node) -> bool
    ensures var { result ≡ true → has store.now.order var ≡ true }
    ensures above { result ≡ true → IsAbove store.now var n.0 }
{
    if var >= store.order().len() {
        return false;
    }
    match store.parts_of(n) {
        Some(parts) => {
            parts.var < store.order().len() && store.place_of(var) < store.place_of(parts.var)
        }
        None => n.0 < 2,
    }
}

fn made_counted<L: Ledger>(
    store: &mut Store,
    var: u8,
    low: Node,
    high: Node,
    blank: Blank,
) -> Result<Node, StoreStop>
    requires var { has store.old.order var ≡ true }
    requires low { IsAbove store.old var low.0 }
    requires high { IsAbove store.old var high.0 }
    requires name { blank.name ≡ L.name }
    requires parts { blank.parts ≡ L.parts }
    requires some { 0 < blank.parts }
{
    let mut steps = Steps::<L>::new(blank);
    store.make(var, low, high, &mut steps)
}

/// The node of a variable and two nodes below it.
pub fn made(store: &mut Store, var: u8, low: Node, high: Node) -> Result<Node, StoreStop> {
    if stands_above(store, var, low) && stands_above(store, var, high) {
        made_counted::<Brand>(store, var, low, high, Blank::new(1))
    } else {
        Err(StoreStop::OutOfMemory)
    }
}

/// The variable at a place of an order, or 128.
pub fn variable_at(order: &Order, place: u8) -> u8 {
    if place < order.len() {
        order.at(place)
    } else {
        128
    }
}

// The constants that a table has, from the place 16 on.
fn leaves(table: u32) -> [Node; 32] {
    let mut nodes = [FALSE; 32];
    for at in 0..16u8 {
        if (table >> at) % 2 == 1 {
            nodes[16 + at as usize] = TRUE;
        }
    }
    nodes
}

/// The node of a table of at most four variables, built from the bottom: number k stands above the numbers 2k and 2k + 1. Bit 8 p0 + 4 p1 + 2 p2
/// + p3 of the table is its value where the variable at place 0 of the order is p0, and so on.
pub fn table_node(store: &mut Store, table: u32) -> Result<Node, StoreStop> {
    let mut nodes = leaves(table);
    for step in 0..15usize {
        let k = 15 - step;
        let place = match k {
            1 => 0,
            2..=3 => 1,
            4..=7 => 2,
            _ => 3,
        };
        nodes[k] = made_at(store, place, nodes[2 * k], nodes[2 * k + 1])?;
    }
    Ok(nodes[1])
}

// The node at a place of the order, which is `low` where there is no such place.
fn made_at(store: &mut Store, place: u8, low: Node, high: Node) -> Result<Node, StoreStop> {
    let var = variable_at(&store.order(), place);
    if var < 128 {
        made(store, var, low, high)
    } else {
        Ok(low)
    }
}

// The value of a node at the first four variables' bits of an index, which is false where there is none.
fn value_at(store: &Store, n: Node, index: u8) -> bool {
    let mut x = Bits::zeros(store.order().len());
    for var in 0..4u8 {
        if var < x.len() {
            x.set(var, index & (8u8 >> var) != 0);
        }
    }
    x.len() == store.order().len() && is_live(store, n) && store.value(n, &x)
}

/// The truth table of a node over the first four variables: bit 8 x0 + 4 x1 + 2 x2 + x3 is its value there. None where it isn't live.
pub fn table_of(store: &Store, n: Node) -> Option<u16> {
    if !is_live(store, n) {
        return None;
    }
    let mut table = 0u16;
    for index in 0..16u8 {
        if value_at(store, n, index) {
            table |= 1u16 << index;
        }
    }
    Some(table)
}

/// How many nodes are reached from roots.
pub fn tell_size(store: &Store, roots: &[Node], page: &mut Page) {
    if are_live(store, roots) {
        page.show(&store.size(roots));
    }
}

/// Whether f is true somewhere, and differs from g somewhere, where a variable is fixed.
pub fn tell_asked(store: &Store, f: Node, g: Node, var: u8, bit: Option<bool>, page: &mut Page) {
    let mut p = Partial::free(store.order().len());
    if var < p.len() {
        p.fix(var, bit);
    }
    if p.len() == store.order().len() && is_live(store, f) && is_live(store, g) {
        page.show(&(store.any(f, &p), store.differ(f, g, &p)));
    }
}

/// The variables of an order, top first, each a digit.
pub fn tell_order(order: &Order, page: &mut Page) {
    page.text(" ");
    for place in 0..order.len() {
        page.put(&[b'0'.wrapping_add(order.at(place))]);
    }
}
