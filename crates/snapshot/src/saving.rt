//! A vector's text.
ghost use Rattle.std.specs.Prelude.{◌≡◌, ◌<◌, ◌≤◌, ◌++◌, ◌+◌, ℕ, length, drop, true, codes, decimal, [], IfOk, IfErr, OnOk, IsErrOf};
ghost use Rattle.bit_lists.specs.Orders.{has};
ghost use Rattle.diagram_model.specs.Stores.{held};
ghost use Rattle.slice_vec.specs.Slices.{bit_node};
ghost use Rattle.slice_quad.specs.declared.coord.Coord.{Coord};
ghost use Rattle.slice_quad.specs.Fours.{nodes_of};
ghost use Rattle.slice_quad.specs.Vectors.{Stands};
ghost use Rattle.snapshot.specs.Numbers.{numbered};
ghost use Rattle.snapshot.specs.Sheets.{list_text, node_text, head_text, bits_line, bits_text};
ghost use Rattle.snapshot.specs.Snapshots.{IsSnapshot, nodes_in, snapshot_of, snapshot_text};
ghost use Rattle.snapshot.specs.Private.{IsNumbering, Adds, Refuses, functions, line_in, lines_text, places_in};

use crate::numbering::Numbering;
pub use crate::text::SaveStop;
use crate::text::Text;
use crate::visiting::number_all;
use amp_printer::Line;
use bit_lists::Order;
use diagram_ops::Diagrams;
use node_store::{Node, Store};
use slice_quad::{Four, SliceQuad};
use slice_vec::Slices;
use std::alloc::Global;

/// The most bytes of a saved text.
const LONGEST: usize = 16_777_216;

/// The one text of a vector as a snapshot: at most 16,777,216 bytes. `TooLong` comes exactly where it has more.
///
/// Its time is linear in the nodes that are reached and in the text. Takes memory for the text, and four bytes a node number.
pub fn save_text(alloc: Global, d: &Diagrams, q: &SliceQuad) -> Result<Vec<u8>, SaveStop>
    requires stands { Stands d.now.store q.now }
    requires snapshot { IsSnapshot (snapshot_of d.now.store q.now) }
    ensures text { IfOk result (λ t. t.items ≡ snapshot_text (snapshot_of d.now.store q.now)) }
    ensures short { IfOk result (λ t. length t.items ≤ 16777216) }
    ensures long { IsErrOf result SaveStop.TooLong → 16777216 < length (snapshot_text (snapshot_of d.now.store q.now)) }
{
    save_within(alloc, d, q, LONGEST)
}

/// The text of a vector where it has at most so many bytes; no more than these are made. `TooLong` comes exactly where it has more.
pub fn save_within(
    alloc: Global,
    d: &Diagrams,
    q: &SliceQuad,
    most: usize,
) -> Result<Vec<u8>, SaveStop>
    requires stands { Stands d.now.store q.now }
    requires few { length d.now.store.order ≤ 64 }
    ensures text { IfOk result (λ t. t.items ≡ snapshot_text (snapshot_of d.now.store q.now)) }
    ensures short { IfOk result (λ t. length t.items ≤ most) }
    ensures long { IsErrOf result SaveStop.TooLong → most < length (snapshot_text (snapshot_of d.now.store q.now)) }
    ensures held { OnOk result (nodes_in (snapshot_of d.now.store q.now) ≤ held d.now.store) }
{
    let store = d.store();
    let seen = number_all(alloc, store, &q.four)?;
    let mut text = Text::new(alloc, most);
    put_all(&mut text, store, &seen, q)?;
    Ok(text.into_bytes())
}

/// The whole text of a vector whose nodes have numbers.
fn put_all(text: &mut Text, store: &Store, seen: &Numbering, q: &SliceQuad) -> Result<(), SaveStop>
    requires stands { Stands store.now q.now }
    requires few { length store.now.order ≤ 64 }
    requires kept { IsNumbering store.now seen.now }
    requires there { (z : Coord) (i : ℕ) → i < length (nodes_of q.now.four z) → has seen.now.nodes (bit_node (nodes_of q.now.four z) i) ≡ true }
    requires numbered { functions store.now seen.now.nodes ≡ numbered (length store.now.order) store.now.order (functions store.now (q.now.four.a ++ q.now.four.b ++ q.now.four.c ++ q.now.four.d)) }
    ensures ok { OnOk result (Adds text.old text.new (snapshot_text (snapshot_of store.now q.now))) }
    ensures stop { IfErr result (Refuses text.old (snapshot_text (snapshot_of store.now q.now))) }
{
    let order = store.order();
    let width = q.four.a.width() as u8;
    let nodes = seen.nodes().len() as u32;
    put_head(text, &order, q.exponent, width, nodes)?;
    put_nodes(text, store, seen)?;
    put_bits(text, seen, &q.four)?;
    Ok(())
}

/// The lines before the nodes.
fn put_head(
    text: &mut Text,
    order: &Order,
    exponent: u32,
    width: u8,
    nodes: u32,
) -> Result<(), SaveStop>
    requires few { length order.now ≤ 64 }
    ensures ok { OnOk result (Adds text.old text.new (head_text order.now exponent width nodes)) }
    ensures stop { IfErr result (Refuses text.old (head_text order.now exponent width nodes)) }
{
    let line = head_line(order, exponent, width, nodes);
    text.put(line.as_bytes())
}

#[tactic(auto, unfolding(crate::specs::Sheets::head_text))]
fn head_line(order: &Order, exponent: u32, width: u8, nodes: u32) -> Line
    requires few { length order.now ≤ 64 }
    ensures { result ≡ head_text order.now exponent width nodes }
{
    let mut line = Line::new();
    line.add(b"SLIQSTATE 1\nqubits ");
    line.add_count(u128::from(order.len()));
    line.add(b"\norder");
    add_order(&mut line, order);
    line.add(b"\nexponent ");
    line.add_count(u128::from(exponent));
    line.add(b"\nwidth ");
    line.add_count(u128::from(width));
    line.add(b"\nnodes ");
    line.add_count(u128::from(nodes));
    line.add(b"\n");
    line
}

fn add_order(line: &mut Line, order: &Order)
    requires few { length order.now ≤ 64 }
    requires room { length line.old ≤ 100 }
    ensures text { line.new ≡ line.old ++ list_text order.now }
    ensures short { length line.new ≤ length line.old + 256 }
{
    'places: for place in 0..order.len() {
        add_variable(line, order.at(place));
    }
}

fn add_variable(line: &mut Line, var: u8)
    requires { length line.old ≤ 900 }
    ensures text { line.new ≡ line.old ++ codes " " ++ decimal var }
    ensures short { length line.new ≤ length line.old + 4 }
{
    line.add(b" ");
    line.add_count(u128::from(var));
}

fn add_number(line: &mut Line, n: u32)
    requires { length line.old ≤ 900 }
    ensures text { line.new ≡ line.old ++ codes " " ++ decimal n }
    ensures short { length line.new ≤ length line.old + 41 }
{
    line.add(b" ");
    line.add_count(u128::from(n));
}

/// The lines of the nodes, in the order of their numbers.
fn put_nodes(text: &mut Text, store: &Store, seen: &Numbering) -> Result<(), SaveStop>
    requires kept { IsNumbering store.now seen.now }
    ensures ok { OnOk result (Adds text.old text.new (lines_text store.now seen.now.nodes (drop 2 seen.now.nodes))) }
    ensures stop { IfErr result (Refuses text.old (lines_text store.now seen.now.nodes (drop 2 seen.now.nodes))) }
{
    let nodes = seen.nodes();
    for n in nodes {
        put_node(text, store, seen, *n)?;
    }
    Ok(())
}

/// The line of a node.
fn put_node(text: &mut Text, store: &Store, seen: &Numbering, n: Node) -> Result<(), SaveStop>
    requires kept { IsNumbering store.now seen.now }
    requires there { has seen.now.nodes n.0 ≡ true }
    ensures ok { OnOk result (Adds text.old text.new (node_text (line_in store.now seen.now.nodes n.0))) }
    ensures stop { IfErr result (Refuses text.old (node_text (line_in store.now seen.now.nodes n.0))) }
{
    let line = line_of(store, seen, n);
    text.put(line.as_bytes())
}

fn line_of(store: &Store, seen: &Numbering, n: Node) -> Line
    requires kept { IsNumbering store.now seen.now }
    requires there { has seen.now.nodes n.0 ≡ true }
    ensures { result ≡ node_text (line_in store.now seen.now.nodes n.0) }
{
    match store.parts_of(n) {
        Some(parts) => {
            let low = seen.number(Node(parts.low));
            let high = seen.number(Node(parts.high));
            node_line(parts.var, low, high)
        }
        None => node_line(0, 0, 0),
    }
}

#[tactic(auto, unfolding(crate::specs::Sheets::node_text))]
fn node_line(var: u8, low: u32, high: u32) -> Line
    ensures { result ≡ node_text (record { var = var; low = low; high = high }) }
{
    let mut line = Line::new();
    line.add_count(u128::from(var));
    add_number(&mut line, low);
    add_number(&mut line, high);
    line.add(b"\n");
    line
}

/// The lines behind the nodes.
fn put_bits(text: &mut Text, seen: &Numbering, q: &Four) -> Result<(), SaveStop>
    requires there { (z : Coord) (i : ℕ) → i < length (nodes_of q.now z) → has seen.now.nodes (bit_node (nodes_of q.now z) i) ≡ true }
    requires some { (z : Coord) → 0 < length (nodes_of q.now z) }
    ensures ok { OnOk result (Adds text.old text.new (bits_text (places_in seen.now.nodes q.now.a) (places_in seen.now.nodes q.now.b) (places_in seen.now.nodes q.now.c) (places_in seen.now.nodes q.now.d))) }
    ensures stop { IfErr result (Refuses text.old (bits_text (places_in seen.now.nodes q.now.a) (places_in seen.now.nodes q.now.b) (places_in seen.now.nodes q.now.c) (places_in seen.now.nodes q.now.d))) }
{
    put_line(text, b"a", seen, &q.a)?;
    put_line(text, b"b", seen, &q.b)?;
    put_line(text, b"c", seen, &q.c)?;
    put_line(text, b"d", seen, &q.d)?;
    text.put(b"end\n")?;
    Ok(())
}

/// A word, and the numbers of an integer's nodes, lowest bit first.
fn put_line(text: &mut Text, word: &[u8], seen: &Numbering, x: &Slices) -> Result<(), SaveStop>
    requires there { (i : ℕ) → i < length x.now → has seen.now.nodes (bit_node x.now i) ≡ true }
    requires some { 0 < length x.now }
    ensures ok { OnOk result (Adds text.old text.new (bits_line word.now (places_in seen.now.nodes x.now))) }
    ensures stop { IfErr result (Refuses text.old (bits_line word.now (places_in seen.now.nodes x.now))) }
{
    text.put(word)?;
    for i in 0..x.width() {
        put_number(text, seen.number(x.bit(i)))?;
    }
    text.put(b"\n")?;
    Ok(())
}

fn put_number(text: &mut Text, n: u32) -> Result<(), SaveStop>
    ensures ok { OnOk result (Adds text.old text.new (codes " " ++ decimal n)) }
    ensures stop { IfErr result (Refuses text.old (codes " " ++ decimal n)) }
{
    let mut line = Line::new();
    add_number(&mut line, n);
    text.put(line.as_bytes())
}
