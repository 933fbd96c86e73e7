//! Integers over diagrams: operations on a table of values, small ones, and full stores.
ghost use Rattle.std.specs.Prelude.{◌≡◌, ◌≤◌, ◌<◌, length, true};
ghost use Rattle.diagram_model.specs.Stores.{IsLive};
ghost use Rattle.slice_vec.specs.Slices.{StandsIn};

use bit_lists::Bits;
use call_rows::{Page, Row};
use diagram_ops::Diagrams;
use node_store::{FALSE, Node, StoreStop, TRUE};
use slice_vec::{Slices, add, all_even, fix, halve, negate_where, select, trim, value_at, zero};
use std::alloc::Global;
use std::marker::Brand;
use std::sync::ledger::{Blank, Ledger};
use steps::Steps;

/// What is told over diagrams of so many variables and nodes.
pub fn tell(row: &mut Row<'_>, page: &mut Page) {
    let vars = row.small(2);
    let limit = row.count();
    if limit < 1 || limit > 64 {
        return;
    }
    match Diagrams::new(page.alloc, vars, limit, 64) {
        Ok(mut d) => {
            tell_of(&mut d, row, page);
            drop(d);
        }
        Err(stop) => page.show(&stop),
    }
}

fn tell_of(d: &mut Diagrams, row: &mut Row<'_>, page: &mut Page) {
    match row.name() {
        "pair" => tell_pair(d, row, page),
        "minus two" => tell_minus_two(d, operation_of(row.name()), page),
        "chosen" => tell_chosen(d, page),
        "stopped" => tell_stopped(d, operation_of(row.name()), page),
        _ => page.text("no such integers"),
    }
}

// Whether a node is a constant or held.
fn is_live(d: &Diagrams, n: Node) -> bool
    ensures { result ≡ true → IsLive d.now.store n.0 }
{
    let store = d.store();
    let vars = store.order().len();
    match store.parts_of(n) {
        Some(parts) => parts.var < vars,
        None => n.0 < 2,
    }
}

/// Whether there are 1 to 131 bits, and all nodes are live.
pub fn stands(d: &Diagrams, x: &Slices) -> bool
    ensures { result ≡ true → StandsIn d.now.store x.now }
{
    let width = x.width();
    if width == 0 || width > 131 {
        return false;
    }
    for i in 0..width {
        if !is_live(d, x.bit(i)) {
            return false;
        }
    }
    true
}

// The integer with these bits.
fn of_nodes(alloc: Global, nodes: &[Node]) -> Result<Slices, StoreStop> {
    match Vec::from_slice(alloc, nodes) {
        Ok(bits) => Ok(Slices { bits }),
        Err(_) => Err(StoreStop::OutOfMemory),
    }
}

// A constant, as a node.
fn truth(value: bool) -> Node {
    if value { TRUE } else { FALSE }
}

// A variable, or FALSE where there is none.
fn variable(d: &mut Diagrams, var: u8) -> Result<Node, StoreStop> {
    if var < d.store().order().len() {
        return d.variable(var);
    }
    Ok(FALSE)
}

// What is done with two integers: their sum, the first one negated where a node is true, the first one where it is true and else the second
// one, or the first one with the last variable fixed.
#[derive(Clone, Copy)]
enum Operation {
    Sum,
    Negated,
    Chosen,
    Fixed(bool),
}

fn operation_of(name: &str) -> Operation {
    match name {
        "sum" => Operation::Sum,
        "negated" => Operation::Negated,
        "chosen" => Operation::Chosen,
        _ => Operation::Fixed(true),
    }
}

fn made(
    d: &mut Diagrams,
    operation: Operation,
    n: Node,
    x: &Slices,
    y: &Slices,
) -> Result<Slices, StoreStop> {
    if stands(d, x) && stands(d, y) && x.width() < 131 && y.width() < 131 {
        return made_counted::<Brand>(d, operation, n, x, y, Blank::new(1));
    }
    Err(StoreStop::OutOfMemory)
}

fn made_counted<L: Ledger>(
    d: &mut Diagrams,
    operation: Operation,
    n: Node,
    x: &Slices,
    y: &Slices,
    blank: Blank,
) -> Result<Slices, StoreStop>
    requires x { StandsIn d.old.store x.now }
    requires y { StandsIn d.old.store y.now }
    requires width_x { length x.now ≤ 130 }
    requires width_y { length y.now ≤ 130 }
    requires name { blank.name ≡ L.name }
    requires parts { blank.parts ≡ L.parts }
    requires some { 0 < blank.parts }
{
    let mut steps = Steps::<L>::new(blank);
    let vars = d.store().order().len();
    if !is_live(d, n) || vars == 0 {
        return Err(StoreStop::OutOfMemory);
    }
    match operation {
        Operation::Sum => add(d, x, y, &mut steps),
        Operation::Negated => negate_where(d, x, n, &mut steps),
        Operation::Chosen => select(d, n, x, y, &mut steps),
        Operation::Fixed(bit) => fix(d, x, vars - 1, bit, &mut steps),
    }
}

// The width, and the values where the variables are the bits of 0 to 3.
fn tell_seen(d: &Diagrams, x: &Slices, page: &mut Page) {
    page.show(&x.width());
    let n = d.store().order().len();
    if !stands(d, x) || x.width() > 128 || n > 2 {
        return;
    }
    for place in 0..4u8 {
        if place < 1 << n {
            page.show(&value_at(d, x, &Bits::at_place(u128::from(place), n)));
        }
    }
}

// An answer, the same trimmed, and then halved, if all values are even.
fn tell_answer(d: &Diagrams, answer: Result<Slices, StoreStop>, page: &mut Page) {
    match answer {
        Ok(mut x) => {
            tell_seen(d, &x, page);
            tell_trimmed(d, &mut x, page);
        }
        Err(stop) => page.show(&stop),
    }
}

fn tell_trimmed(d: &Diagrams, x: &mut Slices, page: &mut Page) {
    if x.width() >= 1 {
        trim(x);
    }
    tell_seen(d, x, page);
    if x.width() >= 2 && all_even(x) {
        halve(x);
    }
    tell_seen(d, x, page);
}

// A value from -4 to 3, in three bits.
fn constant(alloc: Global, value: i128) -> Result<Slices, StoreStop> {
    let low = truth(value & 1 != 0);
    let middle = truth(value & 2 != 0);
    let sign = truth(value & 4 != 0);
    of_nodes(alloc, &[low, middle, sign])
}

// One constant where a node is false, and another one where it is true.
fn choice(
    alloc: Global,
    d: &mut Diagrams,
    n: Node,
    low: i128,
    high: i128,
) -> Result<Slices, StoreStop> {
    let x = constant(alloc, high)?;
    let y = constant(alloc, low)?;
    made(d, Operation::Chosen, n, &x, &y)
}

// The integer with the values of the next words where two variables are 00, 01, 10 and 11.
fn of_values(alloc: Global, d: &mut Diagrams, row: &mut Row<'_>) -> Result<Slices, StoreStop> {
    let x0 = variable(d, 0)?;
    let x1 = variable(d, 1)?;
    let first = choice(alloc, d, x1, row.number(), row.number())?;
    let second = choice(alloc, d, x1, row.number(), row.number())?;
    made(d, Operation::Chosen, x0, &second, &first)
}

// An operation on two integers.
fn tell_pair(d: &mut Diagrams, row: &mut Row<'_>, page: &mut Page) {
    let operation = operation_of(row.name());
    match (of_values(page.alloc, d, row), of_values(page.alloc, d, row)) {
        (Ok(x), Ok(y)) => {
            let n = variable(d, 0).unwrap_or(FALSE);
            let answer = made(d, operation, n, &x, &y);
            tell_answer(d, answer, page);
        }
        _ => page.text(" no integers"),
    }
}

// An operation on -2 and -2 in two bits, everywhere, and how many nodes are held.
fn tell_minus_two(d: &mut Diagrams, operation: Operation, page: &mut Page) {
    match minus_two(page.alloc) {
        Ok(x) => {
            let answer = made(d, operation, TRUE, &x, &x);
            tell_answer(d, answer, page);
        }
        Err(stop) => page.show(&stop),
    }
    page.show(&d.store().held());
}

fn minus_two(alloc: Global) -> Result<Slices, StoreStop> {
    let mut x = zero(alloc, 2)?;
    x.bits[1] = TRUE;
    Ok(x)
}

// 1 where the first variable is true, else -1; and the same with the last variable fixed to false.
fn tell_chosen(d: &mut Diagrams, page: &mut Page) {
    let n = variable(d, 0).unwrap_or(FALSE);
    match choice(page.alloc, d, n, -1, 1) {
        Ok(x) => {
            tell_seen(d, &x, page);
            let answer = made(d, Operation::Fixed(false), n, &x, &x);
            tell_answer(d, answer, page);
        }
        Err(stop) => page.show(&stop),
    }
}

// An operation on two variables, and how many nodes are held.
fn tell_stopped(d: &mut Diagrams, operation: Operation, page: &mut Page) {
    let answer = of_variables(page.alloc, d, operation);
    tell_answer(d, answer, page);
    page.show(&d.store().held());
}

fn of_variables(
    alloc: Global,
    d: &mut Diagrams,
    operation: Operation,
) -> Result<Slices, StoreStop> {
    let x0 = variable(d, 0)?;
    let x1 = variable(d, 1)?;
    let x = of_nodes(alloc, &[x0, FALSE])?;
    let y = of_nodes(alloc, &[x1, FALSE])?;
    made(d, operation, x1, &x, &y)
}
