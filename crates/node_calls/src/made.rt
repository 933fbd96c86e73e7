//! Connectives and cofactors of nodes that are there.
ghost use Rattle.std.specs.Prelude.{◌≡◌, ◌<◌, length};
ghost use Rattle.diagram_model.specs.Stores.{IsLive};

use crate::live::is_live;
use diagram_ops::Diagrams;
use node_store::{Node, StoreStop};
use std::marker::Brand;
use std::sync::ledger::{Blank, Ledger};
use steps::Steps;

/// A variable as a node.
pub fn variable_node(d: &mut Diagrams, var: u8) -> Result<Node, StoreStop> {
    if var < d.store().order().len() {
        d.variable(var)
    } else {
        Err(StoreStop::OutOfMemory)
    }
}

// A connective by a table that is named in the program.
fn applied_named<const T: u8, L: Ledger>(
    d: &mut Diagrams,
    [f, g, h]: [Node; 3],
    steps: &mut Steps<L>,
) -> Result<Node, StoreStop> {
    if is_live(d.store(), f) && is_live(d.store(), g) && is_live(d.store(), h) {
        d.apply3::<T, _>(f, g, h, steps)
    } else {
        Err(StoreStop::OutOfMemory)
    }
}

// A connective by one of the tables of this repository's calls.
fn applied_counted<L: Ledger>(
    d: &mut Diagrams,
    table: u8,
    at: [Node; 3],
    blank: Blank,
) -> Result<Node, StoreStop>
    requires name { blank.name ≡ L.name }
    requires parts { blank.parts ≡ L.parts }
    requires some { 0 < blank.parts }
{
    let mut steps = Steps::<L>::new(blank);
    match table {
        15 => applied_named::<15, _>(d, at, &mut steps),
        48 => applied_named::<48, _>(d, at, &mut steps),
        60 => applied_named::<60, _>(d, at, &mut steps),
        150 => applied_named::<150, _>(d, at, &mut steps),
        172 => applied_named::<172, _>(d, at, &mut steps),
        192 => applied_named::<192, _>(d, at, &mut steps),
        202 => applied_named::<202, _>(d, at, &mut steps),
        207 => applied_named::<207, _>(d, at, &mut steps),
        232 => applied_named::<232, _>(d, at, &mut steps),
        252 => applied_named::<252, _>(d, at, &mut steps),
        _ => Err(StoreStop::OutOfMemory),
    }
}

/// A connective of three functions by a table.
pub fn applied(d: &mut Diagrams, table: u8, at: [Node; 3]) -> Result<Node, StoreStop> {
    applied_counted::<Brand>(d, table, at, Blank::new(1))
}

fn fixed_counted<L: Ledger>(
    d: &mut Diagrams,
    n: Node,
    var: u8,
    bit: bool,
    blank: Blank,
) -> Result<Node, StoreStop>
    requires live { IsLive d.old.store n.0 }
    requires var { var < length d.old.store.order }
    requires name { blank.name ≡ L.name }
    requires parts { blank.parts ≡ L.parts }
    requires some { 0 < blank.parts }
{
    let mut steps = Steps::<L>::new(blank);
    d.cofactor(n, var, bit, &mut steps)
}

/// A function with a variable fixed.
pub fn fixed(d: &mut Diagrams, n: Node, var: u8, bit: bool) -> Result<Node, StoreStop> {
    if var < d.store().order().len() && is_live(d.store(), n) {
        fixed_counted::<Brand>(d, n, var, bit, Blank::new(1))
    } else {
        Err(StoreStop::OutOfMemory)
    }
}
