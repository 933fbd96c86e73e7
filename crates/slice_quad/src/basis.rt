//! The vector of a basis state.
ghost use Rattle.std.specs.Prelude.{◌≡◌, ◌<◌, ◌≤◌, ◌∷◌, [], cond, length, replicate, IfOk, IfErr, OnOk};
ghost use Rattle.diagram_model.specs.Stores.{held, IsSound, Extends};
ghost use Rattle.diagram_ops.specs.Diagrams.{IsConsistent};
ghost use Rattle.slice_quad.specs.Started.{IsBuilt, IsStart, StartStopIs};

use crate::four::Four;
use crate::quad::SliceQuad;
use bit_lists::{Bits, OutOfMemory};
use diagram_ops::Diagrams;
use node_store::{FALSE, Node, Store, StoreStop, TRUE};
use slice_vec::{Slices, zero};
use std::alloc::Global;
use std::marker::Brand;
use std::sync::ledger::{Blank, Ledger};
use steps::Steps;

/// The vector that is 1 at `x` and 0 elsewhere, over √2 to the power 0.
///
/// Makes exactly one node a variable. `Full` comes exactly where that is more than the limit.
pub fn start(alloc: Global, d: &mut Diagrams, x: &Bits) -> Result<SliceQuad, StoreStop>
    requires empty { held d.old.store ≡ 0 }
    requires len { length x.now ≡ length d.old.store.order }
    ensures start { IfOk result (IsStart d.new.store x.now) }
    ensures full { IfErr result (StartStopIs d.old.store (length x.now)) }
    ensures room { OnOk result (length x.now ≤ d.old.store.limit) }
    ensures extends { Extends d.old.store d.new.store }
    ensures capacity { d.new.cache.capacity ≡ d.old.cache.capacity }
    ensures sound { IsConsistent d.new }
{
    start_counted::<Brand>(alloc, d, x, Blank::new(1))
}

fn start_counted<L: Ledger>(
    alloc: Global,
    d: &mut Diagrams,
    x: &Bits,
    blank: Blank,
) -> Result<SliceQuad, StoreStop>
    requires empty { held d.old.store ≡ 0 }
    requires len { length x.now ≡ length d.old.store.order }
    requires name { blank.name ≡ L.name }
    requires parts { blank.parts ≡ L.parts }
    requires some { 0 < blank.parts }
    ensures start { IfOk result (IsStart d.new.store x.now) }
    ensures full { IfErr result (StartStopIs d.old.store (length x.now)) }
    ensures room { OnOk result (length x.now ≤ d.old.store.limit) }
    ensures extends { Extends d.old.store d.new.store }
    ensures capacity { d.new.cache.capacity ≡ d.old.cache.capacity }
    ensures sound { IsConsistent d.new }
{
    let mut steps = Steps::<L>::new(blank);
    d.forget();
    let node = basis_node(d.lend(), x, &mut steps)?;
    let four = four_of(alloc, node)?;
    let _cached = d.cached();
    Ok(SliceQuad {
        four,
        exponent: 0,
        kept: FALSE,
    })
}

/// 1 where a node is true, and 0 elsewhere.
pub fn four_of(alloc: Global, node: Node) -> Result<Four, OutOfMemory>
    ensures a { IfOk result (λ f. f.a ≡ replicate 2 0) }
    ensures b { IfOk result (λ f. f.b ≡ replicate 2 0) }
    ensures c { IfOk result (λ f. f.c ≡ replicate 2 0) }
    ensures d { IfOk result (λ f. f.d ≡ node.0 ∷ 0 ∷ []) }
{
    let a = zero(alloc, 2)?;
    let b = zero(alloc, 2)?;
    let c = zero(alloc, 2)?;
    let d = one_where(alloc, node)?;
    Ok(Four { a, b, c, d })
}

/// The integer that is 1 where a node is true, and 0 elsewhere.
fn one_where(alloc: Global, node: Node) -> Result<Slices, OutOfMemory>
    ensures { IfOk result (λ z. z ≡ node.0 ∷ 0 ∷ []) }
{
    let mut bits = Vec::new(alloc);
    bits.push(node)?;
    bits.push(FALSE)?;
    Ok(Slices { bits })
}

/// The child for 0 of a node that is true where the variable is `bit` and `node` is true.
fn low_of(bit: bool, node: Node) -> Node
    ensures { result.0 ≡ cond bit 0 node.0 }
{
    if bit { FALSE } else { node }
}

/// Its child for 1.
fn high_of(bit: bool, node: Node) -> Node
    ensures { result.0 ≡ cond bit node.0 0 }
{
    if bit { node } else { FALSE }
}

/// The node that is true at `x` alone, made from the last variable of the order up: one node a variable.
pub fn basis_node<L: Ledger>(
    store: &mut Store,
    x: &Bits,
    steps: &mut Steps<L>,
) -> Result<Node, StoreStop>
    requires empty { held store.old ≡ 0 }
    requires len { length x.now ≡ length store.old.order }
    ensures built { IfOk result (λ n. IsBuilt store.old store.new x.now 0 n.0) }
    ensures full { IfErr result (StartStopIs store.old (length x.now)) }
    ensures room { OnOk result (length x.now ≤ store.old.limit) }
    ensures extends { Extends store.old store.new }
    ensures sound { IsSound store.new }
{
    let _held = store.held();
    let order = store.order();
    let mut node = TRUE;
    for i in 0..order.len() {
        let var = order.at(order.len() - 1 - i);
        let bit = x.get(var);
        node = store.make(var, low_of(bit, node), high_of(bit, node), steps)?;
    }
    Ok(node)
}
