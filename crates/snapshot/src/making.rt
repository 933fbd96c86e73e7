//! Nodes from lines of numbers, and integers from the numbers of nodes.
ghost use Rattle.std.specs.Prelude.{◌≡◌, ◌<◌, ◌≤◌, ◌+◌, ◌*◌, ◌++◌, ◌∷◌, [], ℕ, true, false, length, IfOk, OnOk, IfErr};
ghost use Rattle.std.specs.List.{All};
ghost use Rattle.diagram_model.specs.Stores.{held, IsAbove, IsLive, IsSound, Extends};
ghost use Rattle.slice_quad.specs.declared.coord.Coord.{Coord};
ghost use Rattle.slice_quad.specs.Fields.{numbers};
ghost use Rattle.slice_quad.specs.Fours.{nodes_of};
ghost use Rattle.snapshot.specs.Snapshots.{Snapshot, functions_in};
ghost use Rattle.snapshot.specs.Private.{functions};
ghost use Rattle.snapshot.specs.Making.{IsLine, IsMade, AreLinesOf, nodes_at, AreThere, OnBad};

use bit_lists::OutOfMemory;
use node_store::{FALSE, Node, Store, TRUE};
use slice_quad::Four;
use slice_vec::Slices;
use std::alloc::Global;
use std::sync::ledger::Ledger;
use steps::Steps;

/// Why there is no node, or no vector.
#[derive(Clone, Copy, Debug, PartialEq, Eq, Drop)]
pub enum MakeStop {
    /// The numbers are those of no snapshot.
    Bad,
    /// Memory was wanted and refused, or the store was full.
    OutOfMemory,
}

impl From<OutOfMemory> for MakeStop {
    ghost use Rattle.std.specs.Prelude.{◌≡◌};
    ghost use Rattle.snapshot.specs.declared.making.MakeStop.TheVariants as stops;

    ghost from_gives = { λ _ stop. stop ≡ stops.OutOfMemory };

    fn from(_: OutOfMemory) -> Self {
        MakeStop::OutOfMemory
    }
}

/// Whether a variable stands above a node.
fn is_below(store: &Store, var: u8, n: Node) -> bool
    requires var { var < length store.now.order }
    requires live { IsLive store.now n.0 }
    ensures above { result ≡ true → IsAbove store.now var n.0 }
    ensures other { result ≡ false → IsAbove store.now var n.0 → ⊥ }
{
    let _held = store.held();
    let Some(top) = store.top(n) else {
        return true;
    };
    let upper = store.place_of(var);
    let lower = store.place_of(top);
    if upper < lower {
        return true;
    }
    false
}

/// The node of a line: a variable, and the numbers of two nodes so far.
fn node_of<L: Ledger>(
    store: &mut Store,
    nodes: &[Node],
    var: u32,
    low: u32,
    high: u32,
    steps: &mut Steps<L>,
) -> Result<Node, MakeStop>
    requires live { All (λ n. IsLive store.old n.0) nodes.now }
    ensures made { IfOk result (λ n. IsMade store.new nodes.now var low high n.0) }
    ensures bad { IfErr result (OnBad (IsLine store.old nodes.now var low high → ⊥)) }
    ensures held { OnOk result (held store.new ≤ held store.old + 1) }
    ensures extends { Extends store.old store.new }
    ensures sound { IsSound store.new }
{
    let _held = store.held();
    let vars = u32::from(store.order().len());
    if var >= vars {
        return Err(MakeStop::Bad);
    }
    if low as usize >= nodes.len() {
        return Err(MakeStop::Bad);
    }
    if high as usize >= nodes.len() {
        return Err(MakeStop::Bad);
    }
    let left = nodes[low as usize];
    let right = nodes[high as usize];
    if !is_below(store, var as u8, left) {
        return Err(MakeStop::Bad);
    }
    if !is_below(store, var as u8, right) {
        return Err(MakeStop::Bad);
    }
    match store.make(var as u8, left, right, steps) {
        Ok(node) => Ok(node),
        Err(_) => Err(MakeStop::OutOfMemory),
    }
}

/// FALSE and TRUE.
fn constants(alloc: Global) -> Result<Vec<Node>, OutOfMemory>
    ensures { IfOk result (λ v. numbers v.items ≡ 0 ∷ 1 ∷ []) }
{
    let mut nodes = Vec::new(alloc);
    add(&mut nodes, FALSE)?;
    add(&mut nodes, TRUE)?;
    Ok(nodes)
}

/// Adds a node at the end.
fn add(nodes: &mut Vec<Node>, n: Node) -> Result<(), OutOfMemory>
    ensures { OnOk result (nodes.new.items ≡ nodes.old.items ++ n ∷ []) }
{
    nodes.push(n)?;
    Ok(())
}

/// The constants and the nodes of lines, by number. Each line has three numbers; its node is made over those before it.
///
/// `Bad` comes where a line is that of no node.
pub fn nodes_of<L: Ledger>(
    alloc: Global,
    store: &mut Store,
    lines: &[u32],
    steps: &mut Steps<L>,
) -> Result<Vec<Node>, MakeStop>
    requires threes { (m : ℕ) × (length lines.now ≡ 3 * m) }
    ensures live { IfOk result (λ v. All (λ n. IsLive store.new n.0) v.items) }
    ensures told { IfOk result (λ v. (s : Snapshot) → AreLinesOf store.old.order lines.now s → functions store.new (numbers v.items) ≡ functions_in s) }
    ensures bad { IfErr result (OnBad ((s : Snapshot) → AreLinesOf store.old.order lines.now s → ⊥)) }
    ensures held { OnOk result (3 * held store.new ≤ 3 * held store.old + length lines.now) }
    ensures extends { Extends store.old store.new }
    ensures sound { IsSound store.new }
{
    let _held = store.held();
    let mut nodes = constants(alloc)?;
    for i in 0..lines.len() / 3 {
        let node = node_of(
            store,
            &nodes,
            lines[3 * i],
            lines[3 * i + 1],
            lines[3 * i + 2],
            steps,
        )?;
        add(&mut nodes, node)?;
    }
    Ok(nodes)
}

/// The integer of the nodes with these numbers. `Bad` comes where a number is that of no node.
fn integer(alloc: Global, nodes: &[Node], bits: &[u32]) -> Result<Slices, MakeStop>
    ensures nodes { IfOk result (λ x. x ≡ nodes_at nodes.now bits.now) }
    ensures there { OnOk result (AreThere nodes.now bits.now) }
    ensures bad { IfErr result (OnBad (AreThere nodes.now bits.now → ⊥)) }
{
    let mut out = Vec::new(alloc);
    for i in bits {
        if *i as usize >= nodes.len() {
            return Err(MakeStop::Bad);
        }
        add(&mut out, nodes[*i as usize])?;
    }
    Ok(Slices { bits: out })
}

/// Four integers of one width, from the numbers of all their nodes. `Bad` comes where a number is that of no node.
pub fn four_of(alloc: Global, nodes: &[Node], bits: &[u32], width: usize) -> Result<Four, MakeStop>
    requires long { length bits.now ≡ 4 * width }
    ensures nodes { IfOk result (λ f. f.a ++ f.b ++ f.c ++ f.d ≡ nodes_at nodes.now bits.now) }
    ensures width { IfOk result (λ f. (z : Coord) → length (nodes_of f z) ≡ width) }
    ensures there { OnOk result (AreThere nodes.now bits.now) }
    ensures bad { IfErr result (OnBad (AreThere nodes.now bits.now → ⊥)) }
{
    let (low, high) = bits.split_at(2 * width);
    let (a, b) = pair_of(alloc, nodes, low, width)?;
    let (c, d) = pair_of(alloc, nodes, high, width)?;
    Ok(Four { a, b, c, d })
}

/// Two integers of one width.
fn pair_of(
    alloc: Global,
    nodes: &[Node],
    bits: &[u32],
    width: usize,
) -> Result<(Slices, Slices), MakeStop>
    requires long { length bits.now ≡ 2 * width }
    ensures nodes { IfOk result (λ f. f.0 ++ f.1 ≡ nodes_at nodes.now bits.now) }
    ensures first { IfOk result (λ f. length f.0 ≡ width) }
    ensures second { IfOk result (λ f. length f.1 ≡ width) }
    ensures there { OnOk result (AreThere nodes.now bits.now) }
    ensures bad { IfErr result (OnBad (AreThere nodes.now bits.now → ⊥)) }
{
    let (low, high) = bits.split_at(width);
    let first = integer(alloc, nodes, low)?;
    let second = integer(alloc, nodes, high)?;
    Ok((first, second))
}
