//! Cofactors: what is left of a function once a variable is fixed.
ghost use Rattle.std.specs.Prelude.{◌≡◌, ◌<◌, ◌∷◌, [], ◌++◌, ℕ, None, IfOk, OnOk, IfErr, length, slice_index_or};
ghost use Rattle.diagram_model.specs.Stores.{IsSound, IsLive, Extends};
ghost use Rattle.diagram_ops.specs.Bounds.{size_in, TakesAtMost};
ghost use Rattle.diagram_ops.specs.Cofactors.{numbers_of, functions_of, AreAllLive, InCofactors, AreCofactors};
ghost use Rattle.diagram_ops.specs.Ends.{Answers, Stops};
ghost use Rattle.diagram_ops.specs.Made.{MakesOnly, StopIs};
ghost use Rattle.diagram_ops.specs.Marks.{result_for};
ghost use Rattle.diagram_ops.specs.Operands.{alone};
ghost use Rattle.diagram_ops.specs.Operations.{restricted, AreResults, fixed_in};
ghost use Rattle.diagram_ops.specs.Taken.{plain};

use crate::node_memo::NodeMemo;
use crate::split::Seen;
use bit_lists::OutOfMemory;
use node_store::{Node, Store, StoreStop};
use std::alloc::Global;
use std::sync::ledger::Ledger;
use steps::Steps;

/// The function of a node with a variable fixed, with a memo of the results of this call.
///
/// A step is taken for each node above the variable that is met, once.
pub fn restrict<L: Ledger>(
    store: &mut Store,
    memo: &mut NodeMemo,
    var: u8,
    bit: bool,
    f: u32,
    steps: &mut Steps<L>,
) -> Result<Node, StoreStop>
    requires sound { IsSound store.old }
    requires live { IsLive store.old f }
    requires var { var < length store.old.order }
    requires results { AreResults (restricted var bit) store.old (fixed_in memo.old) }
    ensures answers { IfOk result (λ n. Answers (restricted var bit) plain (alone f) store.old store.new (fixed_in memo.old) (fixed_in memo.new) steps.old steps.new n.0) }
    ensures stops { IfErr result (Stops (restricted var bit) plain (alone f) store.old store.new (fixed_in memo.old) (fixed_in memo.new) steps.old steps.new) }
{
    let seen = Seen::new(store, f);
    let place = store.place_of(var) as u16;
    if seen.place >= place {
        return Ok(Node(seen.child(place, bit)));
    }
    if let Some(node) = memo.find(f) {
        return Ok(Node(node));
    }
    let low = restrict(store, memo, var, bit, seen.low, steps)?;
    let high = restrict(store, memo, var, bit, seen.high, steps)?;
    let node = store.make(seen.var, low, high, steps)?;
    memo.add(f, node.0)?;
    Ok(node)
}

/// The node at a place of a list.
fn node_at(fs: &[Node], place: usize) -> u32
    requires { place < length fs.now }
    ensures { result ≡ slice_index_or (numbers_of fs.now) place 0 }
{
    fs[place].0
}

/// An empty list with room.
fn with_room(alloc: Global, room: usize) -> Result<Vec<Node>, OutOfMemory>
    ensures { IfOk result (λ ns. ns.items ≡ []) }
{
    Ok(Vec::with_capacity(alloc, room)?)
}

fn push(nodes: &mut Vec<Node>, node: Node) -> Result<(), OutOfMemory>
    ensures { OnOk result (nodes.new.items ≡ nodes.old.items ++ node ∷ []) }
{
    nodes.push(node)?;
    Ok(())
}

/// The functions of nodes with a variable fixed, with one memo for all.
///
/// A step is taken for each node above the variable that is met, once for the whole list.
pub fn restrict_all<L: Ledger>(
    alloc: Global,
    store: &mut Store,
    memo: &mut NodeMemo,
    var: u8,
    bit: bool,
    fs: &[Node],
    steps: &mut Steps<L>,
) -> Result<Vec<Node>, StoreStop>
    requires sound { IsSound store.old }
    requires live { AreAllLive store.old (numbers_of fs.now) }
    requires var { var < length store.old.order }
    requires none { (n : ℕ) → result_for memo.old n ≡ None }
    ensures sound { IsSound store.new }
    ensures extends { Extends store.old store.new }
    ensures fixed { IfOk result (λ ns. AreCofactors var bit store.old store.new (numbers_of fs.now) (numbers_of ns.items)) }
    ensures made { MakesOnly store.old store.new (InCofactors var bit store.old (numbers_of fs.now)) }
    ensures stop { IfErr result (StopIs store.new (InCofactors var bit store.old (numbers_of fs.now))) }
    ensures steps { TakesAtMost (size_in store.old (functions_of store.old (numbers_of fs.now))) store.old store.new steps.old steps.new }
{
    let mut nodes = with_room(alloc, fs.len())?;
    for i in 0..fs.len() {
        let node = restrict(store, memo, var, bit, node_at(fs, i), steps)?;
        push(&mut nodes, node)?;
    }
    Ok(nodes)
}
