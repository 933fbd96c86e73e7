//! Connectives of three nodes with a variable flipped in the second one, in one walk.
ghost use Rattle.std.specs.Prelude.{◌≡◌, ◌⊎◌, ◌<◌, ◌≤◌, IfOk, IfErr, IfSome, IfNone, length};
ghost use Rattle.diagram_model.specs.Stores.{IsSound};
ghost use Rattle.diagram_ops.specs.Ends.{Answers, Stops};
ghost use Rattle.diagram_ops.specs.Flips.{flip, flipping, half_of, turned_at, IsKept};
ghost use Rattle.diagram_ops.specs.Operands.{AreLive};
ghost use Rattle.diagram_ops.specs.Operations.{IsResult, AreResults, kept_in};

use crate::operands::Operands;
use crate::short::short_cut;
use crate::split::{Seen, Split};
use memos::Memo;
use node_store::{Node, Store, StoreStop};
use std::sync::ledger::Ledger;
use steps::Steps;

/// The parts of three nodes, those of the second one exchanged where a variable is split.
fn turned(split: Split, var: u8) -> Split
    ensures { result ≡ turned_at var split }
{
    if split.var != var {
        return split;
    }
    Split {
        var: split.var,
        low: Operands {
            f: split.low.f,
            g: split.high.g,
            h: split.low.h,
        },
        high: Operands {
            f: split.high.f,
            g: split.low.g,
            h: split.high.h,
        },
    }
}

/// The four bits of a table that FALSE or TRUE in the first place leaves.
fn half(table: u8, f: u32) -> u8
    ensures { result ≡ half_of table f }
{
    if f == 0 { table % 16 } else { table / 16 }
}

/// The connective where the first node is a constant that leaves FALSE or the third.
fn short_above(table: u8, at: Operands) -> Option<u32>
    ensures { IfSome result (IsKept table at.f at.h) }
{
    if at.f >= 2 {
        return None;
    }
    let half = half(table, at.f);
    if half == 0 {
        return Some(0);
    }
    if half == 10 {
        return Some(at.h);
    }
    None
}

/// The connective where it needs no new node: the second node is not asked, or the variable is passed.
fn short_flipped(store: &Store, table: u8, var: u8, at: Operands) -> Option<u32>
    requires sound { IsSound store.now }
    requires live { AreLive store.now at }
    requires var { var < length store.now.order }
    ensures short { IfSome result (λ n. IsResult (flipping table var) store.now at n) }
    ensures some { IfNone result ((2 ≤ at.f) ⊎ ((2 ≤ at.g) ⊎ (2 ≤ at.h))) }
{
    let seen = Seen::new(store, at.g);
    let place = store.place_of(var) as u16;
    if place < seen.place {
        return short_cut(table, at);
    }
    short_above(table, at)
}

/// The connective of three nodes by a table, a variable flipped in the second one, with a memo of the
/// results of this call.
///
/// A step is taken for each triple of nodes that is met, once, and that no short cut answers.
pub fn connect_flipped<L: Ledger>(
    store: &mut Store,
    memo: &mut Memo,
    table: u8,
    var: u8,
    at: Operands,
    steps: &mut Steps<L>,
) -> Result<Node, StoreStop>
    requires sound { IsSound store.old }
    requires live { AreLive store.old at }
    requires var { var < length store.old.order }
    requires results { AreResults (flipping table var) store.old (kept_in memo.old) }
    ensures answers { IfOk result (λ n. Answers (flipping table var) (flip var) at store.old store.new (kept_in memo.old) (kept_in memo.new) steps.old steps.new n.0) }
    ensures stops { IfErr result (Stops (flipping table var) (flip var) at store.old store.new (kept_in memo.old) (kept_in memo.new) steps.old steps.new) }
{
    if let Some(short) = short_flipped(store, table, var, at) {
        return Ok(Node(short));
    }
    if let Some(node) = memo.find(at.f, at.g, at.h) {
        return Ok(Node(node));
    }
    let whole = Split::new(store, at);
    let split = turned(whole, var);
    let low = connect_flipped(store, memo, table, var, split.low, steps)?;
    let high = connect_flipped(store, memo, table, var, split.high, steps)?;
    let node = store.make(split.var, low, high, steps)?;
    memo.add(at.f, at.g, at.h, node.0)?;
    Ok(node)
}
