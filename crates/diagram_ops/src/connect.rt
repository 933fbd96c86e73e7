//! Connectives of three nodes of a store.
ghost use Rattle.std.specs.Prelude.{◌≡◌, IfOk, OnOk, OnErr, IfErr, Some, None};
ghost use Rattle.diagram_ops.specs.declared.operands.Operands.{Operands};
ghost use Rattle.diagram_model.specs.Stores.{IsSound};
ghost use Rattle.diagram_ops.specs.Connectives.{connected};
ghost use Rattle.diagram_ops.specs.Ends.{Answers, Stops};
ghost use Rattle.diagram_ops.specs.Keys.{keyed};
ghost use Rattle.diagram_ops.specs.Operands.{AreLive};
ghost use Rattle.diagram_ops.specs.Operations.{AreResults, AreOther, kept_under};
ghost use Rattle.diagram_ops.specs.Taken.{plain};

use crate::operands::Operands;
use crate::short::short_cut;
use crate::split::Split;
use bit_lists::OutOfMemory;
use memos::Memo;
use node_store::{Node, Store, StoreStop};
use std::sync::ledger::Ledger;
use steps::Steps;

/// The result that is kept for three nodes.
fn look(memo: &Memo, table: u8, at: Operands) -> Option<u32>
    ensures { result ≡ kept_under table memo.now at }
{
    let key = at.keyed(table);
    memo.find(key.f, key.g, key.h)
}

/// Keeps a result for three nodes that have none.
fn keep(memo: &mut Memo, table: u8, at: Operands, node: u32) -> Result<(), OutOfMemory>
    requires new { kept_under table memo.old at ≡ None }
    ensures here { OnOk result (kept_under table memo.new at ≡ Some node) }
    ensures others { (to : Operands) → AreOther (keyed table at) (keyed table to) → kept_under table memo.new to ≡ kept_under table memo.old to }
    ensures err { OnErr result (memo.new ≡ memo.old) }
{
    let key = at.keyed(table);
    memo.add(key.f, key.g, key.h, node)
}

/// The connective of three nodes by a table, with a memo of the results of this call.
///
/// A step is taken for each triple of nodes that is met, once, and that no short cut answers.
pub fn connect<L: Ledger>(
    store: &mut Store,
    memo: &mut Memo,
    table: u8,
    at: Operands,
    steps: &mut Steps<L>,
) -> Result<Node, StoreStop>
    requires sound { IsSound store.old }
    requires live { AreLive store.old at }
    requires results { AreResults (connected table) store.old (kept_under table memo.old) }
    ensures answers { IfOk result (λ n. Answers (connected table) plain at store.old store.new (kept_under table memo.old) (kept_under table memo.new) steps.old steps.new n.0) }
    ensures stops { IfErr result (Stops (connected table) plain at store.old store.new (kept_under table memo.old) (kept_under table memo.new) steps.old steps.new) }
{
    if let Some(short) = short_cut(table, at) {
        return Ok(Node(short));
    }
    if let Some(node) = look(memo, table, at) {
        return Ok(Node(node));
    }
    let split = Split::new(store, at);
    let low = connect(store, memo, table, split.low, steps)?;
    let high = connect(store, memo, table, split.high, steps)?;
    let node = store.make(split.var, low, high, steps)?;
    keep(memo, table, at, node.0)?;
    Ok(node)
}
