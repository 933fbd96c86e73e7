//! All nodes of the upper variable that have a child of the lower one.
ghost use Rattle.std.specs.Prelude.{◌≡◌, ◌+◌, ◌*◌, ◌<◌, ◌≤◌, true, false, length, IfOk, OnOk, OnErr};
ghost use Rattle.bit_lists.specs.Orders.{exchanged};
ghost use Rattle.diagram_model.specs.Stores.{held, IsSound, KeepsFunctions};
ghost use Rattle.node_store.specs.Slots.{IsSlotted, nodes_of, spare_of};
ghost use Rattle.level_swap.specs.Rewriting.{AreCrossing, AreTopPair, Crosses, CrossesNot, IsRewrittenLevel};
ghost use Rattle.level_swap.specs.Swaps.{level_nodes, variable_at, AreSwapped};

use crate::nodes::{cross, crossing};
use bit_lists::OutOfMemory;
use node_store::{Node, Slots};

/// Whether a node has the upper variable and a child of the lower one.
fn is_crossing(slots: &Slots, upper: u8, lower: u8, n: u32) -> bool
    ensures yes { result ≡ true → Crosses slots.now.diagram.slots upper lower n }
    ensures no { result ≡ false → CrossesNot slots.now.diagram.slots upper lower n }
{
    crossing(slots, upper, lower, Node(n)).is_some()
}

/// The nodes of the upper variable that have a child of the lower one.
fn crossing_nodes(slots: &Slots, upper: u8, lower: u8) -> Result<Vec<u32>, OutOfMemory>
    requires { upper < length slots.now.diagram.order }
    ensures { IfOk result (λ ns. AreCrossing slots.now.diagram upper lower ns.items) }
{
    let mut numbers = slots.numbers_of(upper)?;
    numbers.retain(|n| is_crossing(slots, upper, lower, *n));
    Ok(numbers)
}

/// Makes room for the new nodes of both variables.
fn reserve_both(slots: &mut Slots, upper: u8, lower: u8, more: u32) -> Result<(), OutOfMemory>
    requires upper { upper < length slots.old.diagram.order }
    requires lower { lower < length slots.old.diagram.order }
    ensures upper { OnOk result (more ≤ spare_of slots.new upper) }
    ensures lower { OnOk result (more ≤ spare_of slots.new lower) }
    ensures kept { slots.new.diagram ≡ slots.old.diagram }
{
    slots.reserve(upper, more)?;
    slots.reserve(lower, more)?;
    Ok(())
}

/// Rewrites the nodes of a list that have the upper variable and a child of the lower one.
fn rewrite_nodes(slots: &mut Slots, upper: u8, lower: u8, numbers: &[u32])
    requires upper { upper < length slots.old.diagram.order }
    requires lower { lower < length slots.old.diagram.order }
    requires pair { AreTopPair slots.old.diagram.slots upper lower }
    requires crossing { AreCrossing slots.old.diagram upper lower numbers.now }
    requires spare_upper { 3 * length numbers.now ≤ spare_of slots.old upper }
    requires spare_lower { 3 * length numbers.now ≤ spare_of slots.old lower }
    requires room { held slots.old.diagram + 2 * length numbers.now ≤ slots.old.diagram.limit }
    ensures rewritten { IsRewrittenLevel slots.old.diagram.slots slots.new.diagram.slots upper lower }
    ensures held { held slots.new.diagram ≤ held slots.old.diagram + 2 * length numbers.now }
    ensures order { slots.new.diagram.order ≡ slots.old.diagram.order }
    ensures limit { slots.new.diagram.limit ≡ slots.old.diagram.limit }
    ensures made { slots.new.diagram.made ≡ slots.old.diagram.made }
    ensures slotted { IsSlotted slots.new.diagram }
{
    let _held = slots.held();
    for number in numbers {
        let n = Node(*number);
        match crossing(slots, upper, lower, n) {
            Some(p) => cross(slots, upper, lower, n, p),
            None => (),
        }
    }
}

/// Exchanges the variables at a place of the order and at the next one.
pub(crate) fn swap_level(slots: &mut Slots, level: u8) -> Result<(), OutOfMemory>
    requires level { level + 1 < length slots.old.diagram.order }
    requires room { held slots.old.diagram + 4 * level_nodes slots.old.diagram level ≤ slots.old.diagram.limit }
    requires sound { IsSound slots.old.diagram }
    ensures order { OnOk result (slots.new.diagram.order ≡ exchanged slots.old.diagram.order level) }
    ensures functions { KeepsFunctions slots.old.diagram slots.new.diagram }
    ensures swapped { OnOk result (AreSwapped slots.old.diagram.slots slots.new.diagram.slots (variable_at slots.old.diagram level) (variable_at slots.old.diagram (level + 1))) }
    ensures few { held slots.new.diagram ≤ held slots.old.diagram + 2 * level_nodes slots.old.diagram level }
    ensures limit { slots.new.diagram.limit ≡ slots.old.diagram.limit }
    ensures made { slots.new.diagram.made ≡ slots.old.diagram.made }
    ensures refused { OnErr result (slots.new.diagram ≡ slots.old.diagram) }
    ensures sound { IsSound slots.new.diagram }
{
    let order = slots.order();
    let upper = order.at(level);
    let lower = order.at(level + 1);
    let numbers = crossing_nodes(slots, upper, lower)?;
    reserve_both(slots, upper, lower, 3 * numbers.len() as u32)?;
    rewrite_nodes(slots, upper, lower, &numbers);
    slots.exchange(level);
    Ok(())
}
