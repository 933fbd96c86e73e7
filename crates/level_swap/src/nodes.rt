//! One node of the upper variable with a child of the lower one.
ghost use Rattle.std.specs.Prelude.{◌≡◌, ◌≢◌, ℕ, ◌+◌, ◌<◌, ◌≤◌, true, false, Some, length, IfSome, IfNone};
ghost use Rattle.diagram_model.specs.declared.parts.Parts.{Parts};
ghost use Rattle.diagram_model.specs.Nodes.{parts_of, follow};
ghost use Rattle.diagram_model.specs.Stores.{held};
ghost use Rattle.node_store.specs.Slots.{IsSlotted, parts, spare_of};
ghost use Rattle.level_swap.specs.Rewriting.{GrowsBy, IsCrossing, IsUnderway, StaysUnderway, StaysUsed, CrossesNot};
ghost use Rattle.level_swap.specs.Swaps.{HasVariable, LacksVariable, IsNodeOf};

use diagram_model::Parts;
use node_store::{Node, Slots};

/// What is left of a node once a variable is fixed either way.
#[derive(Clone, Copy, Drop)]
struct Sides {
    when_false: Node,
    when_true: Node,
}

/// What is left of `n` once a variable is fixed either way.
fn followed(slots: &Slots, var: u8, n: u32) -> Sides
    ensures when_false { result.when_false.0 ≡ follow slots.now.diagram.slots var false n }
    ensures when_true { result.when_true.0 ≡ follow slots.now.diagram.slots var true n }
{
    match slots.parts_of(Node(n)) {
        Some(parts) => {
            if parts.var == var {
                Sides {
                    when_false: Node(parts.low),
                    when_true: Node(parts.high),
                }
            } else {
                Sides {
                    when_false: Node(n),
                    when_true: Node(n),
                }
            }
        }
        None => Sides {
            when_false: Node(n),
            when_true: Node(n),
        },
    }
}

/// Whether a node has a variable.
fn has_variable(slots: &Slots, var: u8, n: u32) -> bool
    ensures yes { result ≡ true → HasVariable slots.now.diagram.slots var n }
    ensures no { result ≡ false → LacksVariable slots.now.diagram.slots var n }
{
    match slots.parts_of(Node(n)) {
        Some(parts) => parts.var == var,
        None => false,
    }
}

/// The parts of a node of the upper variable that has a child of the lower one.
pub(crate) fn crossing(slots: &Slots, upper: u8, lower: u8, n: Node) -> Option<Parts>
    ensures some { IfSome result (IsCrossing slots.now.diagram.slots upper lower n.0) }
    ensures none { IfNone result (CrossesNot slots.now.diagram.slots upper lower n.0) }
{
    let parts = slots.parts_of(n)?;
    if parts.var != upper {
        return None;
    }
    if has_variable(slots, lower, parts.low) || has_variable(slots, lower, parts.high) {
        return Some(parts);
    }
    None
}

/// The node of a variable with these children, or the child where they are the same.
fn node_of(slots: &mut Slots, var: u8, low: Node, high: Node) -> Node
    requires var { var < length slots.old.diagram.order }
    requires spare { 1 ≤ spare_of slots.old var }
    requires room { held slots.old.diagram < slots.old.diagram.limit }
    ensures node { IsNodeOf slots.new.diagram.slots var low.0 high.0 result.0 }
    ensures grows { GrowsBy slots.old.diagram.slots slots.new.diagram.slots (parts var low.0 high.0) }
    ensures held { held slots.new.diagram ≤ held slots.old.diagram + 1 }
    ensures order { slots.new.diagram.order ≡ slots.old.diagram.order }
    ensures limit { slots.new.diagram.limit ≡ slots.old.diagram.limit }
    ensures made { slots.new.diagram.made ≡ slots.old.diagram.made }
    ensures spares { (v : ℕ) → spare_of slots.old v ≤ spare_of slots.new v + 1 }
    ensures slotted { IsSlotted slots.new.diagram }
{
    let _held = slots.held();
    if low.0 == high.0 {
        return low;
    }
    if let Some(node) = slots.find(var, low, high) {
        return node;
    }
    slots.add(var, low, high)
}

/// Gives a node of the upper variable the parts of a node of the lower one.
pub(crate) fn cross(slots: &mut Slots, upper: u8, lower: u8, n: Node, p: Parts)
    requires upper { upper < length slots.old.diagram.order }
    requires lower { lower < length slots.old.diagram.order }
    requires crossing { IsCrossing slots.old.diagram.slots upper lower n.0 p }
    requires underway { IsUnderway slots.old.diagram.slots upper lower }
    requires spare_upper { 3 ≤ spare_of slots.old upper }
    requires spare_lower { 3 ≤ spare_of slots.old lower }
    requires room { held slots.old.diagram + 2 ≤ slots.old.diagram.limit }
    ensures underway { StaysUnderway slots.old.diagram.slots slots.new.diagram.slots upper lower }
    ensures used { StaysUsed slots.old.diagram.slots slots.new.diagram.slots upper lower }
    ensures moved { HasVariable slots.new.diagram.slots lower n.0 }
    ensures stays { (m : ℕ) (q : Parts) → m ≢ n.0 → parts_of slots.old.diagram.slots m ≡ Some q → parts_of slots.new.diagram.slots m ≡ Some q }
    ensures held { held slots.new.diagram ≤ held slots.old.diagram + 2 }
    ensures order { slots.new.diagram.order ≡ slots.old.diagram.order }
    ensures limit { slots.new.diagram.limit ≡ slots.old.diagram.limit }
    ensures made { slots.new.diagram.made ≡ slots.old.diagram.made }
    ensures spares { (v : ℕ) → spare_of slots.old v ≤ spare_of slots.new v + 3 }
    ensures slotted { IsSlotted slots.new.diagram }
{
    let _held = slots.held();
    let low = followed(slots, lower, p.low);
    let high = followed(slots, lower, p.high);
    let when_false = node_of(slots, upper, low.when_false, high.when_false);
    let when_true = node_of(slots, upper, low.when_true, high.when_true);
    slots.rewrite(n, lower, when_false, when_true);
}
