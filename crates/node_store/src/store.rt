//! The store: slots whose nodes are those of a reduced ordered decision diagram.
ghost use Rattle.std.specs.Prelude.{◌≡◌, ◌≢◌, ◌⊎◌, ℕ, ◌+◌, ◌<◌, ◌≤◌, OnOk, OnErr, IfOk, IfErr, IfSome, IfNone, IsNone, option_map, Some, true, length, slice_index};
ghost use Rattle.std.specs.List.{range_with_len};
ghost use Rattle.bit_lists.specs.Orders.{has, place_in};
ghost use Rattle.diagram_model.specs.Functions.{bit};
ghost use Rattle.diagram_model.specs.Nodes.{parts_of, value, IsLiveIn, IsProper};
ghost use Rattle.diagram_model.specs.Stores.{held, HasParts, IsLive, IsHeld, IsAbove, IsSound, Extends, KeepsFunctions, AddsOnly, IsChoice, NoRoom, IsNew, PutsNode, counted, requested, from};
ghost use Rattle.node_store.specs.Makes.{FindsOrPuts, Refuses, StopMeans};
ghost use Rattle.node_store.specs.Slots.{AreNodesOf, IsNextHeld, IsLastHeld, nodes_of, parts};

use crate::node::{Node, StoreStop};
use crate::slots::Slots;
use bit_lists::{Bits, Order, OutOfMemory};
use diagram_model::Parts;
use std::alloc::Global;
use std::marker::Model;
use std::sync::ledger::Ledger;
use steps::Steps;

/// The nodes of shared decision diagrams, each function at most once.
///
/// Contracts see the order of the variables, the limit, and the parts of each number. Different live
/// nodes denote different functions.
#[derive(Drop)]
pub struct Store {
    slots: Slots,
}

impl Model for Store {
    ghost use Rattle.diagram_model.specs.Stores.{Diagram, IsSound};

    ghost Value = { Diagram };

    ghost view = { λ a. a.slots.diagram };

    ghost invariant = { λ a. IsSound a.slots.diagram };
}

impl Store {
    /// A store that holds no node, in the natural order.
    pub fn new(alloc: Global, vars: u8, limit: u32) -> Result<Store, OutOfMemory>
        requires vars { vars ≤ 128 }
        requires some { 1 ≤ limit }
        requires limit { limit ≤ 16777216 }
        ensures empty { IfOk result (λ s. held s ≡ 0) }
        ensures order { IfOk result (λ s. s.order ≡ range_with_len 0 vars) }
        ensures limit { IfOk result (λ s. s.limit ≡ limit) }
        ensures sound { IfOk result IsSound }
    {
        Store::with_order(alloc, &Order::natural(vars), limit)
    }

    /// A store that holds no node, in a given order.
    pub fn with_order(alloc: Global, order: &Order, limit: u32) -> Result<Store, OutOfMemory>
        requires some { 1 ≤ limit }
        requires limit { limit ≤ 16777216 }
        ensures empty { IfOk result (λ s. held s ≡ 0) }
        ensures order { IfOk result (λ s. s.order ≡ order.now) }
        ensures limit { IfOk result (λ s. s.limit ≡ limit) }
        ensures sound { IfOk result IsSound }
    {
        Ok(Store {
            slots: Slots::new(alloc, order, limit)?,
        })
    }

    /// How many nodes are held.
    pub fn held(&self) -> u32
        ensures value { result ≡ held self.now }
        ensures sound { IsSound self.now }
    {
        let _ = &self.slots;
        self.slots.held()
    }

    /// The most nodes that may be held.
    pub fn limit(&self) -> u32
        ensures { result ≡ self.now.limit }
    {
        self.slots.limit()
    }

    /// The variables, top first.
    pub fn order(&self) -> Order
        ensures { result ≡ self.now.order }
    {
        self.slots.order()
    }

    /// The place of a variable in the order, in constant time.
    pub fn place_of(&self, var: u8) -> u8
        requires { var < length self.now.order }
        ensures place { result ≡ place_in self.now.order var }
        ensures within { result < length self.now.order }
        ensures there { slice_index self.now.order result ≡ var }
    {
        self.slots.order_ref().place_of(var)
    }

    /// The variable of a node, or None for a constant.
    pub fn top(&self, n: Node) -> Option<u8>
        requires { IsLive self.now n.0 }
        ensures var { result ≡ option_map (λ p. p.var) (parts_of self.now.slots n.0) }
        ensures none { IfNone result (n.0 < 2) }
    {
        self.parts(n.0).map(|parts| parts.var)
    }

    /// The child of a held node where its variable is false.
    pub fn low(&self, n: Node) -> Node
        requires { IsHeld self.now n.0 }
        ensures { option_map (λ p. p.low) (parts_of self.now.slots n.0) ≡ Some result.0 }
    {
        match self.parts(n.0) {
            Some(parts) => Node(parts.low),
            None => unreachable!(),
        }
    }

    /// The child of a held node where its variable is true.
    pub fn high(&self, n: Node) -> Node
        requires { IsHeld self.now n.0 }
        ensures { option_map (λ p. p.high) (parts_of self.now.slots n.0) ≡ Some result.0 }
    {
        match self.parts(n.0) {
            Some(parts) => Node(parts.high),
            None => unreachable!(),
        }
    }

    /// What a node denotes at `x`, where bit v is the value of variable v. At most one step a variable.
    pub fn value(&self, n: Node, x: &Bits) -> bool
        requires live { IsLive self.now n.0 }
        requires len { length x.now ≡ length self.now.order }
        ensures { result ≡ value self.now.slots self.now.order (bit x.now) n.0 }
    {
        let mut at = n.0;
        while let Some(parts) = self.parts(at) {
            at = parts.child(x.get(parts.var));
        }
        at == 1
    }

    /// The node that denotes `high` where `var` is true, and `low` where it is false.
    ///
    /// It is `low` where both are one node, and else the held node of these parts, which is added
    /// where there is none. Expected constant time.
    pub fn make<L: Ledger>(
        &mut self,
        var: u8,
        low: Node,
        high: Node,
        steps: &mut Steps<L>,
    ) -> Result<Node, StoreStop>
        requires var { has self.old.order var ≡ true }
        requires low { IsAbove self.old var low.0 }
        requires high { IsAbove self.old var high.0 }
        ensures denotes { IfOk result (λ n. IsChoice self.new var low.0 high.0 n.0) }
        ensures live { IfOk result (λ n. IsLiveIn self.new.slots (from self.old.order var) n.0) }
        ensures functions { KeepsFunctions self.old self.new }
        ensures extends { Extends self.old self.new }
        ensures only { IfOk result (λ n. AddsOnly self.old self.new n.0) }
        ensures refused { OnErr result (self.new ≡ requested self.old) }
        ensures made { self.new.made ≡ counted self.old.made }
        ensures stop { IfErr result (StopMeans self.old var low.0 high.0) }
        ensures room { OnOk result (NoRoom self.old var low.0 high.0 → ⊥) }
        ensures steps { steps.new ≡ steps.old + 1 }
        ensures sound { IsSound self.new }
    {
        steps.tick();
        self.count_request();
        self.node_of(var, low, high)
    }

    /// A store of the same nodes under the same numbers, with the same order and limit.
    pub fn try_copy(&self) -> Result<Store, OutOfMemory>
        ensures { IfOk result (λ s. s ≡ self.now) }
    {
        Ok(Store {
            slots: self.slots.try_copy()?,
        })
    }

    /// The slots of the nodes, for calls that rearrange them. No node changes.
    pub fn unseal(self) -> Slots
        ensures { result.diagram ≡ self }
    {
        self.slots
    }

    /// The slots as a store.
    pub(crate) fn over(slots: Slots) -> Store
        requires { IsSound slots.diagram }
        ensures { result ≡ slots.diagram }
    {
        Store { slots }
    }

    /// How many nodes of a variable are held. Constant time.
    pub fn nodes_of(&self, var: u8) -> u32
        requires { var < length self.now.order }
        ensures { result ≡ nodes_of self.now var }
    {
        self.slots.nodes_of(var)
    }

    /// The numbers of the held nodes of a variable, each once, in no order. Takes the time of the
    /// variable's table.
    pub fn numbers_of(&self, var: u8) -> Result<Vec<u32>, OutOfMemory>
        requires { var < length self.now.order }
        ensures { IfOk result (λ ns. AreNodesOf self.now var ns.items) }
    {
        self.slots.numbers_of(var)
    }

    /// A number above that of each held node.
    pub fn past(&self) -> u32
        ensures { (n : ℕ) → HasParts self.now n → n < result }
    {
        self.slots.past()
    }

    /// The held node of least number after the given one, or of least number at all.
    pub fn next_held(&self, after: Option<Node>) -> Option<Node>
        ensures next { IfSome result (λ n. IsNextHeld self.now after n.0) }
        ensures none { IfNone result (IsLastHeld self.now after) }
    {
        self.slots.next_held(after)
    }

    /// The parts of a held node, or None for a number that no node has. One read of its slot.
    pub fn parts_of(&self, n: Node) -> Option<Parts>
        ensures parts { result ≡ parts_of self.now.slots n.0 }
        ensures sound { IsSound self.now }
    {
        self.parts(n.0)
    }

    pub(crate) fn order_ref(&self) -> &Order
        ensures value { result.now ≡ self.now.order }
        ensures sound { IsSound self.now }
    {
        let _ = &self.slots;
        self.slots.order_ref()
    }

    pub(crate) fn alloc(&self) -> Global
        ensures sound { IsSound self.now }
    {
        let _ = &self.slots;
        self.slots.alloc()
    }

    pub(crate) fn parts(&self, n: u32) -> Option<Parts>
        ensures value { result ≡ parts_of self.now.slots n }
        ensures sound { IsSound self.now }
    {
        let _ = &self.slots;
        self.slots.parts_of(Node(n))
    }

    /// Counts a request for a node.
    fn count_request(&mut self)
        ensures requested { self.new ≡ requested self.old }
        ensures sound { IsSound self.new }
    {
        let _ = &self.slots;
        self.slots.count_request();
    }

    /// The node of `make`, which has counted the request.
    fn node_of(&mut self, var: u8, low: Node, high: Node) -> Result<Node, StoreStop>
        requires var { has self.old.order var ≡ true }
        requires low { IsAbove self.old var low.0 }
        requires high { IsAbove self.old var high.0 }
        ensures denotes { IfOk result (λ n. IsChoice self.new var low.0 high.0 n.0) }
        ensures live { IfOk result (λ n. IsLiveIn self.new.slots (from self.old.order var) n.0) }
        ensures functions { KeepsFunctions self.old self.new }
        ensures extends { Extends self.old self.new }
        ensures only { IfOk result (λ n. AddsOnly self.old self.new n.0) }
        ensures made { self.new.made ≡ self.old.made }
        ensures refused { OnErr result (self.new ≡ self.old) }
        ensures stop { IfErr result (StopMeans self.old var low.0 high.0) }
        ensures room { OnOk result (NoRoom self.old var low.0 high.0 → ⊥) }
        ensures sound { IsSound self.new }
    {
        let _ = &self.slots;
        if low.0 == high.0 {
            return Ok(low);
        }
        self.find_or_add(var, low, high)
    }

    /// The held node of these parts, which is added where there is none.
    fn find_or_add(&mut self, var: u8, low: Node, high: Node) -> Result<Node, StoreStop>
        requires var { has self.old.order var ≡ true }
        requires proper { IsProper self.old.slots self.old.order (parts var low.0 high.0) }
        ensures puts { IfOk result (λ n. FindsOrPuts self.old self.new (parts var low.0 high.0) n.0) }
        ensures rest { OnOk result ((self.new.order ≡ self.old.order) × (self.new.limit ≡ self.old.limit)) }
        ensures made { self.new.made ≡ self.old.made }
        ensures sound { IsSound self.new }
        ensures refused { OnErr result (self.new ≡ self.old) }
        ensures stop { IfErr result (Refuses self.old (parts var low.0 high.0)) }
    {
        let node = self.slots.find_or_add(var, low, high)?;
        Ok(node)
    }
}
