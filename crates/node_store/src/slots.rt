//! Slots of nodes, with a table of the held nodes of each variable.
//!
//! Here the parts of a node mean nothing yet: children may be any numbers. `Store` adds that the
//! nodes are those of a diagram.
ghost use Rattle.std.specs.Prelude.{◌≡◌, ◌≢◌, ◌⊎◌, ℕ, ◌+◌, ◌<◌, ◌≤◌, OnOk, OnErr, IfOk, IfErr, IfSome, IfNone, Some, None, [], ◌∷◌, true, false, length, option_map};
ghost use Rattle.slab.specs.Slab.{HasRoomFor};
ghost use Rattle.bit_lists.specs.Orders.{exchanged};
ghost use Rattle.diagram_model.specs.Nodes.{parts_of};
ghost use Rattle.diagram_model.specs.Stores.{held, requested, HasParts, IsHeld, IsLive, IsNew, IsSound, PutsNode};
ghost use Rattle.node_store.specs.Makes.{FindsOrPuts, Refuses};
ghost use Rattle.node_store.specs.Marks.{KeepsMarked};
ghost use Rattle.node_store.specs.Slots.{AreNodesOf, IsSlotted, Takes, Rewrites, IsPast, IsNextHeld, IsLastHeld, LowersNone, HasNone, nodes_of, spare_of, parts};

use crate::marks::Reached;
use crate::node::{Node, StoreStop};
use crate::store::Store;
use bit_lists::{Order, OutOfMemory};
use diagram_model::Parts;
use slab::Slab;
use std::alloc::Global;
use std::marker::Model;
use std::mem;
use tables::NodeTable;

/// The most slots that are asked for, so that the number of each node is a `u32`.
const MOST_SLOTS: usize = 4_000_000_000;

/// The least number of a held node: below it stand the constants.
const FIRST: u32 = 2;

/// The first number after a given node, or the first that a held node can have.
fn first_past(after: Option<Node>) -> u32
    ensures least { (m : ℕ) → 2 ≤ m → IsPast after m → result ≤ m }
    ensures past { (m : ℕ) → result ≤ m → m < 4294967295 → IsPast after m }
{
    match after {
        Some(n) => n.0.saturating_add(1),
        None => FIRST,
    }
}

/// The key that a slab gives out next, once it has room for one more value.
fn free_key(nodes: &mut Slab<Parts>) -> Result<usize, OutOfMemory>
    ensures key { IfOk result (λ k. k ≡ nodes.new.vacant_key) }
    ensures few { IfOk result (λ k. k < 4000000000) }
    ensures room { OnOk result (HasRoomFor nodes.new 1) }
    ensures kept { nodes.new.slots ≡ nodes.old.slots }
{
    nodes.reserve(1)?;
    let key = nodes.vacant_key();
    if key >= MOST_SLOTS {
        return Err(OutOfMemory);
    }
    Ok(key)
}

/// Slots with their tables: at most `limit` nodes are held, and no two have the same parts.
#[derive(Drop)]
pub struct Slots {
    alloc: Global,
    order: Order,
    limit: u32,
    nodes: Slab<Parts>,
    made: u64,
    tables: Vec<NodeTable>,
    past: u32,
}

impl Model for Slots {
    ghost use Rattle.node_store.specs.Slots.{Slotted};

    ghost Value = { Slotted };

    ghost use Rattle.node_store.specs.Stored.{view_of, IsStored};

    ghost view = { view_of };

    ghost invariant = { IsStored };
}

impl Slots {
    /// No held node.
    pub(crate) fn new(alloc: Global, order: &Order, limit: u32) -> Result<Slots, OutOfMemory>
        requires limit { limit ≤ 16777216 }
        ensures empty { IfOk result (λ s. s.diagram.slots ≡ None ∷ None ∷ []) }
        ensures order { IfOk result (λ s. s.diagram.order ≡ order.now) }
        ensures limit { IfOk result (λ s. s.diagram.limit ≡ limit) }
        ensures made { IfOk result (λ s. s.diagram.made ≡ 0) }
        ensures slotted { IfOk result (λ s. IsSlotted s.diagram) }
    {
        let mut tables = Vec::new(alloc);
        for _ in 0..order.len() {
            tables.push(NodeTable::new(alloc))?;
        }
        Ok(Slots {
            alloc,
            order: *order,
            limit,
            nodes: Slab::new(alloc),
            made: 0,
            tables,
            past: FIRST,
        })
    }

    /// How many nodes are held.
    pub fn held(&self) -> u32
        ensures value { result ≡ held self.now.diagram }
        ensures slotted { IsSlotted self.now.diagram }
    {
        self.nodes.len() as u32
    }

    pub(crate) fn alloc(&self) -> Global {
        self.alloc
    }

    /// The most nodes that may be held.
    pub fn limit(&self) -> u32
        ensures { result ≡ self.now.diagram.limit }
    {
        self.limit
    }

    /// The variables, top first.
    pub fn order(&self) -> Order
        ensures { result ≡ self.now.diagram.order }
    {
        self.order
    }

    pub(crate) fn order_ref(&self) -> &Order
        ensures { result.now ≡ self.now.diagram.order }
    {
        &self.order
    }

    /// How many nodes of a variable are held. Constant time.
    pub fn nodes_of(&self, var: u8) -> u32
        requires { var < length self.now.diagram.order }
        ensures { result ≡ nodes_of self.now.diagram var }
    {
        self.tables[var as usize].len() as u32
    }

    /// A number above that of each held node.
    pub fn past(&self) -> u32
        ensures { (n : ℕ) → HasParts self.now.diagram n → n < result }
    {
        self.past
    }

    /// The parts of a held node, or None for a number that no node has.
    pub fn parts_of(&self, n: Node) -> Option<Parts>
        ensures { result ≡ parts_of self.now.diagram.slots n.0 }
    {
        let nodes = &self.nodes;
        if n.0 < FIRST {
            return None;
        }
        nodes.get((n.0 - FIRST) as usize).copied()
    }

    /// The variable of a node, or None for a constant.
    pub fn top(&self, n: Node) -> Option<u8>
        requires { IsLive self.now.diagram n.0 }
        ensures var { result ≡ option_map (λ p. p.var) (parts_of self.now.diagram.slots n.0) }
        ensures none { IfNone result (n.0 < 2) }
    {
        self.parts_of(n).map(|parts| parts.var)
    }

    /// The child of a held node where its variable is false.
    pub fn low(&self, n: Node) -> Node
        requires { IsHeld self.now.diagram n.0 }
        ensures { option_map (λ p. p.low) (parts_of self.now.diagram.slots n.0) ≡ Some result.0 }
    {
        match self.parts_of(n) {
            Some(parts) => Node(parts.low),
            None => unreachable!(),
        }
    }

    /// The child of a held node where its variable is true.
    pub fn high(&self, n: Node) -> Node
        requires { IsHeld self.now.diagram n.0 }
        ensures { option_map (λ p. p.high) (parts_of self.now.diagram.slots n.0) ≡ Some result.0 }
    {
        match self.parts_of(n) {
            Some(parts) => Node(parts.high),
            None => unreachable!(),
        }
    }

    /// The held node of least number after the given one, or of least number at all.
    pub fn next_held(&self, after: Option<Node>) -> Option<Node>
        ensures next { IfSome result (λ n. IsNextHeld self.now.diagram after n.0) }
        ensures none { IfNone result (IsLastHeld self.now.diagram after) }
    {
        for number in first_past(after)..self.past {
            let n = Node(number);
            if self.parts_of(n).is_some() {
                return Some(n);
            }
        }
        None
    }

    /// The numbers of the held nodes of a variable, each once, in no order. Takes the time of the
    /// variable's table.
    pub fn numbers_of(&self, var: u8) -> Result<Vec<u32>, OutOfMemory>
        requires { var < length self.now.diagram.order }
        ensures { IfOk result (λ ns. AreNodesOf self.now.diagram var ns.items) }
    {
        let numbers = self.tables[var as usize].nodes()?;
        Ok(numbers)
    }

    /// The held node of these parts.
    pub fn find(&self, var: u8, low: Node, high: Node) -> Option<Node>
        requires { var < length self.now.diagram.order }
        ensures found { IfSome result (λ n. parts_of self.now.diagram.slots n.0 ≡ Some (parts var low.0 high.0)) }
        ensures absent { IfNone result (IsNew self.now.diagram (parts var low.0 high.0)) }
    {
        match self.tables[var as usize].find(low.0, high.0) {
            Some(node) => Some(Node(node)),
            None => None,
        }
    }

    /// Makes room for more nodes of a variable.
    ///
    /// The slab's room is shared by all variables: to add so many nodes of each of two variables ask for
    /// their sum.
    pub fn reserve(&mut self, var: u8, more: u32) -> Result<(), OutOfMemory>
        requires { var < length self.old.diagram.order }
        ensures room { OnOk result (more ≤ spare_of self.new var) }
        ensures others { OnOk result (LowersNone self.old self.new) }
        ensures refused { OnErr result (LowersNone self.old self.new ⊎ HasNone self.new) }
        ensures kept { self.new.diagram ≡ self.old.diagram }
    {
        self.nodes.reserve(more as usize)?;
        if self.nodes.capacity() > MOST_SLOTS {
            return Err(OutOfMemory);
        }
        let table = &mut self.tables[var as usize];
        table.reserve(more as usize)?;
        Ok(())
    }

    /// Takes a held node away.
    pub fn free(&mut self, n: Node)
        requires { IsHeld self.old.diagram n.0 }
        ensures takes { Takes self.old.diagram.slots self.new.diagram.slots n.0 }
        ensures held { held self.new.diagram + 1 ≡ held self.old.diagram }
        ensures order { self.new.diagram.order ≡ self.old.diagram.order }
        ensures limit { self.new.diagram.limit ≡ self.old.diagram.limit }
        ensures made { self.new.diagram.made ≡ self.old.diagram.made }
        ensures spares { LowersNone self.old self.new }
        ensures slotted { IsSlotted self.new.diagram }
    {
        let parts = self.nodes.remove((n.0 - FIRST) as usize);
        self.tables[parts.var as usize].remove(parts.low, parts.high);
    }

    /// Keeps the held nodes that have a mark, under their numbers, and takes all others away. How many
    /// were taken away.
    ///
    /// Takes a pass over the numbers, a search for each node that is taken away, and a pass over the
    /// tables. No node that stays is searched for, and no memory is taken or given back.
    pub fn keep_only(&mut self, marks: &Reached) -> u32
        ensures kept { KeepsMarked self.old.diagram self.new.diagram marks.now }
        ensures freed { result + held self.new.diagram ≡ held self.old.diagram }
        ensures order { self.new.diagram.order ≡ self.old.diagram.order }
        ensures limit { self.new.diagram.limit ≡ self.old.diagram.limit }
        ensures made { self.new.diagram.made ≡ self.old.diagram.made }
        ensures spares { LowersNone self.old self.new }
        ensures slotted { IsSlotted self.new.diagram }
    {
        let before = self.held();
        self.free_unmarked(marks);
        self.refresh();
        before - self.held()
    }

    /// Takes away the held nodes that have no mark.
    fn free_unmarked(&mut self, marks: &Reached)
        ensures kept { KeepsMarked self.old.diagram self.new.diagram marks.now }
        ensures fewer { held self.new.diagram ≤ held self.old.diagram }
        ensures order { self.new.diagram.order ≡ self.old.diagram.order }
        ensures limit { self.new.diagram.limit ≡ self.old.diagram.limit }
        ensures made { self.new.diagram.made ≡ self.old.diagram.made }
        ensures spares { LowersNone self.old self.new }
    {
        let _held = self.held();
        for number in FIRST..self.past() {
            let n = Node(number);
            if !marks.has(n) && self.parts_of(n).is_some() {
                self.free(n);
            }
        }
    }

    /// Frees the places that nodes left in the tables. No node changes.
    fn refresh(&mut self)
        ensures diagram { self.new.diagram ≡ self.old.diagram }
        ensures spares { LowersNone self.old self.new }
    {
        for var in 0..self.order_ref().len() {
            self.refresh_table(var);
        }
    }

    /// Frees the places that nodes left in the table of a variable.
    fn refresh_table(&mut self, var: u8)
        requires { var < length self.old.diagram.order }
        ensures diagram { self.new.diagram ≡ self.old.diagram }
        ensures spares { LowersNone self.old self.new }
    {
        self.tables[var as usize].refresh();
    }

    /// Gives a held node other parts.
    pub fn rewrite(&mut self, n: Node, var: u8, low: Node, high: Node)
        requires held { IsHeld self.old.diagram n.0 }
        requires var { var < length self.old.diagram.order }
        requires new { IsNew self.old.diagram (parts var low.0 high.0) }
        requires spare { 1 ≤ spare_of self.old var }
        ensures rewrites { Rewrites self.old.diagram.slots self.new.diagram.slots n.0 (parts var low.0 high.0) }
        ensures held { held self.new.diagram ≡ held self.old.diagram }
        ensures order { self.new.diagram.order ≡ self.old.diagram.order }
        ensures limit { self.new.diagram.limit ≡ self.old.diagram.limit }
        ensures made { self.new.diagram.made ≡ self.old.diagram.made }
        ensures spares { (v : ℕ) → spare_of self.old v ≤ spare_of self.new v + 1 }
        ensures slotted { IsSlotted self.new.diagram }
    {
        let new = Parts {
            var,
            low: low.0,
            high: high.0,
        };
        let old = mem::replace(&mut self.nodes[(n.0 - FIRST) as usize], new);
        self.tables[old.var as usize].remove(old.low, old.high);
        self.tables[var as usize].add(low.0, high.0, n.0);
    }

    /// Adds a node of new parts.
    pub fn add(&mut self, var: u8, low: Node, high: Node) -> Node
        requires var { var < length self.old.diagram.order }
        requires new { IsNew self.old.diagram (parts var low.0 high.0) }
        requires spare { 1 ≤ spare_of self.old var }
        requires room { held self.old.diagram < self.old.diagram.limit }
        ensures puts { PutsNode self.old.diagram.slots self.new.diagram.slots result.0 (parts var low.0 high.0) }
        ensures held { held self.new.diagram ≡ held self.old.diagram + 1 }
        ensures order { self.new.diagram.order ≡ self.old.diagram.order }
        ensures limit { self.new.diagram.limit ≡ self.old.diagram.limit }
        ensures made { self.new.diagram.made ≡ self.old.diagram.made }
        ensures spares { (v : ℕ) → spare_of self.old v ≤ spare_of self.new v + 1 }
        ensures slotted { IsSlotted self.new.diagram }
        ensures number { 2 ≤ result.0 }
    {
        let key = self.nodes.insert_reserved(Parts {
            var,
            low: low.0,
            high: high.0,
        });
        let node = key as u32 + FIRST;
        self.tables[var as usize].add(low.0, high.0, node);
        self.past = self.past.max(node + 1);
        Node(node)
    }

    /// The held node of these parts, which is added where there is none. One search; room is asked for
    /// only where the node is new.
    pub(crate) fn find_or_add(&mut self, var: u8, low: Node, high: Node) -> Result<Node, StoreStop>
        requires var { var < length self.old.diagram.order }
        ensures puts { IfOk result (λ n. FindsOrPuts self.old.diagram self.new.diagram (parts var low.0 high.0) n.0) }
        ensures order { self.new.diagram.order ≡ self.old.diagram.order }
        ensures limit { self.new.diagram.limit ≡ self.old.diagram.limit }
        ensures made { self.new.diagram.made ≡ self.old.diagram.made }
        ensures refused { OnErr result (self.new.diagram ≡ self.old.diagram) }
        ensures stop { IfErr result (Refuses self.old.diagram (parts var low.0 high.0)) }
        ensures slotted { IsSlotted self.new.diagram }
    {
        let end = self.tables[var as usize].seek(low.0, high.0);
        if let Some(node) = end.node() {
            return Ok(Node(node));
        }
        let held = self.nodes.len() as u32;
        if held == self.limit {
            return Err(StoreStop::Full { held });
        }
        let node = free_key(&mut self.nodes)? as u32 + FIRST;
        let table = &mut self.tables[var as usize];
        let Ok(()) = table.add_at(end, low.0, high.0, node) else {
            return Err(StoreStop::OutOfMemory);
        };
        self.nodes.insert_reserved(Parts {
            var,
            low: low.0,
            high: high.0,
        });
        self.past = self.past.max(node + 1);
        Ok(Node(node))
    }

    /// Counts a request for a node.
    pub(crate) fn count_request(&mut self)
        ensures { self.new ≡ record { diagram = requested self.old.diagram; spares = self.old.spares } }
    {
        self.made = self.made.saturating_add(1);
    }

    /// Exchanges the variables at a place of the order and at the next one. No node changes. Constant
    /// time.
    pub fn exchange(&mut self, level: u8)
        requires { level + 1 < length self.old.diagram.order }
        ensures order { self.new.diagram.order ≡ exchanged self.old.diagram.order level }
        ensures slots { self.new.diagram.slots ≡ self.old.diagram.slots }
        ensures limit { self.new.diagram.limit ≡ self.old.diagram.limit }
        ensures made { self.new.diagram.made ≡ self.old.diagram.made }
        ensures spares { self.new.spares ≡ self.old.spares }
        ensures slotted { IsSlotted self.new.diagram }
    {
        self.order.exchange(level);
        let _vars = self.order.len();
    }

    /// The slots as a store again. Their nodes must be those of a diagram.
    pub fn seal(self) -> Store
        requires { IsSound self.diagram }
        ensures { result ≡ self.diagram }
    {
        Store::over(self)
    }

    /// Slots with the same nodes under the same numbers, in tables as large as their nodes want.
    pub(crate) fn try_copy(&self) -> Result<Slots, OutOfMemory>
        ensures { IfOk result (λ s. s.diagram ≡ self.now.diagram) }
    {
        let mut tables = Vec::new(self.alloc);
        for table in &self.tables {
            tables.push(table.try_copy()?)?;
        }
        Ok(Slots {
            alloc: self.alloc,
            order: self.order,
            limit: self.limit,
            nodes: self.nodes.clone()?,
            made: self.made,
            tables,
            past: self.past,
        })
    }
}
