//! A store with the cache of its connectives.
ghost use Rattle.std.specs.Prelude.{◌≡◌, ◌∷◌, [], ◌<◌, ◌≤◌, IfOk, OnOk, OnErr, IfErr, IfSome, length};
ghost use Rattle.std.specs.Borrow.{sem};
ghost use Rattle.std.specs.List.{range_with_len};
ghost use Rattle.computed_cache.specs.Entries.{value_at};
ghost use Rattle.diagram_model.specs.Functions.{IsPrefixOf, fix};
ghost use Rattle.diagram_model.specs.Stores.{held, IsLive, Extends, KeepsFunctions, function_of};
ghost use Rattle.diagram_ops.specs.Bounds.{joint_size_in, joint_size_of, size_in, TakesAtMost};
ghost use Rattle.diagram_ops.specs.Cofactors.{numbers_of, functions_of, AreAllLive, InCofactors, AreCofactors};
ghost use Rattle.diagram_ops.specs.Diagrams.{IsConsistent, IsHit, with_answer, MakesVariable, key_of, connective_of, InConnective, InCofactor};
ghost use Rattle.diagram_ops.specs.Flips.{flip, exchanged, flipping_of, InFlipping, InExchange};
ghost use Rattle.diagram_ops.specs.Lending.{lends_store};
ghost use Rattle.diagram_ops.specs.Made.{MakesOnly, StopIs};

use crate::connect::connect;
use crate::flipped::connect_flipped;
use crate::node_memo::NodeMemo;
use crate::operands::Operands;
use crate::restrict::{restrict, restrict_all};
use bit_lists::OutOfMemory;
use computed_cache::{Cache, Key};
use memos::Memo;
use node_store::{FALSE, Node, Store, StoreStop, TRUE};
use std::alloc::Global;
use std::marker::{Brand, Model};
use std::sync::ledger::{Blank, Ledger};
use steps::Steps;

/// The table that is the second of three where the first is true, else the third.
const CHOICE: u8 = 202;

/// What the answer of a connective is kept under.
fn key_for(table: u8, at: Operands) -> Key
    ensures { result ≡ key_of table at.f at.g at.h }
{
    let at = at.keyed(table);
    Key {
        table,
        f: at.f,
        g: at.g,
        h: at.h,
    }
}

/// A store of nodes, with a cache of the answers of connectives.
///
/// Each entry of the cache names live nodes only, and its value denotes its table's connective of its
/// three functions. The memory of one call's memos is kept for the next.
#[derive(Drop)]
pub struct Diagrams {
    store: Store,
    cache: Cache,
    memo: Memo,
    fixed: NodeMemo,
}

impl Model for Diagrams {
    ghost use Rattle.diagram_ops.specs.Diagrams.{StoreAndCache, AreRight};

    ghost Value = { StoreAndCache };

    ghost view = { λ d. record { store = d.store; cache = d.cache } };

    ghost invariant = { λ d. AreRight d.store d.cache.entries };
}

impl Diagrams {
    /// A store that holds no node, in the natural order, and an empty cache.
    pub fn new(alloc: Global, vars: u8, limit: u32, capacity: u32) -> Result<Diagrams, OutOfMemory>
        requires vars { vars ≤ 128 }
        requires some { 1 ≤ limit }
        requires limit { limit ≤ 16777216 }
        requires some_entry { 1 ≤ capacity }
        requires capacity { capacity ≤ 1048576 }
        ensures empty { IfOk result (λ d. held d.store ≡ 0) }
        ensures order { IfOk result (λ d. d.store.order ≡ range_with_len 0 vars) }
        ensures limit { IfOk result (λ d. d.store.limit ≡ limit) }
        ensures cache { IfOk result (λ d. d.cache ≡ record { entries = []; capacity = capacity }) }
        ensures sound { IfOk result IsConsistent }
    {
        Ok(Diagrams {
            store: Store::new(alloc, vars, limit)?,
            cache: Cache::new(alloc, capacity)?,
            memo: Memo::new(alloc),
            fixed: NodeMemo::new(alloc),
        })
    }

    /// The nodes.
    pub fn store(&self) -> &Store
        ensures value { result.now ≡ self.now.store }
        ensures sound { IsConsistent self.now }
    {
        let _held = self.store.held();
        &self.store
    }

    /// How many answers the cache has.
    pub fn cached(&self) -> u32
        ensures count { result ≡ length self.now.cache.entries }
        ensures sound { IsConsistent self.now }
    {
        let _held = self.store.held();
        self.cache.len()
    }

    /// Empties the cache.
    pub fn forget(&mut self)
        ensures empty { self.new.cache.entries ≡ [] }
        ensures capacity { self.new.cache.capacity ≡ self.old.cache.capacity }
        ensures store { self.new.store ≡ self.old.store }
        ensures sound { IsConsistent self.new }
    {
        let _held = self.store.held();
        self.cache.drop_all();
    }

    /// Lends the store, for calls that may free nodes. The cache must be empty: see `forget`.
    pub fn lend(&mut self) -> &mut Store
        requires { self.old.cache.entries ≡ [] }
        ensures* writes_back { sem 𝓛 (lends_store self.entry result) }
        ensures value { result.now ≡ self.old.store }
    {
        &mut self.store
    }

    /// The function that is true where a variable is.
    pub fn variable(&mut self, var: u8) -> Result<Node, StoreStop>
        requires var { var < length self.old.store.order }
        ensures { MakesVariable var self.old self.new result }
    {
        self.variable_counted::<Brand>(var, Blank::new(1))
    }

    fn variable_counted<L: Ledger>(&mut self, var: u8, blank: Blank) -> Result<Node, StoreStop>
        requires var { var < length self.old.store.order }
        requires name { blank.name ≡ L.name }
        requires parts { blank.parts ≡ L.parts }
        requires some { 0 < blank.parts }
        ensures { MakesVariable var self.old self.new result }
    {
        let mut steps = Steps::<L>::new(blank);
        let _held = self.store.held();
        self.store.make(var, FALSE, TRUE, &mut steps)
    }

    /// The function of a node with a variable fixed.
    ///
    /// Takes expected time in the nodes above the variable that are met.
    pub fn cofactor<L: Ledger>(
        &mut self,
        f: Node,
        var: u8,
        bit: bool,
        steps: &mut Steps<L>,
    ) -> Result<Node, StoreStop>
        requires f { IsLive self.old.store f.0 }
        requires var { var < length self.old.store.order }
        ensures live { IfOk result (λ n. IsLive self.new.store n.0) }
        ensures denotes { IfOk result (λ n. function_of self.new.store n.0 ≡ fix var bit (function_of self.old.store f.0)) }
        ensures made { MakesOnly self.old.store self.new.store (InCofactor var bit self.old.store f.0) }
        ensures stop { IfErr result (StopIs self.new.store (InCofactor var bit self.old.store f.0)) }
        ensures extends { Extends self.old.store self.new.store }
        ensures functions { KeepsFunctions self.old.store self.new.store }
        ensures steps { TakesAtMost (size_in self.old.store (function_of self.old.store f.0 ∷ [])) self.old.store self.new.store steps.old steps.new }
        ensures cache { self.new.cache ≡ self.old.cache }
        ensures sound { IsConsistent self.new }
    {
        let _held = self.store.held();
        self.fixed.begin();
        restrict(&mut self.store, &mut self.fixed, var, bit, f.0, steps)
    }

    /// The functions of nodes with a variable fixed, each in its node's place.
    ///
    /// Takes expected time in the nodes above the variable that are met, each once for the whole list.
    pub fn cofactors<L: Ledger>(
        &mut self,
        alloc: Global,
        fs: &[Node],
        var: u8,
        bit: bool,
        steps: &mut Steps<L>,
    ) -> Result<Vec<Node>, StoreStop>
        requires fs { AreAllLive self.old.store (numbers_of fs.now) }
        requires var { var < length self.old.store.order }
        ensures fixed { IfOk result (λ ns. AreCofactors var bit self.old.store self.new.store (numbers_of fs.now) (numbers_of ns.items)) }
        ensures made { MakesOnly self.old.store self.new.store (InCofactors var bit self.old.store (numbers_of fs.now)) }
        ensures stop { IfErr result (StopIs self.new.store (InCofactors var bit self.old.store (numbers_of fs.now))) }
        ensures extends { Extends self.old.store self.new.store }
        ensures functions { KeepsFunctions self.old.store self.new.store }
        ensures steps { TakesAtMost (size_in self.old.store (functions_of self.old.store (numbers_of fs.now))) self.old.store self.new.store steps.old steps.new }
        ensures cache { self.new.cache ≡ self.old.cache }
        ensures sound { IsConsistent self.new }
    {
        let _held = self.store.held();
        self.fixed.begin();
        restrict_all(alloc, &mut self.store, &mut self.fixed, var, bit, fs, steps)
    }

    /// The function that f is with a variable flipped where c holds, and f itself elsewhere, in one walk.
    ///
    /// Takes expected time in the pairs of nodes above the variable, and the triples below it, that are
    /// met. Doesn't ask the cache.
    pub fn exchange<L: Ledger>(
        &mut self,
        c: Node,
        f: Node,
        var: u8,
        steps: &mut Steps<L>,
    ) -> Result<Node, StoreStop>
        requires c { IsLive self.old.store c.0 }
        requires f { IsLive self.old.store f.0 }
        requires var { var < length self.old.store.order }
        ensures live { IfOk result (λ n. IsLive self.new.store n.0) }
        ensures denotes { IfOk result (λ n. function_of self.new.store n.0 ≡ exchanged var (function_of self.old.store c.0) (function_of self.old.store f.0)) }
        ensures made { MakesOnly self.old.store self.new.store (InExchange var self.old.store c.0 f.0) }
        ensures stop { IfErr result (StopIs self.new.store (InExchange var self.old.store c.0 f.0)) }
        ensures extends { Extends self.old.store self.new.store }
        ensures functions { KeepsFunctions self.old.store self.new.store }
        ensures steps { TakesAtMost (joint_size_in self.old.store (function_of self.old.store c.0) (flip var (function_of self.old.store f.0)) (function_of self.old.store f.0)) self.old.store self.new.store steps.old steps.new }
        ensures cache { self.new.cache ≡ self.old.cache }
        ensures sound { IsConsistent self.new }
    {
        self.apply3_flipped::<CHOICE, _>(c, f, f, var, steps)
    }

    /// The connective of three functions by the table T, with a variable flipped in the second one.
    ///
    /// Makes no node of the flipped function. Takes expected time in the triples of nodes that are met.
    /// Doesn't ask the cache.
    pub fn apply3_flipped<const T: u8, L: Ledger>(
        &mut self,
        f: Node,
        g: Node,
        h: Node,
        var: u8,
        steps: &mut Steps<L>,
    ) -> Result<Node, StoreStop>
        requires f { IsLive self.old.store f.0 }
        requires g { IsLive self.old.store g.0 }
        requires h { IsLive self.old.store h.0 }
        requires var { var < length self.old.store.order }
        ensures live { IfOk result (λ n. IsLive self.new.store n.0) }
        ensures denotes { IfOk result (λ n. function_of self.new.store n.0 ≡ flipping_of T var self.old.store f.0 g.0 h.0) }
        ensures made { MakesOnly self.old.store self.new.store (InFlipping T var self.old.store f.0 g.0 h.0) }
        ensures stop { IfErr result (StopIs self.new.store (InFlipping T var self.old.store f.0 g.0 h.0)) }
        ensures extends { Extends self.old.store self.new.store }
        ensures functions { KeepsFunctions self.old.store self.new.store }
        ensures steps { TakesAtMost (joint_size_in self.old.store (function_of self.old.store f.0) (flip var (function_of self.old.store g.0)) (function_of self.old.store h.0)) self.old.store self.new.store steps.old steps.new }
        ensures cache { self.new.cache ≡ self.old.cache }
        ensures sound { IsConsistent self.new }
    {
        let _held = self.store.held();
        self.memo.begin();
        let at = Operands {
            f: f.0,
            g: g.0,
            h: h.0,
        };
        connect_flipped(&mut self.store, &mut self.memo, T, var, at, steps)
    }

    /// The connective of three functions by the table T: bit 4f + 2g + h of T is its value where the
    /// functions have the values f, g and h.
    ///
    /// Asks the cache, then takes expected time in the triples of nodes that are met, and keeps its
    /// answer in the cache. Where T reads its operands in any order, one answer serves all orders.
    /// Takes new memory for nodes, for an entry of the cache that takes no other's place, and for more
    /// results than in any call before.
    pub fn apply3<const T: u8, L: Ledger>(
        &mut self,
        f: Node,
        g: Node,
        h: Node,
        steps: &mut Steps<L>,
    ) -> Result<Node, StoreStop>
        requires f { IsLive self.old.store f.0 }
        requires g { IsLive self.old.store g.0 }
        requires h { IsLive self.old.store h.0 }
        ensures live { IfOk result (λ n. IsLive self.new.store n.0) }
        ensures denotes { IfOk result (λ n. function_of self.new.store n.0 ≡ connective_of T self.old.store f.0 g.0 h.0) }
        ensures made { MakesOnly self.old.store self.new.store (InConnective T self.old.store f.0 g.0 h.0) }
        ensures stop { IfErr result (StopIs self.new.store (InConnective T self.old.store f.0 g.0 h.0)) }
        ensures extends { Extends self.old.store self.new.store }
        ensures functions { KeepsFunctions self.old.store self.new.store }
        ensures cache { IfOk result (λ n. self.new.cache ≡ with_answer self.old.cache (key_of T f.0 g.0 h.0) n.0) }
        ensures stopped { OnErr result (self.new.cache ≡ self.old.cache) }
        ensures cached { length self.old.cache.entries ≤ length self.new.cache.entries }
        ensures hit { IfSome (value_at self.old.cache.entries (key_of T f.0 g.0 h.0)) (λ n. IsHit self.old self.new n result × (steps.new ≡ steps.old)) }
        ensures steps { TakesAtMost (joint_size_of self.old.store f.0 g.0 h.0) self.old.store self.new.store steps.old steps.new }
        ensures sound { IsConsistent self.new }
    {
        let _cached = self.cache.len();
        let _held = self.store.held();
        let at = Operands {
            f: f.0,
            g: g.0,
            h: h.0,
        };
        let key = key_for(T, at);
        if let Some(node) = self.cache.look(&key) {
            return Ok(Node(node));
        }
        self.memo.begin();
        let node = connect(&mut self.store, &mut self.memo, T, at, steps)?;
        self.cache.keep(key, node.0)?;
        Ok(node)
    }
}
