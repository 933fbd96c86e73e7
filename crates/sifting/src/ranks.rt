//! Ranks that tell which nodes hang on roots and on nodes above a place.
//!
//! The rank of a root is 0, that of another node is one more than the place of its highest parent.
ghost use Rattle.std.specs.Prelude.{◌≡◌, ℕ, ◌<◌, ◌≤◌, true, false, length, OnOk, IfOk};
ghost use Rattle.std.specs.List.{All};
ghost use Rattle.diagram_model.specs.Stores.{IsLive};
ghost use Rattle.sifting.specs.Hanging.{AreLoose, AreRankedTo, HasRanks, Lowers, LowersBoth, LowersChildren, LowersListed, LowersRoots, SameRanks, rank_of};

use bit_lists::OutOfMemory;
use diagram_model::Parts;
use node_store::{Node, Store};
use std::alloc::Global;

/// The rank where none is known.
const NONE: u8 = 255;

/// The rank of a node by its number.
fn rank_at(ranks: &[u8], n: u32) -> u8
    ensures { result ≡ rank_of ranks.now n }
{
    match ranks.get(n as usize) {
        Some(rank) => *rank,
        None => NONE,
    }
}

/// Lowers the rank of a node where it is higher.
fn lower(ranks: &mut [u8], n: u32, rank: u8)
    requires { n < length ranks.old }
    ensures lowers { Lowers ranks.old ranks.new n rank }
    ensures len { length ranks.new ≡ length ranks.old }
{
    if rank < rank_at(ranks, n) {
        ranks[n as usize] = rank;
    }
}

/// Lowers the ranks of both children of a node where they are higher.
fn lower_both(ranks: &mut [u8], parts: Parts, rank: u8)
    requires low { parts.low < length ranks.old }
    requires high { parts.high < length ranks.old }
    ensures both { LowersBoth ranks.old ranks.new parts rank }
    ensures len { length ranks.new ≡ length ranks.old }
{
    lower(ranks, parts.low, rank);
    lower(ranks, parts.high, rank);
}

/// Lowers the ranks of the children of listed nodes where they are higher.
fn lower_listed(store: &Store, numbers: &[u32], rank: u8, ranks: &mut [u8])
    requires { HasRanks store.now ranks.old }
    ensures lowers { LowersListed store.now numbers.now ranks.old ranks.new rank }
    ensures len { length ranks.new ≡ length ranks.old }
{
    let _held = store.held();
    for number in numbers {
        match store.parts_of(Node(*number)) {
            Some(parts) => lower_both(ranks, parts, rank),
            None => (),
        }
    }
}

/// Lowers the ranks of roots to the least.
fn lower_roots(roots: &[Node], ranks: &mut [u8])
    requires { All (λ n. n.0 < length ranks.old) roots.now }
    ensures lowers { LowersRoots roots.now ranks.old ranks.new }
    ensures len { length ranks.new ≡ length ranks.old }
{
    for root in roots {
        lower(ranks, root.0, 0);
    }
}

/// Makes a place for the rank of each live node. Those that are added are the highest.
fn grow(store: &Store, ranks: &mut Vec<u8>) -> Result<(), OutOfMemory>
    ensures places { OnOk result (HasRanks store.now ranks.new.items) }
    ensures same { OnOk result (SameRanks ranks.old.items ranks.new.items) }
{
    let past = store.past().max(2) as usize;
    for _number in ranks.len()..past {
        ranks.push(NONE)?;
    }
    Ok(())
}

/// Lowers the ranks of the children of a variable's nodes where they are higher.
pub(crate) fn lower_children(
    store: &Store,
    var: u8,
    rank: u8,
    ranks: &mut Vec<u8>,
) -> Result<(), OutOfMemory>
    requires { var < length store.now.order }
    ensures { OnOk result (LowersChildren store.now var ranks.old.items ranks.new.items rank) }
{
    grow(store, ranks)?;
    let numbers = store.numbers_of(var)?;
    lower_listed(store, &numbers, rank, ranks.as_mut_slice());
    Ok(())
}

/// The ranks of roots and of the children of the nodes above a place, and the highest for all other
/// nodes. Takes the time of the nodes above the place, and a byte for each number.
pub(crate) fn ranks_above(
    alloc: Global,
    store: &Store,
    roots: &[Node],
    end: u8,
) -> Result<Vec<u8>, OutOfMemory>
    requires live { All (λ n. IsLive store.now n.0) roots.now }
    requires end { end < length store.now.order }
    ensures { IfOk result (λ ranks. AreRankedTo store.now roots.now end ranks.items) }
{
    let _held = store.held();
    let order = store.order();
    let _vars = order.len();
    let mut ranks = Vec::new(alloc);
    grow(store, &mut ranks)?;
    lower_roots(roots, ranks.as_mut_slice());
    for place in 0..end {
        lower_children(store, order.at(place), place + 1, &mut ranks)?;
    }
    Ok(ranks)
}

/// Whether the rank of a node is above a bound.
fn is_loose(ranks: &[u8], bound: u8, n: u32) -> bool
    ensures yes { result ≡ true → bound < rank_of ranks.now n }
    ensures no { result ≡ false → rank_of ranks.now n ≤ bound }
{
    bound < rank_at(ranks, n)
}

/// The nodes of a variable whose rank is above a bound.
pub(crate) fn loose_nodes(
    store: &Store,
    var: u8,
    ranks: &[u8],
    bound: u8,
) -> Result<Vec<u32>, OutOfMemory>
    requires { var < length store.now.order }
    ensures { IfOk result (λ ns. AreLoose store.now var ranks.now bound ns.items) }
{
    let mut numbers = store.numbers_of(var)?;
    numbers.retain(|n| is_loose(ranks, bound, *n));
    Ok(numbers)
}
