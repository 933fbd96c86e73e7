//! Exchanging two adjacent variables of a store.
ghost use Rattle.std.specs.Prelude.{◌≡◌, ◌+◌, ◌*◌, ◌<◌, ◌≤◌, length, IfErr, OnOk, OnErr};
ghost use Rattle.bit_lists.specs.Orders.{exchanged};
ghost use Rattle.diagram_model.specs.Stores.{held, IsSound, KeepsFunctions};
ghost use Rattle.level_swap.specs.Swaps.{level_nodes, variable_at, AreSwapped, HasRoom, StopMeans};

use crate::level::swap_level;
use crate::needs::{Room, SwapStop};
use bit_lists::OutOfMemory;
use node_store::Store;
use std::alloc::Global;
use std::mem;

/// How many more nodes the store may hold, and how many a swap of the variables at a place and at the
/// next one asks for: four times the nodes of the upper variable, which is enough for the swap and the
/// swap back. Constant time, no memory.
pub fn room(store: &Store, level: u8) -> Room
    requires { level + 1 < length store.now.order }
    ensures free { result.free + held store.now ≡ store.now.limit }
    ensures need { result.need ≡ 4 * level_nodes store.now level }
{
    let upper = store.order().at(level);
    Room {
        free: store.limit() - store.held(),
        need: 4 * store.nodes_of(upper),
    }
}

/// Exchanges the variables at a place of the order and at the next one. Each live node stays live under
/// its number, with its function.
///
/// Takes the time and the memory of the two variables' tables, and a search or two for each node of the
/// upper variable that has a child of the lower one. No other node is read, but children of these. All
/// memory is taken before anything changes.
pub fn swap(alloc: Global, store: &mut Store, level: u8) -> Result<(), OutOfMemory>
    requires level { level + 1 < length store.old.order }
    requires room { HasRoom store.old level }
    ensures order { OnOk result (store.new.order ≡ exchanged store.old.order level) }
    ensures functions { KeepsFunctions store.old store.new }
    ensures swapped { OnOk result (AreSwapped store.old.slots store.new.slots (variable_at store.old level) (variable_at store.old (level + 1))) }
    ensures few { held store.new ≤ held store.old + 2 * level_nodes store.old level }
    ensures limit { store.new.limit ≡ store.old.limit }
    ensures made { store.new.made ≡ store.old.made }
    ensures refused { OnErr result (store.new ≡ store.old) }
    ensures sound { IsSound store.new }
{
    let _held = store.held();
    let empty = Store::new(alloc, 0, 1)?;
    let mut slots = mem::replace(store, empty).unseal();
    let done = swap_level(&mut slots, level);
    let _empty = mem::replace(store, slots.seal());
    done
}

/// `swap` where there is room, which is tested. NoRoom comes exactly where there isn't.
pub fn try_swap(alloc: Global, store: &mut Store, level: u8) -> Result<(), SwapStop>
    requires { level + 1 < length store.old.order }
    ensures order { OnOk result (store.new.order ≡ exchanged store.old.order level) }
    ensures functions { KeepsFunctions store.old store.new }
    ensures few { held store.new ≤ held store.old + 2 * level_nodes store.old level }
    ensures room { OnOk result (HasRoom store.old level) }
    ensures stop { IfErr result (StopMeans store.old level) }
    ensures limit { store.new.limit ≡ store.old.limit }
    ensures made { store.new.made ≡ store.old.made }
    ensures refused { OnErr result (store.new ≡ store.old) }
    ensures sound { IsSound store.new }
{
    let _held = store.held();
    let there = room(store, level);
    if !there.is_enough() {
        return Err(SwapStop::NoRoom(there));
    }
    swap(alloc, store, level)?;
    Ok(())
}
