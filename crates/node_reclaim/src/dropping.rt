//! Freeing given nodes.
ghost use Rattle.std.specs.Prelude.{◌≡◌, ◌≤◌, OnOk, OnErr};
ghost use Rattle.diagram_model.specs.Stores.{held, IsSound, KeepsFunctions};
ghost use Rattle.node_reclaim.specs.Reclaims.{NoneIsChild, KeepsOthers};

use bit_lists::OutOfMemory;
use node_store::{Node, Slots, Store};
use std::alloc::Global;
use std::mem;

/// Frees the nodes of a list. The others keep their numbers and functions, so none of them may have a
/// listed node as a child. A number that no node has is passed over.
///
/// Takes a search for each node that is freed. No other node is read.
pub fn drop_nodes(alloc: Global, store: &mut Store, numbers: &[u32]) -> Result<(), OutOfMemory>
    requires { NoneIsChild store.old numbers.now }
    ensures others { OnOk result (KeepsOthers store.old store.new numbers.now) }
    ensures functions { OnOk result (KeepsFunctions store.new store.old) }
    ensures order { store.new.order ≡ store.old.order }
    ensures limit { store.new.limit ≡ store.old.limit }
    ensures made { store.new.made ≡ store.old.made }
    ensures refused { OnErr result (store.new ≡ store.old) }
    ensures sound { IsSound store.new }
{
    let _held = store.held();
    let empty = Store::new(alloc, 0, 1)?;
    let mut slots = mem::replace(store, empty).unseal();
    free_each(&mut slots, numbers);
    let _empty = mem::replace(store, slots.seal());
    Ok(())
}

/// Frees the nodes of a list.
fn free_each(slots: &mut Slots, numbers: &[u32])
    ensures others { KeepsOthers slots.old.diagram slots.new.diagram numbers.now }
    ensures fewer { held slots.new.diagram ≤ held slots.old.diagram }
    ensures order { slots.new.diagram.order ≡ slots.old.diagram.order }
    ensures limit { slots.new.diagram.limit ≡ slots.old.diagram.limit }
    ensures made { slots.new.diagram.made ≡ slots.old.diagram.made }
{
    let _held = slots.held();
    for number in numbers {
        let n = Node(*number);
        match slots.parts_of(n) {
            Some(_) => slots.free(n),
            None => (),
        }
    }
}
