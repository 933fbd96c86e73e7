//! How many nodes are reached from roots.
ghost use Rattle.std.specs.Prelude.{◌≡◌, ℕ, ◌≤◌, ◌<◌, map, true, length, IfOk, OnOk};
ghost use Rattle.std.specs.List.{All};
ghost use Rattle.diagram_model.specs.Reach.{is_in};
ghost use Rattle.diagram_model.specs.Size.{size};
ghost use Rattle.diagram_model.specs.Stores.{IsLive, HasParts, function_of};
ghost use Rattle.node_store.specs.Walks.{IsClosed, Keeps, AddsReached};

use crate::node::Node;
use crate::store::Store;
use bit_lists::OutOfMemory;
use std::collections::HashSet;

impl Store {
    /// How many held nodes are reached from the roots, which is the size of their functions in the
    /// order. Takes the time of the nodes that are reached.
    pub fn size(&self, roots: &[Node]) -> Result<u32, OutOfMemory>
        requires { All (λ n. IsLive self.now n.0) roots.now }
        ensures { IfOk result (λ k. k ≡ size (length self.now.order) self.now.order (map (λ n. function_of self.now n.0) roots.now)) }
    {
        let mut seen = HashSet::new(self.alloc());
        for root in roots {
            self.reach(root.0, &mut seen)?;
        }
        Ok(seen.len() as u32)
    }

    /// Adds to the nodes seen so far those that are reached from `n`.
    fn reach(&self, n: u32, seen: &mut HashSet<u32>) -> Result<(), OutOfMemory>
        requires live { IsLive self.now n }
        requires closed { IsClosed self.now seen.old.keys }
        ensures closed { OnOk result (IsClosed self.now seen.new.keys) }
        ensures there { OnOk result (HasParts self.now n → is_in seen.new.keys n ≡ true) }
        ensures keeps { OnOk result (Keeps seen.old.keys seen.new.keys) }
        ensures reached { OnOk result (AddsReached self.now n seen.old.keys seen.new.keys) }
    {
        let Some(parts) = self.parts(n) else {
            return Ok(());
        };
        if seen.contains(&n) {
            return Ok(());
        }
        self.reach(parts.low, seen)?;
        self.reach(parts.high, seen)?;
        seen.insert(n)?;
        Ok(())
    }
}
