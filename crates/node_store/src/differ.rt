//! Whether nodes differ where some variables are fixed.
ghost use Rattle.std.specs.Prelude.{◌≡◌, ℕ, ◌≤◌, ◌<◌, ◌+◌, true, false, length, IfOk, OnOk};
ghost use Rattle.diagram_model.specs.Stores.{IsLive, IsSound};
ghost use Rattle.node_store.specs.Differs.{Differ, Coincide, IsTrueSomewhere, IsFalseThroughout};
ghost use Rattle.node_store.specs.Pairs.{DifferAt, CoincideAt, AllCoincide};

use crate::node::{FALSE, Node};
use crate::store::Store;
use bit_lists::{OutOfMemory, Partial};
use std::collections::HashSet;

impl Store {
    /// Whether some bit list that agrees with `p` has different values of `f` and `g`.
    ///
    /// Goes straight down the fixed variables at the top of the order, and no deeper than the variables. Below them it takes the time of the
    /// pairs of nodes that are met.
    pub fn differ(&self, f: Node, g: Node, p: &Partial) -> Result<bool, OutOfMemory>
        requires f { IsLive self.now f.0 }
        requires g { IsLive self.now g.0 }
        requires len { length p.now ≡ length self.now.order }
        ensures yes { IfOk result (λ b. b ≡ true → Differ self.now p.now f.0 g.0) }
        ensures no { IfOk result (λ b. b ≡ false → Coincide self.now p.now f.0 g.0) }
        ensures sound { IsSound self.now }
    {
        let mut same = HashSet::new(self.alloc());
        self.differ_from(f, g, p, &mut same)
    }

    /// Whether a node is true for some bit list that agrees with `p`.
    pub fn any(&self, n: Node, p: &Partial) -> Result<bool, OutOfMemory>
        requires n { IsLive self.now n.0 }
        requires len { length p.now ≡ length self.now.order }
        ensures yes { IfOk result (λ b. b ≡ true → IsTrueSomewhere self.now p.now n.0) }
        ensures no { IfOk result (λ b. b ≡ false → IsFalseThroughout self.now p.now n.0) }
    {
        self.differ(n, FALSE, p)
    }

    /// `differ`, beside the pairs that are known to coincide.
    fn differ_from(
        &self,
        f: Node,
        g: Node,
        p: &Partial,
        same: &mut HashSet<(u32, u32)>,
    ) -> Result<bool, OutOfMemory>
        requires f { IsLive self.now f.0 }
        requires g { IsLive self.now g.0 }
        requires len { length p.now ≡ length self.now.order }
        requires same { AllCoincide self.now p.now same.old.keys }
        ensures same { OnOk result (AllCoincide self.now p.now same.new.keys) }
        ensures yes { IfOk result (λ b. b ≡ true → DifferAt self.now p.now f.0 g.0) }
        ensures no { IfOk result (λ b. b ≡ false → CoincideAt self.now p.now f.0 g.0) }
    {
        if f.0 == g.0 {
            return Ok(false);
        }
        let Some(var) = self.top_of(f, g, g) else {
            return Ok(true);
        };
        if let Some(bit) = p.get(var) {
            let low = self.follow(var, bit, f);
            let high = self.follow(var, bit, g);
            return self.differ_from(low, high, p, same);
        }
        if !same.is_empty() && same.contains(&(f.0, g.0)) {
            return Ok(false);
        }
        for bit in [false, true] {
            let low = self.follow(var, bit, f);
            let high = self.follow(var, bit, g);
            if self.differ_from(low, high, p, same)? {
                return Ok(true);
            }
        }
        same.insert((f.0, g.0))?;
        Ok(false)
    }
}
