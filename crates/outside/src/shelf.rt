//! A shelf of named texts, of which one at a time is read.
ghost use Rattle.std.specs.Prelude.{◌≡◌, ◌↔◌, ◌⊎◌, ◌<◌, ◌≤◌, ℕ, Bool, false, IsTrue, List, [], length, take, Option, Some, is_some, IfSome, IsOk, IfOk, OnOk, OnErr};
ghost use Rattle.outside.specs.Outside.{raised, Rose, SameTexts, NoneFalls, BegunRose, SameBegun, Gives, GivesEnd};

/// A shelf or a sink met a fault, which its count tells.
#[derive(Clone, Copy, Debug, PartialEq, Eq)]
pub struct Failed;

/// Texts by name.
///
/// Counts end at 2^64 - 1; a count that stands there counts as risen.
pub trait Shelf {
    /// The text of a name, where it is told.
    ghost text: { Self → List ℕ → Option (List ℕ) };

    /// Whether a name is the begun one.
    ghost is_begun: { Self → List ℕ → Bool };

    /// What is left of the begun text, where it is told.
    ghost left: { Self → Option (List ℕ) };

    /// For each name a count of faults, which never falls.
    ghost faults: { Self → List ℕ → ℕ };

    /// Whether the last `begin` was Ok.
    ghost ready: { Self → Bool };

    /// How many bytes were taken since the last Ok of `begin`.
    ghost taken: { Self → ℕ };

    /// Whether the end was given since then.
    ghost ended: { Self → Bool };

    /// Makes the named text the begun one. A missing name is a fault of that name.
    fn begin(&mut self, name: &str) -> Result<(), Failed>
        ensures begun { IsTrue (is_begun self.new name.now) }
        ensures ready { IsTrue (ready self.new) ↔ IsOk result }
        ensures left { OnOk result (IfSome (text self.old name.now) (λ whole. left self.new ≡ Some whole)) }
        ensures taken { OnOk result (taken self.new ≡ 0) }
        ensures ended { OnOk result (ended self.new ≡ false) }
        ensures cause { OnErr result (Rose (faults self.old name.now) (faults self.new name.now)) }
        ensures texts { SameTexts (text self.old) (text self.new) }
        ensures counts { NoneFalls (faults self.old) (faults self.new) };

    /// Gives the next bytes of the begun text, at most as many as the buffer has room for. None for a
    /// buffer that has room mean the text's end.
    fn read(&mut self, buf: &mut [u8]) -> Result<usize, Failed>
        requires { IsTrue (ready self.old) }
        ensures bound { IfOk result (λ count. count ≤ length buf.new) }
        ensures bytes { IfOk result (λ count. Gives (left self.old) (left self.new) (take count buf.new)) }
        ensures end { IfOk result (λ count. GivesEnd buf.new count → IfSome (left self.old) (λ rest. rest ≡ [])) }
        ensures taken { IfOk result (λ count. taken self.new ≡ raised (taken self.old) count) }
        ensures ended { IfOk result (λ count. IsTrue (ended self.new) ↔ (IsTrue (ended self.old) ⊎ GivesEnd buf.new count)) }
        ensures cause { OnErr result (BegunRose (is_begun self.old) (faults self.old) (faults self.new)) }
        ensures taken_err { OnErr result (taken self.new ≡ taken self.old) }
        ensures ended_err { OnErr result (ended self.new ≡ ended self.old) }
        ensures told { is_some (left self.new) ≡ is_some (left self.old) }
        ensures begun { SameBegun (is_begun self.old) (is_begun self.new) }
        ensures ready { ready self.new ≡ ready self.old }
        ensures texts { SameTexts (text self.old) (text self.new) }
        ensures counts { NoneFalls (faults self.old) (faults self.new) };
}
