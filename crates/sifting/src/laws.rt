//! Laws of the sifted place, and of the order that sifting variables in turn leads to. Each is the contract of a function without a body.
ghost use Rattle.std.specs.Prelude.{◌≡◌, ◌≤◌, ℕ, ◌+◌, List, length};
ghost use Rattle.bit_lists.specs.Orders.{IsOrder};
ghost use Rattle.diagram_model.specs.Functions.{Function};
ghost use Rattle.sifting.specs.Places.{Sift, IsSiftedPlace};
ghost use Rattle.sifting.specs.Answers.{AreInTurn, SiftsTo, SameFunctions, last_order};
ghost use Rattle.sifting.specs.declared.sift.Sifted.{Sifted};

/// There is at most one sifted place.
pub fn sifted_places_are_unique()
    ensures { (s : Sift) (p q : ℕ) → IsSiftedPlace s p → IsSiftedPlace s q → p ≡ q }
{}

/// Sifting variables in turn leads to one order: there is one, and no other. It has the same variables.
pub fn variables_sift_to_one_order()
    ensures some { (fs : List Function) (limit k v : ℕ) (order : List ℕ) → IsOrder order → v + k ≤ length order → (new : List ℕ) × SiftsTo fs limit k v order new }
    ensures unique { (fs : List Function) (limit k v : ℕ) (order a b : List ℕ) → SiftsTo fs limit k v order a → SiftsTo fs limit k v order b → a ≡ b }
    ensures variables { (fs : List Function) (limit k v : ℕ) (order new : List ℕ) → IsOrder order → v + k ≤ length order → SiftsTo fs limit k v order new → IsOrder new × (length new ≡ length order) }
{}

/// For the order it doesn't matter how often a function is named, nor where.
pub fn same_functions_sift_alike()
    ensures { (fs gs : List Function) (limit k v : ℕ) (order new : List ℕ) → SameFunctions fs gs → SiftsTo fs limit k v order new → SiftsTo gs limit k v order new }
{}

/// The order of the last of several answers is that order.
pub fn answers_lead_to_the_order()
    ensures { (fs : List Function) (limit : ℕ) (order : List ℕ) (v : ℕ) (rs : List Sifted) → AreInTurn fs limit order v rs → SiftsTo fs limit (length rs) v order (last_order order rs) }
{}
