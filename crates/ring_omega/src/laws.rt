//! Laws of the ring and of lowest forms. Each call does nothing: its contract is the law.
ghost use Rattle.std.specs.Prelude.{◌≡◌, ℕ, pos};
ghost use Rattle.ring_omega.specs.declared.quad.Quad.{Quad};
ghost use Rattle.ring_omega.specs.declared.weight.Weight.{Weight};
ghost use Rattle.ring_omega.specs.Ring.{quad, product_of, conjugate_of, root_of_two, zero_quad};
ghost use Rattle.ring_omega.specs.Value.{IsLowestForm};
ghost use Rattle.ring_omega.specs.Lowest.{lowest_form};
ghost use Rattle.ring_omega.specs.Weights.{weight_of, weight_quad, zero_weight, IsLowestWeight, lowest_weight_form};

/// The square of the number that stands for √2 is 2.
pub fn root_of_two_squared()
    ensures { product_of root_of_two root_of_two ≡ quad (pos 0) (pos 0) (pos 0) (pos 2) }
{}

/// A value has one lowest form.
pub fn lowest_form_is_unique()
    ensures { (q p r : Quad) (k j i : ℕ) → IsLowestForm q k p j → IsLowestForm q k r i → (p ≡ r) × (j ≡ i) }
{}

/// The lowest form of zero is zero over the power 0.
pub fn lowest_form_of_zero()
    ensures { (k : ℕ) → IsLowestForm zero_quad k zero_quad 0 }
{}

/// The computed lowest form is the lowest form.
pub fn lowest_form_is_lowest()
    ensures { (q : Quad) (k : ℕ) → IsLowestForm q k (lowest_form q k).0 (lowest_form q k).1 }
{}

/// The weight of a number is the number times its conjugate.
pub fn weight_is_squared_magnitude()
    ensures { (q : Quad) → product_of q (conjugate_of q) ≡ weight_quad (weight_of q) }
{}

/// A weight over a power of 2 has one lowest form.
pub fn lowest_weight_is_unique()
    ensures { (w v u : Weight) (k j i : ℕ) → IsLowestWeight w k v j → IsLowestWeight w k u i → (v ≡ u) × (j ≡ i) }
{}

/// The lowest form of the weight zero is zero over the power 0.
pub fn lowest_weight_of_zero()
    ensures { (k : ℕ) → IsLowestWeight zero_weight k zero_weight 0 }
{}

/// The computed lowest form of a weight is its lowest form.
pub fn lowest_weight_form_is_lowest()
    ensures { (w : Weight) (k : ℕ) → IsLowestWeight w k (lowest_weight_form w k).0 (lowest_weight_form w k).1 }
{}
