//! Quadruples of 128-bit integers, as numbers of the ring.
ghost use Rattle.std.specs.Prelude.{◌≤◌, ◌≡◌, ◌↔◌, IsTrue};
ghost use Rattle.std.specs.Option.{SomeIff};
ghost use Rattle.ring_omega.specs.Private.{all_of};
ghost use Rattle.ring_omega.specs.Ring.{Fits, sum_of, difference_of, times_power, conjugate_of, omega_unit, zero_quad};

/// The number aω³ + bω² + cω + d, where ω is a primitive eighth root of unity, so that ω⁴ = -1.
#[derive(Clone, Copy, PartialEq, Eq, Debug)]
pub struct Quad {
    pub a: i128,
    pub b: i128,
    pub c: i128,
    pub d: i128,
}

impl Quad {
    pub const ZERO: Quad = Quad {
        a: 0,
        b: 0,
        c: 0,
        d: 0,
    };

    pub fn is_zero(self) -> bool
        ensures { IsTrue result ↔ (self ≡ zero_quad) }
    {
        self == Quad::ZERO
    }

    /// ω to the power `j`, times this number.
    pub fn times_omega(self, j: u8) -> Option<Quad>
        requires { j ≤ 7 }
        ensures { SomeIff result (Fits (times_power omega_unit j self)) (times_power omega_unit j self) }
    {
        let Quad { a, b, c, d } = self;
        match j {
            0 => Some(self),
            1 => gathered(Some(b), Some(c), Some(d), a.checked_neg()),
            2 => gathered(Some(c), Some(d), a.checked_neg(), b.checked_neg()),
            3 => gathered(Some(d), a.checked_neg(), b.checked_neg(), c.checked_neg()),
            4 => gathered(
                a.checked_neg(),
                b.checked_neg(),
                c.checked_neg(),
                d.checked_neg(),
            ),
            5 => gathered(b.checked_neg(), c.checked_neg(), d.checked_neg(), Some(a)),
            6 => gathered(c.checked_neg(), d.checked_neg(), Some(a), Some(b)),
            _ => gathered(d.checked_neg(), Some(a), Some(b), Some(c)),
        }
    }

    pub fn plus(self, other: Quad) -> Option<Quad>
        ensures { SomeIff result (Fits (sum_of self other)) (sum_of self other) }
    {
        gathered(
            self.a.checked_add(other.a),
            self.b.checked_add(other.b),
            self.c.checked_add(other.c),
            self.d.checked_add(other.d),
        )
    }

    pub fn minus(self, other: Quad) -> Option<Quad>
        ensures { SomeIff result (Fits (difference_of self other)) (difference_of self other) }
    {
        gathered(
            self.a.checked_sub(other.a),
            self.b.checked_sub(other.b),
            self.c.checked_sub(other.c),
            self.d.checked_sub(other.d),
        )
    }

    /// The complex conjugate.
    pub fn conj(self) -> Option<Quad>
        ensures { SomeIff result (Fits (conjugate_of self)) (conjugate_of self) }
    {
        gathered(
            self.c.checked_neg(),
            self.b.checked_neg(),
            self.a.checked_neg(),
            Some(self.d),
        )
    }
}

// The number with these coordinates, if none is missing.
fn gathered(a: Option<i128>, b: Option<i128>, c: Option<i128>, d: Option<i128>) -> Option<Quad>
    ensures { result ≡ all_of a b c d }
{
    match (a, b, c, d) {
        (Some(a), Some(b), Some(c), Some(d)) => Some(Quad { a, b, c, d }),
        _ => None,
    }
}
