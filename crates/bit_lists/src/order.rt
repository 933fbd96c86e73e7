//! Orders of variables.
ghost use Rattle.std.specs.Prelude.{◌≡◌, ◌<◌, ◌≤◌, ◌+◌, List, ℕ, length, slice_index};
ghost use Rattle.std.specs.List.{range_with_len};
ghost use Rattle.bit_lists.specs.Orders.{IsOrder, place_in, exchanged};

use std::marker::Model;

/// An order of the variables `0 .. vars` of a diagram, top first.
///
/// The place of each variable is kept beside the order, so both ways take constant time.
#[derive(Clone, Copy)]
pub struct Order {
    vars: u8,
    variables: [u8; 128],
    places: [u8; 128],
}

impl Model for Order {
    ghost use Rattle.std.specs.Prelude.{List, ℕ, take, length};
    ghost use Rattle.bit_lists.specs.KeptOrders.{padded, places_of, IsKeptOrder, kept_order_inverse};

    ghost Value = { List ℕ };

    ghost view = { λ a. take a.vars a.variables };

    ghost invariant = { λ a. IsKeptOrder a.vars a.variables a.places };

    ghost inverse = { λ o. record { vars = length o; variables = padded o; places = padded (places_of o) } };

    ghost inverse_ok = { λ a h. λ i. record {
      vars = (kept_order_inverse a.vars a.variables a.places h).0 i;
      variables = (kept_order_inverse a.vars a.variables a.places h).1 i;
      places = (kept_order_inverse a.vars a.variables a.places h).2 i;
    } };
}

impl Order {
    /// The variables in their own order.
    pub fn natural(vars: u8) -> Order
        requires { vars ≤ 128 }
        ensures { result ≡ range_with_len 0 vars }
    {
        let mut variables = [0; 128];
        for var in 0..vars {
            variables[var as usize] = var;
        }
        Order {
            vars,
            variables,
            places: variables,
        }
    }

    /// How many variables there are.
    pub fn len(&self) -> u8
        ensures value { result ≡ length self.now }
        ensures order { IsOrder self.now }
        ensures few { result ≤ 128 }
    {
        self.vars
    }

    /// The variable at a place.
    pub fn at(&self, place: u8) -> u8
        requires { place < length self.now }
        ensures { result ≡ slice_index self.now place }
    {
        self.variables[place as usize]
    }

    /// The place of a variable.
    pub fn place_of(&self, var: u8) -> u8
        requires { var < length self.now }
        ensures place { result ≡ place_in self.now var }
        ensures within { result < length self.now }
        ensures there { slice_index self.now result ≡ var }
    {
        self.places[var as usize]
    }

    /// Exchanges the variables at a place and at the next one.
    pub fn exchange(&mut self, place: u8)
        requires { place + 1 < length self.old }
        ensures { self.new ≡ exchanged self.old place }
    {
        let here = place as usize;
        let upper = self.variables[here];
        let lower = self.variables[here + 1];
        self.variables[here] = lower;
        self.variables[here + 1] = upper;
        self.places[lower as usize] = place;
        self.places[upper as usize] = place + 1;
    }
}
