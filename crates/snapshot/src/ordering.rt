//! An order from its variables.
ghost use Rattle.std.specs.Prelude.{◌≡◌, ◌<◌, ◌≤◌, Some, IfSome, length, take, get_or};
ghost use Rattle.bit_lists.specs.Orders.{IsOrder};

use bit_lists::Order;

/// The order of these variables, where they are one. Others give some order, or none.
pub fn order_of(variables: &[u32]) -> Option<Order>
    requires few { length variables.now ≤ 64 }
    ensures order { IsOrder variables.now → result ≡ Some variables.now }
    ensures len { IfSome result (λ o. length o ≡ length variables.now) }
{
    let vars = variables.len() as u8;
    let mut order = Order::natural(vars);
    for place in 0..vars {
        let var = variables[place as usize];
        if var >= u32::from(vars) {
            return None;
        }
        let from = order.place_of(var as u8);
        if from < place {
            return None;
        }
        bring(&mut order, from, place);
    }
    Some(order)
}

/// Brings the variable at a place up to another one; those between move down.
fn bring(order: &mut Order, from: u8, to: u8)
    requires from { from < length order.old }
    requires up { to ≤ from }
    ensures above { take to order.new ≡ take to order.old }
    ensures here { get_or order.new to 0 ≡ get_or order.old from 0 }
    ensures len { length order.new ≡ length order.old }
{
    let mut at = from;
    while at > to {
        at -= 1;
        order.exchange(at);
    }
}
