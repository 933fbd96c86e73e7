//! Lists of bits, partial lists and orders.
use bit_lists::{Bits, Order, Partial, bit_of, with_bit};
use call_rows::{Page, Row};

pub fn tell(row: &mut Row<'_>, page: &mut Page) {
    match row.name() {
        "next" => tell_text(row, page),
        "zeros" => tell_next(Bits::zeros(row.small(128)), page),
        "clear" => tell_cleared(row, page),
        "place" => page.show(&at_place()),
        "partial" => page.show(&half_free()),
        "order" => page.show(&exchanged()),
        _ => page.text("no such call"),
    }
}

// A list, and the one after it.
fn tell_next(x: Bits, page: &mut Page) {
    page.bits(&x);
    match x.next_lex() {
        Some(next) => {
            page.text(" before ");
            page.bits(&next);
        }
        None => page.text(" is the last"),
    }
}

fn tell_text(row: &mut Row<'_>, page: &mut Page) {
    match Bits::from_text(row.word()) {
        Some(x) => tell_next(x, page),
        None => page.text("no list"),
    }
}

// The same of a list of which a bit is cleared.
fn tell_cleared(row: &mut Row<'_>, page: &mut Page) {
    let mut x = Bits::from_text(row.word()).unwrap_or(Bits::zeros(0));
    let place = row.small(127);
    if place < x.len() {
        x.set(place, false);
    }
    tell_next(x, page);
}

// The bits of the list at place 2 of those of two bits, its place where one bit is another, and the list by itself.
fn at_place() -> ((bool, bool), (u128, u128), (bool, bool, u128)) {
    let x = Bits::at_place(2, 2);
    (
        (bit_of(2, 2, 0), bit_of(2, 2, 1)),
        (with_bit(2, 2, 1, true), with_bit(2, 2, 0, false)),
        (x.get(0), x.get(1), x.place()),
    )
}

// A list of which the second value is fixed to 1: its values, and whether 00 and 01 agree with it.
fn half_free() -> (Option<bool>, Option<bool>, bool, bool) {
    let mut partial = Partial::free(2);
    partial.fix(1, Some(true));
    let zeros = Bits::zeros(2);
    let mut one = zeros;
    one.set(1, true);
    (
        partial.get(0),
        partial.get(1),
        partial.agrees(&zeros),
        partial.agrees(&one),
    )
}

// Three variables of which the last two are exchanged: how many, which stand there, and the places of the last and the first one.
fn exchanged() -> (u8, u8, u8, u8, u8) {
    let mut order = Order::natural(3);
    order.exchange(1);
    (
        order.len(),
        order.at(1),
        order.at(2),
        order.place_of(2),
        order.place_of(0),
    )
}
