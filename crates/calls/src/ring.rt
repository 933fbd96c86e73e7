//! Exact numbers, their lowest forms and their weights.
use call_rows::{Page, Row};
use ring_omega::{Quad, lowest, lowest_weight};

pub fn tell(row: &mut Row<'_>, page: &mut Page) {
    match row.name() {
        "turned" => page.show(&row.quad().times_omega(row.small(7))),
        "both ways" => tell_both_ways(row.quad(), row.quad(), page),
        "conjugate" => page.show(&row.quad().conj()),
        "lowest" => page.show(&lowest(row.quad(), row.count())),
        "weight" => page.show(&row.quad().weight()),
        "lowest weight" => page.show(&lowest_weight(row.weight(), row.count())),
        "zero" => page.show(&(Quad::ZERO.is_zero(), row.quad().is_zero())),
        _ => page.text("no such call"),
    }
}

// The sum and the difference of two numbers.
fn tell_both_ways(left: Quad, right: Quad, page: &mut Page) {
    page.show(&left.plus(right));
    page.show(&left.minus(right));
}
