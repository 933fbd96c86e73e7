//! Outcomes of a measurement, and sums of weights.
ghost use Rattle.std.specs.Prelude.{◌≤◌, length};

use call_rows::{Page, Row};
use probabilities::{counted, fixed_to, measured_count, plus};
use ring_omega::Weight;

pub fn tell(row: &mut Row<'_>, page: &mut Page) {
    match row.name() {
        "states" => tell_all_states(row, page),
        "sum" => page.show(&plus(Weight { a: 2, b: 1 }, Weight { a: 3, b: -1 })),
        _ => page.text("no such call"),
    }
}

/// Which qubits are measured.
static FLAGS: [&[bool]; 5] = [
    &[],
    &[false, false],
    &[true, false, true],
    &[false, true, false],
    &[true, true, true, true],
];

// For each of them an outcome of the row.
fn tell_all_states(row: &mut Row<'_>, page: &mut Page) {
    for flags in &FLAGS {
        if flags.len() <= 128 {
            tell_states(flags, row, page);
        }
    }
}

// How many qubits count as measured, and the states with an outcome.
fn tell_states(flags: &[bool], row: &mut Row<'_>, page: &mut Page)
    requires { length flags.now ≤ 128 }
{
    let measured = counted(flags);
    let count = measured_count(&measured);
    page.show(&count);
    if count <= 128 {
        let p = fixed_to(&measured, &row.bits_of(count));
        for i in 0..p.len() {
            page.text(sign_of(p.get(i)));
        }
        page.text("\n");
    }
}

fn sign_of(value: Option<bool>) -> &'static str {
    match value {
        None => "*",
        Some(false) => "0",
        Some(true) => "1",
    }
}
