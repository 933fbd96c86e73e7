//! The texts that a run writes.
use amp_printer::{
    Counted, ListingLine, Verdict, count_line, entry_text, state_line, verdict_text, weight_line,
};
use call_rows::{Page, Row};

pub fn tell(row: &mut Row<'_>, page: &mut Page) {
    match row.name() {
        "entry" => page.put(entry_text(row.quad(), row.count()).as_bytes()),
        "state" => page.put(state_line(&row.bits(), row.quad(), row.count()).as_bytes()),
        "listing" => tell_listing(row, page),
        "weight" => page.put(weight_line(&row.bits(), row.weight(), row.count()).as_bytes()),
        "counts" => tell_counts(page),
        "scalar" => tell_scalar(row, page),
        "difference" => tell_difference(row, page),
        _ => page.text("no such call"),
    }
}

// Lines one after another, each made of the one before.
fn tell_listing(row: &mut Row<'_>, page: &mut Page) {
    let mut line = ListingLine::new();
    page.put(line.as_bytes());
    for _ in 0..100 {
        if !row.is_over() {
            line.change(&row.bits(), row.quad(), row.count());
            page.put(line.as_bytes());
        }
    }
}

static COUNTS: [(Counted, u128); 6] = [
    (Counted::Qubits, 2),
    (Counted::States, 0),
    (Counted::Measured, 64),
    (Counted::Outcomes, 18446744073709551616),
    (Counted::Gates, 2004),
    (Counted::Exponent, u128::MAX),
];

fn tell_counts(page: &mut Page) {
    for &(word, n) in &COUNTS {
        page.put(count_line(word, n).as_bytes());
    }
}

fn tell_difference(row: &mut Row<'_>, page: &mut Page) {
    let differs = Verdict::Differs {
        row: row.bits(),
        col: row.bits(),
        value: (row.quad(), row.count()),
        corner: (row.quad(), row.count()),
    };
    page.put(verdict_text(&differs).as_bytes());
}

fn tell_scalar(row: &mut Row<'_>, page: &mut Page) {
    let scalar = Verdict::Scalar(row.quad(), row.count());
    page.put(verdict_text(&scalar).as_bytes());
}
