//! How runs end: their exit status and their lines on err.
use crate::sinks::sink_of;
use bit_lists::Order;
use call_rows::{Page, Row};
use causes::{Cause, end};
use qasm_lex::AngleRefusal;
use qasm_reader::{Refusal, Why};

pub fn tell(row: &mut Row<'_>, page: &mut Page) {
    match row.name() {
        "refused" => tell_reasons(page),
        "memory" => tell_end(Cause::OutOfMemory, page),
        "width" => tell_end(Cause::Width { step: 1_000_000 }, page),
        "nodes" => tell_end(nodes(), page),
        _ => page.text("no such end"),
    }
}

// The status, whether memory was wanted, and the lines.
fn tell_end(cause: Cause, page: &mut Page) {
    match sink_of(page.alloc, 100, 1_000, 0) {
        Ok(mut err) => {
            let ended = end(cause, &mut err);
            page.show(&(ended.status, matches!(ended.cause, Cause::OutOfMemory)));
            page.text(" ");
            page.put(err.written());
        }
        Err(stop) => page.show(&stop),
    }
}

fn nodes() -> Cause {
    Cause::Nodes {
        step: 4_000_000_000,
        order: Order::natural(128),
        held: 16_777_216,
    }
}

/// Each reason.
static REASONS: [Why; 22] = [
    Why::BadByte(0),
    Why::NoVersion,
    Why::NotAStatement,
    Why::OutOfProfile,
    Why::UnknownName,
    Why::Redeclared,
    Why::UnknownRegister,
    Why::IndexOutOfRange,
    Why::WrongCount,
    Why::SizesDiffer,
    Why::RepeatedQubit,
    Why::TooDeep,
    Why::TooManyItems,
    Why::AngleRefused(AngleRefusal::TooLong),
    Why::AngleRefused(AngleRefusal::Malformed),
    Why::AngleRefused(AngleRefusal::NotExact),
    Why::AngleRefused(AngleRefusal::ZeroDivisor),
    Why::AngleRefused(AngleRefusal::TooWide),
    Why::OffGrid,
    Why::Measured,
    Why::TooManyQubits,
    Why::TooManyGates,
];

fn tell_reasons(page: &mut Page) {
    for &why in &REASONS {
        let statement = 4_000_000_000;
        let refusal = Refusal { statement, why };
        tell_end(Cause::Refused { file: 1, refusal }, page);
    }
}
