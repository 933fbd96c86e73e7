//! What a comparison of two circuits says.
ghost use Rattle.std.specs.Prelude.{◌≡◌, ◌≤◌, length};
ghost use Rattle.amp_printer.specs.declared.verdict.Verdict.TheVariants.{Scalar, Differs};
ghost use Rattle.amp_printer.specs.Verdicts.{verdict_text, IsShort};

use crate::Line;
use bit_lists::Bits;
use ring_omega::Quad;

/// What is said of the matrix U·V† of two circuits. A number q/√2^k is given by q and k.
#[derive(Clone, Copy)]
pub enum Verdict {
    /// It is this number times the identity, so the circuits are the same up to this scalar.
    Scalar(Quad, u32),
    /// The first position, row by row, at which it is not its corner times the identity: row and column with qubit 0 first, the entry
    /// there, and the corner, which is the entry at all zeros.
    Differs {
        row: Bits,
        col: Bits,
        value: (Quad, u32),
        corner: (Quad, u32),
    },
}

/// The lines of a verdict: `equivalent` and `scalar ENTRY`, or `differs`, `row BITS column BITS`, `value ENTRY` and `corner ENTRY`.
pub fn verdict_text(v: &Verdict) -> Line
    requires { IsShort v.now }
    ensures { result ≡ verdict_text v.now }
{
    match v {
        Verdict::Scalar(q, k) => scalar_text(*q, *k),
        Verdict::Differs {
            row,
            col,
            value,
            corner,
        } => difference_text(row, col, *value, *corner),
    }
}

#[tactic(auto, unfolding(crate::specs::Verdicts::verdict_text))]
fn scalar_text(q: Quad, k: u32) -> Line
    ensures { result ≡ verdict_text (Scalar q k) }
{
    let mut line = Line::new();
    line.add(b"equivalent\nscalar ");
    line.add_entry(q, k);
    line.add(b"\n");
    line
}

#[tactic(auto, unfolding(crate::specs::Verdicts::verdict_text))]
fn difference_text(row: &Bits, col: &Bits, value: (Quad, u32), corner: (Quad, u32)) -> Line
    requires row { length row.now ≤ 64 }
    requires col { length col.now ≤ 64 }
    ensures { result ≡ verdict_text (Differs row.now col.now value corner) }
{
    let mut line = Line::new();
    line.add(b"differs\nrow ");
    line.add_bits(row);
    line.add(b" column ");
    line.add_bits(col);
    line.add(b"\nvalue ");
    line.add_entry(value.0, value.1);
    line.add(b"\ncorner ");
    line.add_entry(corner.0, corner.1);
    line.add(b"\n");
    line
}
