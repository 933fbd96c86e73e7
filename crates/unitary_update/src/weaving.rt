//! The bits of a row and a column, in turns.
ghost use Rattle.std.specs.Prelude.{◌≡◌, ◌≤◌, length};
ghost use Rattle.slice_gates.specs.Sides.{woven};

use bit_lists::Bits;

/// The bits of the row and the column in turns, those of qubit 0 first.
pub fn interleaved(row: &Bits, column: &Bits) -> Bits
    requires same { length column.now ≡ length row.now }
    requires few { length row.now ≤ 64 }
    ensures { result ≡ woven row.now column.now }
{
    let mut bits = Bits::zeros(2 * row.len());
    for q in 0..row.len() {
        bits.set(2 * q, row.get(q));
        bits.set(2 * q + 1, column.get(q));
    }
    bits
}
