//! The table of the gates.
ghost use Rattle.std.specs.Prelude.{◌≡◌, ◌+◌, ◌<◌, ◌≤◌, ◌^◌};
ghost use Rattle.gate_set.specs.Matrix.{arity_of, half_power_of, inverse_of, matrix_of};
ghost use Rattle.gate_set.specs.Private.{block_arity, block_matrix, controlled_by, entry_at};

use crate::entry::Entry;
use crate::kind::Kind;

/// What the table says of a kind.
#[derive(Clone, Copy)]
pub struct Row {
    pub inverse: Kind,
    pub half_power: u8,
    pub controls: u8,
    pub block: Block,
}

/// The part of a matrix that acts where all controls are 1.
#[derive(Clone, Copy)]
pub enum Block {
    One(Entry, Entry, Entry, Entry),
    Exchange,
}

// An entry: `_` is zero, and a number is that power of ω.
macro_rules! entry {
    (_) => { Entry::Zero };
    ($power:literal) => { Entry::Omega($power) };
}

macro_rules! block {
    ([[$a:tt, $b:tt], [$c:tt, $d:tt]]) => { Block::One(entry!($a), entry!($b), entry!($c), entry!($d)) };
    (exchange) => { Block::Exchange };
}

macro_rules! rows {
    ($kind:expr; $($name:ident: $inverse:ident, $half_power:literal, $controls:literal, $block:tt;)*) => {
        match $kind {
            $(Kind::$name => Row {
                inverse: Kind::$inverse,
                half_power: $half_power,
                controls: $controls,
                block: block!($block),
            },)*
            Kind::Phase(power) => Row {
                inverse: Kind::Phase(8u8.saturating_sub(power) % 8),
                half_power: 0,
                controls: 0,
                block: Block::One(Entry::Omega(0), Entry::Zero, Entry::Zero, Entry::Omega(power)),
            },
        }
    };
}

impl Kind {
    // A line of the table: the kind, then its inverse, its half power, its number of controls, and its block by rows. A phase stands
    // beside it, for its power.
    #[tactic(auto, unfolding(crate::specs::Matrix::matrix_of))]
    pub(crate) fn row(self) -> Row
        ensures inverse { result.inverse ≡ inverse_of self }
        ensures half_power { result.half_power ≡ half_power_of self }
        ensures controls { result.controls ≤ 2 }
        ensures few { result.controls + block_arity result.block ≤ 3 }
        ensures arity { result.controls + block_arity result.block ≡ arity_of self }
        ensures matrix { controlled_by result.controls (block_matrix result.block) ≡ matrix_of self }
    {
        rows! { self;
            Id: Id, 0, 0, [[0, _], [_, 0]];
            X: X, 0, 0, [[_, 0], [0, _]];
            Y: Y, 0, 0, [[_, 6], [2, _]];
            Z: Z, 0, 0, [[0, _], [_, 4]];
            H: H, 1, 0, [[0, 0], [0, 4]];
            S: Sdg, 0, 0, [[0, _], [_, 2]];
            Sdg: S, 0, 0, [[0, _], [_, 6]];
            T: Tdg, 0, 0, [[0, _], [_, 1]];
            Tdg: T, 0, 0, [[0, _], [_, 7]];
            RxP: RxM, 1, 0, [[0, 6], [6, 0]];
            RxM: RxP, 1, 0, [[0, 2], [2, 0]];
            RyP: RyM, 1, 0, [[0, 4], [0, 0]];
            RyM: RyP, 1, 0, [[0, 0], [4, 0]];
            Cx: Cx, 0, 1, [[_, 0], [0, _]];
            Cz: Cz, 0, 1, [[0, _], [_, 4]];
            Swap: Swap, 0, 0, exchange;
            Ccx: Ccx, 0, 2, [[_, 0], [0, _]];
            Cswap: Cswap, 0, 1, exchange;
        }
    }
}

impl Row {
    // The number of qubits.
    pub fn arity(&self) -> u8
        requires { self.now.controls ≤ 2 }
        ensures value { result ≡ self.now.controls + block_arity self.now.block }
        ensures some { 1 ≤ result }
    {
        self.controls + self.block.arity()
    }

    // The number of rows of the matrix.
    pub fn side(&self) -> u8
        requires { self.now.controls ≤ 2 }
        ensures { result ≡ 2 ^ (self.now.controls + block_arity self.now.block) }
    {
        side(self.arity())
    }

    // The identity, but for the block at the end of both rows and columns.
    pub fn entry(&self, row: u8, col: u8) -> Entry
        requires few { self.now.controls ≤ 2 }
        requires row { row < 2 ^ (self.now.controls + block_arity self.now.block) }
        requires col { col < 2 ^ (self.now.controls + block_arity self.now.block) }
        ensures { result ≡ entry_at (controlled_by self.now.controls (block_matrix self.now.block)) row col }
    {
        let first = self.side() - side(self.block.arity());
        match (row.checked_sub(first), col.checked_sub(first)) {
            (Some(row), Some(col)) => self.block.entry(row, col),
            _ if row == col => Entry::Omega(0),
            _ => Entry::Zero,
        }
    }
}

impl Block {
    fn arity(self) -> u8
        ensures value { result ≡ block_arity self }
        ensures some { 1 ≤ result }
        ensures few { result ≤ 2 }
    {
        match self {
            Block::One(..) => 1,
            Block::Exchange => 2,
        }
    }

    fn entry(self, row: u8, col: u8) -> Entry
        requires row { row < 2 ^ block_arity self }
        requires col { col < 2 ^ block_arity self }
        ensures { result ≡ entry_at (block_matrix self) row col }
    {
        match self {
            Block::One(a, b, c, d) => match (row, col) {
                (0, 0) => a,
                (0, _) => b,
                (_, 0) => c,
                _ => d,
            },
            Block::Exchange => match (row, col) {
                (0, 0) | (1, 2) | (2, 1) | (3, 3) => Entry::Omega(0),
                _ => Entry::Zero,
            },
        }
    }
}

// The number of rows of a matrix on so many qubits.
fn side(arity: u8) -> u8
    requires { arity ≤ 4 }
    ensures { result ≡ 2 ^ arity }
{
    1 << arity
}
