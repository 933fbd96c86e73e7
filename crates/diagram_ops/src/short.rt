//! Connectives that need no recursion.
ghost use Rattle.std.specs.Prelude.{◌≡◌, ◌⊎◌, ◌<◌, ◌≤◌, IfSome, IfNone};
ghost use Rattle.diagram_ops.specs.Connectives.{table_bit};
ghost use Rattle.diagram_ops.specs.Short.{kept_by, kept_same, mask_of, IsShort};

use crate::operands::Operands;

/// The bit of a table at three constants.
fn bit_of(table: u8, at: Operands) -> u32
    requires f { at.f < 2 }
    requires g { at.g < 2 }
    requires h { at.h < 2 }
    ensures { result ≡ table_bit table at.f at.g at.h }
{
    let place = 4 * at.f + 2 * at.g + at.h;
    ((table >> place) % 2) as u32
}

fn kept_bits(n: u32, high: u8, low: u8) -> u8
    ensures { result ≡ kept_by n high low }
{
    match n {
        0 => low,
        1 => high,
        _ => 255,
    }
}

fn kept_if_same(n: u32, m: u32, both: u8) -> u8
    ensures { result ≡ kept_same n m both }
{
    if n == m { both } else { 255 }
}

/// The bits of a table that are met at three nodes.
fn mask(at: Operands) -> u8
    ensures { result ≡ mask_of at.f at.g at.h }
{
    let one = kept_bits(at.f, 240, 15) & kept_bits(at.g, 204, 51) & kept_bits(at.h, 170, 85);
    let two = kept_if_same(at.f, at.g, 195)
        & kept_if_same(at.f, at.h, 165)
        & kept_if_same(at.g, at.h, 153);
    one & two
}

/// The connective where it is a constant or one of the three nodes at the bits that are met.
///
/// One rule for all 256 tables: the bits that three nodes can meet are compared with those of the
/// tables of the constants and of each node.
fn short_by_mask(table: u8, at: Operands) -> Option<u32>
    ensures { IfSome result (IsShort table at.f at.g at.h) }
{
    let mask = mask(at);
    let kept = table & mask;
    if kept == 0 {
        return Some(0);
    }
    if kept == mask {
        return Some(1);
    }
    if kept == 240 & mask {
        return Some(at.f);
    }
    if kept == 204 & mask {
        return Some(at.g);
    }
    if kept == 170 & mask {
        return Some(at.h);
    }
    None
}

/// The connective where it needs no new node: it is a constant, or one of the three nodes.
pub fn short_cut(table: u8, at: Operands) -> Option<u32>
    ensures short { IfSome result (IsShort table at.f at.g at.h) }
    ensures some { IfNone result ((2 ≤ at.f) ⊎ ((2 ≤ at.g) ⊎ (2 ≤ at.h))) }
{
    if at.f < 2 && at.g < 2 && at.h < 2 {
        return Some(bit_of(table, at));
    }
    short_by_mask(table, at)
}
