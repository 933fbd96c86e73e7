//! The counts among a snapshot's numbers.
ghost use Rattle.std.specs.Prelude.{◌≡◌, ◌≤◌, ◌+◌, length, slice_index_or, IfSome, IfNone};
ghost use Rattle.snapshot.specs.Reading.{HasShape};

/// How many variables, the exponent, the width, and how many nodes.
#[derive(Clone, Copy, Debug, PartialEq, Eq)]
pub struct Shape {
    pub qubits: u8,
    pub exponent: u32,
    pub width: u8,
    pub nodes: u32,
}

/// The counts among the numbers, where they are in their ranges and there are as many numbers as they say.
pub fn shape_of(numbers: &[u32]) -> Option<Shape>
    ensures some { IfSome result (HasShape numbers.now) }
    ensures none { IfNone result ((p : Shape) → HasShape numbers.now p → ⊥) }
{
    if numbers.len() < 5 {
        return None;
    }
    if numbers[1] > 64 {
        return None;
    }
    let qubits = numbers[1] as u8;
    let at = 2 + qubits as usize;
    if numbers.len() < at + 3 {
        return None;
    }
    let shape = counted(qubits, numbers[at], numbers[at + 1], numbers[at + 2])?;
    if numbers.len() != at + 3 + 3 * shape.nodes as usize + 4 * shape.width as usize {
        return None;
    }
    Some(shape)
}

/// The counts, where they are in their ranges.
fn counted(qubits: u8, exponent: u32, width: u32, nodes: u32) -> Option<Shape>
    ensures some { IfSome result (λ p. (p.qubits ≡ qubits) × (p.exponent ≡ exponent) × (p.width ≡ width) × (p.nodes ≡ nodes)) }
    ensures small { IfSome result (λ p. p.exponent ≤ 1000000) }
    ensures least { IfSome result (λ p. 2 ≤ p.width) }
    ensures greatest { IfSome result (λ p. p.width ≤ 128) }
    ensures most { IfSome result (λ p. p.nodes ≤ 16777216) }
    ensures none { IfNone result (exponent ≤ 1000000 → 2 ≤ width → width ≤ 128 → nodes ≤ 16777216 → ⊥) }
{
    if exponent > 1_000_000 {
        return None;
    }
    if width < 2 {
        return None;
    }
    if width > 128 {
        return None;
    }
    if nodes > 16_777_216 {
        return None;
    }
    Some(Shape {
        qubits,
        exponent,
        width: width as u8,
        nodes,
    })
}
