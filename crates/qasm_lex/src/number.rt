//! Whole numbers in decimal.
ghost use Rattle.std.specs.Prelude.{◌≡◌, ◌≤◌, ◌+◌, ◌-◌, ◌*◌, ◌<◌, IfSome};
ghost use Rattle.qasm_lex.specs.Symbols.{decimal, number_below, narrow_number};

/// One more than the greatest number of an angle, which is 2^63 - 1.
const PAST_NUMBERS: u64 = 9223372036854775808;

fn digit_of(byte: u8) -> u128
    ensures { result ≡ byte - 48 }
{
    u128::from(byte.saturating_sub(b'0'))
}

/// The number that digits spell, where it is below the bound. Digits may be any number, also with zeros before them. The work is linear
/// in the digits.
pub fn number_below(digits: &[u8], bound: u64) -> Option<u64>
    ensures value { result ≡ number_below (decimal digits.now) bound }
    ensures within { IfSome result (λ n. n < bound) }
{
    let below = u128::from(bound);
    let mut value = 0;
    let mut rest = digits;
    while let Some((digit, after)) = rest.split_first() {
        if value >= below {
            return None;
        }
        value = value * 10 + digit_of(*digit);
        rest = after;
    }
    if value < below {
        Some(value as u64)
    } else {
        None
    }
}

/// The number that digits spell, where it is at most 2^63 - 1.
#[tactic(auto, using(crate::proofs::NumberLemmas::narrow_some, crate::proofs::NumberLemmas::narrow_none))]
pub fn narrow_number(digits: &[u8]) -> Option<i64>
    ensures { result ≡ narrow_number (decimal digits.now) }
{
    match number_below(digits, PAST_NUMBERS) {
        Some(number) => Some(number as i64),
        None => None,
    }
}
