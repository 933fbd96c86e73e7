//! The values of words.
ghost use Rattle.std.specs.Prelude.{◌≡◌, ◌≤◌, IfSome, Bool, List};
ghost use Rattle.std.specs.List.{list_all};
ghost use Rattle.sliq_words.specs.Values.{is_digit, is_number, number_in, bits_of};

use bit_lists::Bits;

/// The most digits of a number.
const DIGITS: usize = 20;

/// The most bits of a list.
const BITS: usize = 64;

/// Whether these bytes are digits.
fn are_digits(bytes: &[u8]) -> bool
    ensures { result ≡ list_all is_digit bytes.now }
{
    bytes.iter().all(|byte| 48 <= *byte && *byte <= 57)
}

/// Whether a text is 1 to 20 digits.
fn is_numeral(text: &str) -> bool
    ensures { result ≡ is_number text.now }
{
    let bytes = text.as_bytes();
    0 < bytes.len() && bytes.len() <= DIGITS && are_digits(bytes)
}

/// The number that a text of 1 to 20 digits writes, where it lies in the range.
pub fn number(text: &str, least: u64, most: u64) -> Option<u64>
    ensures value { result ≡ number_in least most text.now }
    ensures range { IfSome result (λ n. (least ≤ n) × (n ≤ most)) }
{
    if !is_numeral(text) {
        return None;
    }
    let Ok(number) = text.parse::<u64>() else {
        return None;
    };
    if number < least || most < number {
        return None;
    }
    Some(number)
}

/// The list that a text of at most 64 bits spells.
pub fn bits(text: &str) -> Option<Bits>
    ensures { result ≡ bits_of text.now }
{
    if text.len() > BITS {
        return None;
    }
    Bits::from_text(text.as_bytes())
}
