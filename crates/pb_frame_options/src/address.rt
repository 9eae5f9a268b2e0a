//! Station addresses in options.

ghost use Rattle.std.specs.Prelude.{◌≡◌, ◌∷◌, [], ℕ, List, IfSome, IfNone};
ghost use Rattle.pb_frame.specs.Hex.{digit_value, IsPair};
ghost use Rattle.pb_frame_options.specs.Addresses.{IsAddressText, is_separator};

use pb_frame::Mac;

/// Returns the value of a hexadecimal digit in either case. None for any other character.
fn value(c: u8) -> Option<u8>
    ensures { result ≡ digit_value c }
{
    match c {
        b'0'..=b'9' => Some(c - 48),
        b'A'..=b'F' => Some(c - 55),
        b'a'..=b'f' => Some(c - 87),
        _ => None,
    }
}

/// Returns the octet of two hexadecimal digits. None if one of them is not a digit.
pub(crate) fn octet(high: u8, low: u8) -> Option<u8>
    ensures pair { IfSome result (λ b. IsPair high low b) }
    ensures none { IfNone result ((b : ℕ) → IsPair high low b → ⊥) }
{
    let (high, low) = (value(high)?, value(low)?);
    Some(high * 16 + low)
}

/// Checks whether a character separates the octets of an address: a hyphen or a colon.
fn is_separator(c: u8) -> bool
    ensures { result ≡ is_separator c }
{
    c == b'-' || c == b':'
}

/// Reads an address: six pairs of hexadecimal digits, in either case, with hyphens or colons between them. Returns None
/// for any other text. Allocates nothing.
pub fn address_of(text: &str) -> Option<Mac>
    ensures found { IfSome result (λ m. IsAddressText text.now m.0) }
    ensures none { IfNone result ((octets : List ℕ) → IsAddressText text.now octets → ⊥) }
{
    let digits = text.as_bytes();
    if digits.len() != 17 {
        return None;
    }
    for k in 0..5usize {
        if !is_separator(digits[3 * k + 2]) {
            return None;
        }
    }
    let mut octets = [0u8; 6];
    for i in 0..6usize {
        octets[i] = octet(digits[3 * i], digits[3 * i + 1])?;
    }
    Some(Mac(octets))
}

/// Returns the locally administered address of the station at the customer port of this number:
/// 02-00-00-00-01-NN, with the number as NN.
pub fn station_of(number: u8) -> Mac
    ensures { result.0 ≡ 2 ∷ 0 ∷ 0 ∷ 0 ∷ 1 ∷ number ∷ [] }
{
    Mac([2, 0, 0, 0, 1, number])
}
