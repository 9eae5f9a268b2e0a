//! Octets as hexadecimal texts.

ghost use Rattle.std.specs.Prelude.{◌≡◌, ◌/◌, ◌%◌, ◌*◌, ◌<◌, ◌≤◌, ◌↔◌, ◌++◌, ◌∷◌, true, false, length, string_bytes};
ghost use Rattle.std.specs.Prelude.{IfOk, OnOk, IfSome, IfNone, Some, None, IsSome, IsErrOf, [], ℕ};
ghost use Rattle.std.specs.List.{list_all, list_any};
ghost use Rattle.pb_frame.specs.Hex.{digit_value, is_digit, is_upper, IsPair, IsHex, hex_text as text_of, lower_digit};
ghost use Rattle.pb_frame.specs.Hex.{upper_digit};
ghost use Rattle.pb_frame.specs.declared.hex.HexFault.{HexFault};
ghost use Rattle.pb_frame.specs.declared.hex.HexFault.TheVariants.{Memory as memory_fault};

use crate::memory::Memory;
use bytes::{Bytes, BytesMut};
use std::alloc::{AllocError, AllocFailed, Global};
use thiserror::Error;

/// The fault of a text that is not octets in hexadecimal.
#[derive(Clone, Copy, Debug, PartialEq, Eq, Error)]
pub enum HexFault {
    /// A character that is not a hexadecimal digit.
    #[error("not a hexadecimal digit")]
    Digit,
    /// An odd number of digits.
    #[error("an odd number of digits")]
    Odd,
    /// An allocation that failed.
    #[error("out of memory")]
    Memory,
}

impl From<AllocError> for HexFault {
    ghost from_gives = { λ _ e. e ≡ memory_fault };

    fn from(_e: AllocError) -> HexFault {
        HexFault::Memory
    }
}

impl<T: Drop> From<AllocFailed<T>> for HexFault {
    ghost from_gives = { λ _ e. e ≡ memory_fault };

    fn from(_e: AllocFailed<T>) -> HexFault {
        HexFault::Memory
    }
}

/// The least number of octets that a buffer grows by.
const BLOCK: usize = 65_536;

/// Returns the value of a digit in either case, 0 to 15, or 255 if the character is not a digit.
fn value(c: u8) -> u8
    ensures digit { result < 16 → digit_value c ≡ Some result }
    ensures none { 16 ≤ result → digit_value c ≡ None }
{
    match c {
        b'0'..=b'9' => c - 48,
        b'A'..=b'F' => c - 55,
        b'a'..=b'f' => c - 87,
        _ => 255,
    }
}

/// Returns the octet of two digits, or `None` if one of them is not a digit.
pub(crate) fn octet(high: u8, low: u8) -> Option<u8>
    ensures pair { IfSome result (λ b. IsPair high low b) }
    ensures none { IfNone result ((b : ℕ) → IsPair high low b → ⊥) }
    ensures some { is_digit high ≡ true → is_digit low ≡ true → IsSome result }
{
    let high = value(high);
    let low = value(low);
    if high < 16 && low < 16 {
        Some(high * 16 + low)
    } else {
        None
    }
}

/// Checks that all characters are digits. It inspects each of them without a branch, which lets the compiler
/// vectorise the loop.
fn all_digits(text: &[u8]) -> bool
    ensures { result ≡ list_all is_digit text.now }
{
    let mut all = true;
    for c in text {
        let is_decimal = c.wrapping_sub(48) < 10;
        let is_large = c.wrapping_sub(65) < 6;
        let is_small = c.wrapping_sub(97) < 6;
        all &= is_decimal | is_large | is_small;
    }
    all
}

/// Reads pairs of hexadecimal digits, in either case.
///
/// # Errors
///
/// `Digit` if a character is not a hexadecimal digit, otherwise `Odd` if the number of digits is odd, otherwise
/// `Memory` if an allocation failed.
pub fn hex_read(alloc: Global, text: &str) -> Result<Bytes, HexFault>
    ensures ok { IfOk result (λ b. IsHex text.now b) }
    ensures digit { IsErrOf result HexFault.Digit ↔ (list_all is_digit text.now ≡ false) }
    ensures odd { IsErrOf result HexFault.Odd ↔ ((list_all is_digit text.now ≡ true) × (length text.now % 2 ≡ 1)) }
{
    hex_octets(alloc, text.as_bytes())
}

/// Reads pairs of hexadecimal digits, in either case, from the bytes of a text.
///
/// # Errors
///
/// Those of [`hex_read`].
pub fn hex_octets(alloc: Global, digits: &[u8]) -> Result<Bytes, HexFault>
    ensures ok { IfOk result (λ b. IsHex digits.now b) }
    ensures digit { IsErrOf result HexFault.Digit ↔ (list_all is_digit digits.now ≡ false) }
    ensures odd { IsErrOf result HexFault.Odd ↔ ((list_all is_digit digits.now ≡ true) × (length digits.now % 2 ≡ 1)) }
{
    check_pairs(digits)?;
    let mut octets = vec![in alloc; 0u8; digits.len() / 2]?;
    read_pairs(digits, octets.as_mut_slice());
    Ok(Bytes::from_vec(octets)?)
}

/// Reads pairs of hexadecimal digits, in either case, into an empty buffer, and splits the octets off it. They share
/// the buffer's memory. The buffer grows by at least 64 KiB at a time, and frees a block when the last of its octets
/// is dropped. The buffer is empty again afterwards.
///
/// # Errors
///
/// Those of [`hex_read`]. The buffer is empty then.
pub fn hex_octets_in(buffer: &mut BytesMut, digits: &[u8]) -> Result<Bytes, HexFault>
    requires { buffer.old.items ≡ [] }
    ensures ok { IfOk result (λ b. IsHex digits.now b) }
    ensures empty { buffer.new.items ≡ [] }
    ensures digit { IsErrOf result HexFault.Digit ↔ (list_all is_digit digits.now ≡ false) }
    ensures odd { IsErrOf result HexFault.Odd ↔ ((list_all is_digit digits.now ≡ true) × (length digits.now % 2 ≡ 1)) }
{
    check_pairs(digits)?;
    let count = digits.len() / 2;
    if buffer.capacity() < count {
        buffer.reserve(count.max(BLOCK))?;
    }
    buffer.advance_mut(count);
    read_pairs(digits, buffer.as_mut_slice());
    match buffer.freeze_to(count) {
        Ok(octets) => Ok(octets),
        Err(AllocError) => {
            buffer.clear();
            Err(HexFault::Memory)
        }
    }
}

/// Checks that the text is pairs of digits.
///
/// # Errors
///
/// `Digit` if a character is not a hexadecimal digit, otherwise `Odd` if the number of digits is odd.
fn check_pairs(digits: &[u8]) -> Result<(), HexFault>
    ensures digits { OnOk result (list_all is_digit digits.now ≡ true) }
    ensures even { OnOk result (length digits.now % 2 ≡ 0) }
    ensures digit { IsErrOf result HexFault.Digit ↔ (list_all is_digit digits.now ≡ false) }
    ensures odd { IsErrOf result HexFault.Odd ↔ ((list_all is_digit digits.now ≡ true) × (length digits.now % 2 ≡ 1)) }
{
    if !all_digits(digits) {
        return Err(HexFault::Digit);
    }
    if digits.len() % 2 != 0 {
        return Err(HexFault::Odd);
    }
    Ok(())
}

/// Writes the octets of the digits into `octets`. It reads both digits of an octet at once. The low four bits of a
/// decimal digit are its value. A letter has bit 6 set, and its value is nine more than its low four bits.
fn read_pairs(digits: &[u8], octets: &mut [u8])
    requires long { length digits.now ≡ 2 * length octets.old }
    requires digits { list_all is_digit digits.now ≡ true }
    ensures { IsHex digits.now octets.new }
{
    for i in 0..octets.len() {
        let pair = u16::from(digits[2 * i]) + u16::from(digits[2 * i + 1]) * 256;
        let values = (pair & 0x0f0f) + (pair / 64 & 0x0101) * 9;
        octets[i] = (values % 256 * 16 + values / 256) as u8;
    }
}

/// Checks whether a digit is a letter in upper case. Digits without one are the text that [`hex_text`] writes for
/// their octets.
pub fn has_upper_case(digits: &[u8]) -> bool
    ensures { result ≡ list_any is_upper digits.now }
{
    let mut found = false;
    for digit in digits {
        found |= digit.wrapping_sub(65) < 6;
    }
    found
}

/// Returns the lower case digit of a number below 16.
fn lower(n: u8) -> char
    requires { n < 16 }
    ensures { result ≡ lower_digit n }
{
    char::from(if n <= 9 { n + 48 } else { n + 87 })
}

/// Returns the upper case digit of a number below 16.
fn upper(n: u8) -> char
    requires { n < 16 }
    ensures { result ≡ upper_digit n }
{
    char::from(if n <= 9 { n + 48 } else { n + 55 })
}

/// Appends the two digits of an octet to a text, in lower case.
///
/// # Errors
///
/// `Memory` if an allocation failed.
fn put_lower(text: &mut String, octet: u8) -> Result<(), Memory>
    ensures { OnOk result (string_bytes text.new ≡ string_bytes text.old
        ++ lower_digit (octet / 16) ∷ lower_digit (octet % 16) ∷ []) }
{
    text.push(lower(octet / 16))?;
    text.push(lower(octet % 16))?;
    Ok(())
}

/// Appends the two digits of an octet to a text, in upper case.
///
/// # Errors
///
/// `Memory` if an allocation failed.
pub(crate) fn put_upper(text: &mut String, octet: u8) -> Result<(), Memory>
    ensures { OnOk result (string_bytes text.new ≡ string_bytes text.old
        ++ upper_digit (octet / 16) ∷ upper_digit (octet % 16) ∷ []) }
{
    text.push(upper(octet / 16))?;
    text.push(upper(octet % 16))?;
    Ok(())
}

/// Returns two hexadecimal digits for each octet, in lower case.
///
/// # Errors
///
/// `Memory` if an allocation failed.
pub fn hex_text(alloc: Global, octets: &[u8]) -> Result<String, Memory>
    ensures { IfOk result (λ text. string_bytes text ≡ text_of octets.now) }
{
    let mut text = String::new(alloc);
    for octet in octets {
        put_lower(&mut text, *octet)?;
    }
    Ok(text)
}
