//! Hexadecimal digits.

ghost use Rattle.std.specs.Prelude.{◌≡◌, []};

use bytes::BytesMut;
use pb_frame::{HexFault, Memory, has_upper_case, hex_octets, hex_octets_in, hex_read, hex_text};
use std::alloc::Global;
use std::test::Fail;

const OCTETS: &[u8] = b"\x00\xaf\xfa";

/// Checks whether these octets are read from digits.
fn are_read(alloc: Global, digits: &[u8], octets: &[u8]) -> Result<bool, HexFault> {
    let read = hex_octets(alloc, digits)?;
    Ok(read.as_slice() == octets)
}

#[test]
fn hexadecimal_is_read_in_either_case(rt: HostRuntime) -> Result<(), Fail> {
    assert!(rt; are_read(rt.alloc(), b"00aFfA", OCTETS)?);
    Ok(())
}

/// Checks whether octets are written as these digits.
fn are_written(alloc: Global, octets: &[u8], digits: &str) -> Result<bool, Memory> {
    let text = hex_text(alloc, octets)?;
    Ok(text.as_str() == digits)
}

#[test]
fn hexadecimal_is_written_in_lower_case(rt: HostRuntime) -> Result<(), Fail> {
    assert!(rt; are_written(rt.alloc(), OCTETS, "00affa")?);
    Ok(())
}

/// Checks whether a text is refused for this.
fn is_refused(alloc: Global, text: &str, wanted: HexFault) -> bool {
    hex_read(alloc, text).err() == Some(wanted)
}

#[test]
fn what_is_no_digit_and_what_is_odd_is_told(rt: HostRuntime) {
    assert!(rt; is_refused(rt.alloc(), "0g0", HexFault::Digit));
    assert!(rt; is_refused(rt.alloc(), "000", HexFault::Odd));
}

/// Texts, and whether each has capitals.
const CAPITALS: &[(&str, bool)] = &[("00affa9", false), ("00afFa", true), ("A", true)];

#[test]
fn capitals_are_found(rt: HostRuntime) {
    for (text, wanted) in CAPITALS {
        assert!(rt; has_upper_case(text.as_bytes()) == *wanted, "{text}");
    }
}

/// Checks whether octets are read from these digits, also if they are capitals.
fn are_read_either(alloc: Global, digits: &str, octets: &[u8]) -> Result<bool, Fail> {
    let capitals = digits.to_ascii_uppercase(alloc)?;
    Ok(reads(alloc, digits, octets)? && reads(alloc, &capitals, octets)?)
}

/// Checks whether these octets are read from a text.
fn reads(alloc: Global, digits: &str, octets: &[u8]) -> Result<bool, HexFault> {
    let read = hex_read(alloc, digits)?;
    Ok(read.as_slice() == octets)
}

/// Checks whether octets are read back from their digits.
fn are_read_back(alloc: Global, octets: &[u8]) -> Result<bool, Fail> {
    let digits = hex_text(alloc, octets)?;
    are_read_either(alloc, &digits, octets)
}

#[test]
fn each_octet_is_read_from_its_digits(rt: HostRuntime) -> Result<(), Fail> {
    for octet in 0..=255u8 {
        assert!(rt;
            are_read_back(rt.alloc(), &[octet, 255 - octet])?,
            "{octet}"
        );
    }
    Ok(())
}

#[test]
fn what_is_no_digit_is_refused(rt: HostRuntime) {
    for c in 0..=255u8 {
        let is_read = hex_octets(rt.alloc(), &[b'0', b'0', b'0', c]).is_ok();
        assert!(rt; is_read == c.is_ascii_hexdigit(), "{c}");
    }
}

/// Checks whether digits that are no octets are refused without taking space of a buffer, and whether no digits take
/// none.
fn keeps_its_room(buffer: &mut BytesMut) -> bool
    requires { buffer.old.items ≡ [] }
    ensures { buffer.new.items ≡ [] }
{
    let room = buffer.capacity();
    let first = hex_octets_in(buffer, b"0g0").err();
    let second = hex_octets_in(buffer, b"000").err();
    let third = match hex_octets_in(buffer, b"") {
        Ok(octets) => octets.len(),
        Err(_) => 1,
    };
    let are_refused = first == Some(HexFault::Digit) && second == Some(HexFault::Odd);
    are_refused && third == 0 && buffer.capacity() == room
}

/// Checks whether the octets of `17` take space of a buffer.
fn takes_room(buffer: &mut BytesMut) -> Result<bool, HexFault>
    requires { buffer.old.items ≡ [] }
{
    let room = buffer.capacity();
    let octets = hex_octets_in(buffer, b"17")?;
    Ok(buffer.capacity() < room && octets.as_slice() == b"\x17".as_slice())
}

#[test]
fn octets_share_the_memory_of_a_buffer(rt: HostRuntime) -> Result<(), Fail> {
    let mut buffer = BytesMut::new(rt.alloc());
    let first = hex_octets_in(&mut buffer, b"00aFfA")?;
    assert!(rt; keeps_its_room(&mut buffer));
    assert!(rt; takes_room(&mut buffer)?);
    assert!(rt; first.as_slice() == OCTETS);
    Ok(())
}

/// Checks whether there are this many octets, each that of the digits 77.
fn are_sevens(octets: &[u8], count: usize) -> bool {
    for octet in octets {
        if *octet != 0x77 {
            return false;
        }
    }
    octets.len() == count
}

/// Checks whether digits, all 7, are read three times into one buffer.
fn are_read_thrice(alloc: Global, digits: &[u8]) -> Result<bool, HexFault> {
    let mut buffer = BytesMut::new(alloc);
    let first = hex_octets_in(&mut buffer, digits)?;
    let second = hex_octets_in(&mut buffer, digits)?;
    let third = hex_octets_in(&mut buffer, digits)?;
    let count = digits.len() / 2;
    Ok(are_sevens(&first, count) && are_sevens(&second, count) && are_sevens(&third, count))
}

#[test]
fn octets_that_find_no_room_in_a_buffer_take_more(rt: HostRuntime) -> Result<(), Fail> {
    let digits = vec![in rt.alloc(); b'7'; 60_000]?;
    assert!(rt; are_read_thrice(rt.alloc(), &digits)?);
    Ok(())
}
