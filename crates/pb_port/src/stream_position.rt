//! The part at the front of the octets of a capture file or a socket stream.
ghost use Rattle.std.specs.Prelude.{◌≡◌, ◌+◌, ◌<◌, ◌≤◌, ◌^◌, ℕ, List, length, take, drop, MatchResult, Some, None};
ghost use Rattle.pb_port.specs.Streams.{number, byte_order_of, captured, original, header_fault, fault_at, unfinished};
ghost use Rattle.pb_port.specs.Streams.{Shows, framed};
ghost use Rattle.pb_port.specs.Faults.{IsOfOctets};
ghost use Rattle.pb_port.specs.LengthFields.{octets_of};
ghost use Rattle.byteorder.specs.Endian.{big_number};

use crate::fault::PortFault;
use crate::framing::LengthField;
use byteorder::{BigEndian, ByteOrder as _, LittleEndian};

/// The most octets of a frame of a socket.
const LONGEST: u32 = 65_535;

/// The order of the octets of a number.
#[derive(Clone, Copy, Debug, PartialEq, Eq)]
pub enum ByteOrder {
    /// Big-endian: the highest octet comes first.
    Big,
    /// Little-endian: the lowest octet comes first.
    Little,
}

/// The position of a reader in its stream, between complete parts.
#[derive(Clone, Copy, Debug, PartialEq, Eq)]
pub enum StreamPosition {
    /// The position before a capture's header.
    Header,
    /// The position before a record of a capture.
    Records(ByteOrder),
    /// The position before a frame of a socket.
    Lengths(LengthField),
}

/// The part at the front of some octets.
#[derive(Clone, Copy, Debug, PartialEq, Eq)]
pub(crate) enum Look {
    /// No complete part.
    Short,
    /// A capture's header.
    Header(ByteOrder),
    /// A record that is skipped, with its number of octets.
    Skipped(usize),
    /// A frame: the octets of its head, and those of head and frame.
    Frame(usize, usize),
    /// A fault, whatever follows.
    Fault(PortFault),
}

/// Reads the number in the four octets from the index `at` on.
fn number_at(order: ByteOrder, octets: &[u8], at: usize) -> u32
    requires { at + 4 ≤ length octets.now }
    ensures { result ≡ number order 4 (drop at octets.now) }
{
    let rest = &octets[at..];
    match order {
        ByteOrder::Big => BigEndian::read_u32(rest),
        ByteOrder::Little => LittleEndian::read_u32(rest),
    }
}

/// Reads the number in the two octets from the index `at` on.
fn half_at(order: ByteOrder, octets: &[u8], at: usize) -> u16
    requires { at + 2 ≤ length octets.now }
    ensures { result ≡ number order 2 (drop at octets.now) }
{
    let rest = &octets[at..];
    match order {
        ByteOrder::Big => BigEndian::read_u16(rest),
        ByteOrder::Little => LittleEndian::read_u16(rest),
    }
}

/// Returns the byte order of a magic number, which is read big-endian, if it is known.
fn read_byte_order(magic: u32) -> Option<ByteOrder>
    ensures { result ≡ byte_order_of magic }
{
    match magic {
        0xA1B2_C3D4 | 0xA1B2_3C4D => Some(ByteOrder::Big),
        0xD4C3_B2A1 | 0x4D3C_B2A1 => Some(ByteOrder::Little),
        _ => None,
    }
}

/// Returns the byte order of a header.
///
/// # Errors
///
/// `Magic` if the magic number is not known, otherwise `Version` if the version is not 2.4, otherwise `LinkType` if
/// the link type is not 1.
fn read_header(octets: &[u8]) -> Result<ByteOrder, PortFault>
    requires { 24 ≤ length octets.now }
    ensures { MatchResult result
        (λ order. (byte_order_of (big_number 4 octets.now) ≡ Some order) × (header_fault octets.now ≡ None))
        (λ k. IsOfOctets k × (header_fault octets.now ≡ Some k)) }
{
    let Some(order) = read_byte_order(BigEndian::read_u32(octets)) else {
        return Err(PortFault::Magic);
    };
    if half_at(order, octets, 4) != 2 || half_at(order, octets, 6) != 4 {
        return Err(PortFault::Version);
    }
    if number_at(order, octets, 20) != 1 {
        return Err(PortFault::LinkType);
    }
    Ok(order)
}

/// Checks for a capture's header at the front of the octets.
fn look_header(octets: &[u8]) -> Look
    ensures { Shows StreamPosition.Header octets.now result }
{
    if octets.len() < 24 {
        return Look::Short;
    }
    match read_header(octets) {
        Ok(order) => Look::Header(order),
        Err(fault) => Look::Fault(fault),
    }
}

/// Checks for a record of a capture at the front of the octets.
fn look_record(order: ByteOrder, octets: &[u8]) -> Look
    ensures { Shows (StreamPosition.Records order) octets.now result }
{
    if octets.len() < 16 {
        return Look::Short;
    }
    let captured = number_at(order, octets, 8);
    if 262_144 < captured {
        return Look::Fault(PortFault::Oversize);
    }
    let whole = 16 + captured as usize;
    if octets.len() < whole {
        return Look::Short;
    }
    if captured < number_at(order, octets, 12) {
        return Look::Skipped(whole);
    }
    Look::Frame(16, whole)
}

/// Reads the length of a frame.
fn read_length(field: LengthField, octets: &[u8]) -> u32
    requires { octets_of field ≤ length octets.now }
    ensures { result ≡ framed field octets.now }
{
    match field {
        LengthField::Two => u32::from(BigEndian::read_u16(octets)),
        LengthField::Four => BigEndian::read_u32(octets),
    }
}

/// Checks for a frame of a socket at the front of the octets.
fn look_length(field: LengthField, octets: &[u8]) -> Look
    ensures { Shows (StreamPosition.Lengths field) octets.now result }
{
    let head = field.octets();
    if octets.len() < head {
        return Look::Short;
    }
    let length = read_length(field, octets);
    if LONGEST < length {
        return Look::Fault(PortFault::Oversize);
    }
    let whole = head + length as usize;
    if octets.len() < whole {
        return Look::Short;
    }
    Look::Frame(head, whole)
}

/// Checks which part is at the front of the octets.
pub(crate) fn look_at(position: StreamPosition, octets: &[u8]) -> Look
    ensures { Shows position octets.now result }
{
    match position {
        StreamPosition::Header => look_header(octets),
        StreamPosition::Records(order) => look_record(order, octets),
        StreamPosition::Lengths(field) => look_length(field, octets),
    }
}
