//! Reading BPDUs from frames.

ghost use Rattle.std.specs.Prelude.{◌≡◌, ◌≤◌, length, IfOk, IfErr, is_ok};
ghost use Rattle.pb_bpdu.specs.Layout.{IsBpduFrame};
ghost use Rattle.pb_bpdu.specs.declared.bpdu.Bpdu.{Bpdu};
ghost use Rattle.pb_bpdu.specs.Reading.{first_fault, fields_of, has_no_llc, is_readable, reading};

use crate::bpdu::Bpdu;
use crate::fault::BpduFault;
use byteorder::{BigEndian, ByteOrder};

/// Checks whether the length or the octets of logical link control are missing or wrong.
fn has_no_llc(frame: &[u8]) -> bool
    ensures { result ≡ has_no_llc frame.now }
{
    if frame.len() < 17 {
        return true;
    }
    let length = BigEndian::read_u16(&frame[12..]) as usize;
    length < 3
        || frame.len() < 14 + length
        || !(frame[14] == 0x42 && frame[15] == 0x42 && frame[16] == 0x03)
}

/// Returns the first fault of the frame, or `None` if it is a BPDU.
fn first_fault(frame: &[u8]) -> Option<BpduFault>
    ensures { result ≡ first_fault frame.now }
{
    if has_no_llc(frame) {
        return Some(BpduFault::Llc);
    }
    let length = BigEndian::read_u16(&frame[12..]) as usize;
    if length < 7 {
        return Some(BpduFault::Short);
    }
    if !(frame[17] == 0 && frame[18] == 0) {
        return Some(BpduFault::Protocol);
    }
    if frame[20] != 2 {
        return Some(BpduFault::Kind);
    }
    if frame[19] < 2 {
        return Some(BpduFault::Old);
    }
    if length < 39 {
        return Some(BpduFault::Short);
    }
    None
}

/// Returns the fields of a BPDU.
fn fields(frame: &[u8]) -> Bpdu
    requires { 53 ≤ length frame.now }
    ensures { result ≡ fields_of frame.now }
{
    let flags = frame[21];
    Bpdu {
        change: flags % 2 == 1,
        proposal: flags / 2 % 2 == 1,
        role: flags / 4 % 4,
        learning: flags / 16 % 2 == 1,
        forwarding: flags / 32 % 2 == 1,
        agreement: flags / 64 % 2 == 1,
        root: BigEndian::read_u64(&frame[22..]),
        cost: BigEndian::read_u32(&frame[30..]),
        bridge: BigEndian::read_u64(&frame[34..]),
        port: BigEndian::read_u16(&frame[42..]),
        age: BigEndian::read_u16(&frame[44..]),
        max_age: BigEndian::read_u16(&frame[46..]),
        hello: BigEndian::read_u16(&frame[48..]),
        delay: BigEndian::read_u16(&frame[50..]),
    }
}

/// Returns the fields of a BPDU.
///
/// # Errors
///
/// The first fault of the frame.
fn decode(frame: &[u8]) -> Result<Bpdu, BpduFault>
    ensures { result ≡ reading frame.now }
{
    match first_fault(frame) {
        Some(fault) => Err(fault),
        None => Ok(fields(frame)),
    }
}

/// Reads the BPDU of a complete untagged frame (IEEE 802.1D-2004 clauses 9.3.3 and 9.3.4). Allocates nothing.
///
/// The frame has any number of octets. The destination address is not checked. The highest flag, a version above 2,
/// the last of the 36 octets of the BPDU and all octets after them are ignored.
///
/// # Errors
///
/// The first fault of the frame, in this order: `Llc` if it has fewer than 17 octets, its length is below 3 or above
/// the number of octets that follow it, or the octets of logical link control differ from 42-42-03; `Short` if fewer
/// than 4 octets of a BPDU are within the length; `Protocol` if the protocol is not 0; `Kind` if the type is not 2;
/// `Old` if the version is below 2; `Short` if fewer than 36 octets of a BPDU are within the length.
///
/// # Examples
///
/// ```
/// use pb_bpdu::{read, write};
/// use pb_frame::Mac;
///
/// // Bridge 8000.02-00-00-00-00-01 proposes itself as the root.
/// let frame = b"\x01\x80\xc2\0\0\x08\x02\0\0\0\0\x01\0\x27\x42\x42\x03\0\0\x02\x02\x0e\
///     \x80\0\x02\0\0\0\0\x01\0\0\0\0\x80\0\x02\0\0\0\0\x01\x80\x01\0\0\x14\0\x02\0\x0f\0\0";
/// let bpdu = read(frame)?;
/// assert!(rt; bpdu.proposal && !bpdu.agreement);
/// assert_eq!(rt; (bpdu.root, bpdu.cost), (0x8000_0200_0000_0001, 0));
/// let written = write(rt.alloc(), Mac([2, 0, 0, 0, 0, 1]), &bpdu)?;
/// assert_eq!(rt; written.as_slice(), frame.as_slice());
/// ```
pub fn read(frame: &[u8]) -> Result<Bpdu, BpduFault>
    // The BPDU that is read is in the frame.
    ensures found { IfOk result (λ m. IsBpduFrame frame.now m) }
    // A BPDU that is in the frame is read.
    ensures only { (m : Bpdu) → IsBpduFrame frame.now m → result ≡ Ok m }
    // A fault is the first that the frame has.
    ensures fault { IfErr result (λ f. first_fault frame.now ≡ Some f) }
    // `is_readable` holds of exactly the frames that are read.
    ensures readable { is_ok result ≡ is_readable frame.now }
    // The result depends on the octets alone.
    ensures exact { result ≡ reading frame.now }
{
    decode(frame)
}
