//! Writing BPDUs to frames.

ghost use Rattle.std.specs.Prelude.{◌≡◌, ◌<◌, ◌^◌, ◌++◌, length, IfOk, OnOk};
ghost use Rattle.byteorder.specs.Endian.{big_bytes};
ghost use Rattle.pb_bpdu.specs.Layout.{Fits, IsBpduFrame, flags, numbers, written};

use crate::bpdu::Bpdu;
use bytes::Bytes;
use pb_frame::{Mac, Memory};
use std::alloc::{AllocError, Global};

/// Returns the flags as one octet.
fn flags(m: &Bpdu) -> u8
    ensures { result ≡ flags m.now }
{
    m.change as u8
        + 2 * (m.proposal as u8)
        + 4 * m.role
        + 16 * (m.learning as u8)
        + 32 * (m.forwarding as u8)
        + 64 * (m.agreement as u8)
}

/// Appends a number, big-endian.
///
/// # Errors
///
/// `AllocError` if an allocation failed.
fn push_u16(frame: &mut Vec<u8>, n: u16) -> Result<(), AllocError>
    ensures fits { n < 256 ^ 2 }
    ensures ok { OnOk result (frame.new.items ≡ frame.old.items ++ big_bytes 2 n) }
{
    frame.extend_from_slice(&n.to_be_bytes())
}

/// Appends a number, big-endian.
///
/// # Errors
///
/// `AllocError` if an allocation failed.
fn push_u32(frame: &mut Vec<u8>, n: u32) -> Result<(), AllocError>
    ensures fits { n < 256 ^ 4 }
    ensures ok { OnOk result (frame.new.items ≡ frame.old.items ++ big_bytes 4 n) }
{
    frame.extend_from_slice(&n.to_be_bytes())
}

/// Appends a number, big-endian.
///
/// # Errors
///
/// `AllocError` if an allocation failed.
fn push_u64(frame: &mut Vec<u8>, n: u64) -> Result<(), AllocError>
    ensures fits { n < 256 ^ 8 }
    ensures ok { OnOk result (frame.new.items ≡ frame.old.items ++ big_bytes 8 n) }
{
    frame.extend_from_slice(&n.to_be_bytes())
}

/// Appends the fields that follow the flags.
///
/// # Errors
///
/// `AllocError` if an allocation failed.
fn push_numbers(frame: &mut Vec<u8>, m: &Bpdu) -> Result<(), AllocError>
    ensures fits { OnOk result (Fits m.now) }
    ensures ok { OnOk result (frame.new.items ≡ frame.old.items ++ numbers m.now) }
{
    push_u64(frame, m.root)?;
    push_u32(frame, m.cost)?;
    push_u64(frame, m.bridge)?;
    push_u16(frame, m.port)?;
    push_u16(frame, m.age)?;
    push_u16(frame, m.max_age)?;
    push_u16(frame, m.hello)?;
    push_u16(frame, m.delay)?;
    Ok(())
}

/// Returns the frame, built field by field.
///
/// # Errors
///
/// `Memory` if an allocation failed.
fn encode(alloc: Global, src: Mac, m: &Bpdu) -> Result<Bytes, Memory>
    ensures fits { OnOk result (Fits m.now) }
    ensures exact { IfOk result (λ frame. frame ≡ written src.0 m.now) }
{
    let mut frame = Vec::with_capacity(alloc, 53)?;
    frame.extend_from_slice(&[0x01, 0x80, 0xc2, 0x00, 0x00, 0x08])?;
    frame.extend_from_slice(&src.0)?;
    frame.extend_from_slice(&[0, 39, 0x42, 0x42, 0x03, 0, 0, 2, 2, flags(m)])?;
    push_numbers(&mut frame, m)?;
    frame.push(0)?;
    Ok(Bytes::from_vec(frame)?)
}

/// Returns the frame of 53 octets in which a bridge with this address sends the BPDU to 01-80-C2-00-00-08.
///
/// Its length is 39: three octets of logical link control and the 36 of the BPDU, of version 2 and type 2 (IEEE
/// 802.1D-2004 clause 9.3.3). The highest flag is 0.
///
/// # Errors
///
/// `Memory` if an allocation failed.
///
/// # Examples
///
/// ```
/// use pb_bpdu::{read, write};
/// use pb_frame::Mac;
///
/// // Bridge 8000.02-00-00-00-00-01 proposes itself as the root.
/// let frame = b"\x01\x80\xc2\0\0\x08\x02\0\0\0\0\x01\0\x27\x42\x42\x03\0\0\x02\x02\x0e\
///     \x80\0\x02\0\0\0\0\x01\0\0\0\0\x80\0\x02\0\0\0\0\x01\x80\x01\0\0\x14\0\x02\0\x0f\0\0";
/// let bpdu = read(frame)?;
/// assert!(rt; bpdu.proposal && !bpdu.agreement);
/// assert_eq!(rt; (bpdu.root, bpdu.cost), (0x8000_0200_0000_0001, 0));
/// let written = write(rt.alloc(), Mac([2, 0, 0, 0, 0, 1]), &bpdu)?;
/// assert_eq!(rt; written.as_slice(), frame.as_slice());
/// ```
pub fn write(alloc: Global, src: Mac, m: &Bpdu) -> Result<Bytes, Memory>
    // The BPDU is in the frame.
    ensures stands { IfOk result (λ frame. IsBpduFrame frame m.now) }
    ensures length { IfOk result (λ frame. length frame ≡ 53) }
    ensures exact { IfOk result (λ frame. frame ≡ written src.0 m.now) }
{
    encode(alloc, src, m)
}
