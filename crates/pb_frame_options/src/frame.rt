//! The frame that options describe.

ghost use Rattle.std.specs.Prelude.{◌≡◌, ◌++◌, ◌∷◌, ◌/◌, ◌%◌, [], IfOk, OnOk};
ghost use Rattle.pb_frame_options.specs.Frames.{content_octets, frame_of, number_octets, tag_octets, unpadded};

use pb_frame::{Mac, Tci};
use std::alloc::{AllocError, Global};

/// The type of a service tag (IEEE 802.1Q clause 9.5).
const SERVICE_TAG: u16 = 0x88a8;

/// The type of a customer's tag.
const CUSTOMER_TAG: u16 = 0x8100;

/// The octets of a BPDU from its length on: LLC 42 42 03, and a topology change notification (IEEE 802.1D-2004 clause
/// 9.3.2).
const BPDU: [u8; 9] = [0, 7, 0x42, 0x42, 3, 0, 0, 0, 0x80];

/// What follows the tags of a frame.
#[derive(Clone, Copy, Debug, PartialEq, Eq)]
pub enum Content {
    /// This EtherType.
    EtherType(u16),
    /// A BPDU, with its length and LLC.
    Bpdu,
}

/// The parts of a frame.
#[derive(Clone, Copy, Debug, PartialEq, Eq)]
pub struct FrameOptions {
    /// The destination address.
    pub to: Mac,
    /// The source address.
    pub from: Mac,
    /// The service tag, if there is one. A priority tag has the VID 0.
    pub service: Option<Tci>,
    /// The customer's tag, if there is one.
    pub customer: Option<Tci>,
    /// What follows the tags.
    pub content: Content,
    /// The least number of octets. Zeros at the end fill a shorter frame.
    pub least: usize,
}

/// Appends a number in two octets, the high one first.
fn put_number(frame: &mut Vec<u8>, number: u16) -> Result<(), AllocError>
    ensures { OnOk result (frame.new.items ≡ frame.old.items ++ number_octets number) }
{
    frame.extend_from_slice(&[(number / 256) as u8, (number % 256) as u8])
}

/// Appends a tag of this type, if there is one.
fn put_tag(frame: &mut Vec<u8>, tag_type: u16, tag: Option<Tci>) -> Result<(), AllocError>
    ensures { OnOk result (frame.new.items ≡ frame.old.items ++ tag_octets tag_type tag) }
{
    match tag {
        None => Ok(()),
        Some(tag) => {
            put_number(frame, tag_type)?;
            put_number(frame, tag.value())
        }
    }
}

/// Appends what follows the tags.
fn put_content(frame: &mut Vec<u8>, content: Content) -> Result<(), AllocError>
    ensures { OnOk result (frame.new.items ≡ frame.old.items ++ content_octets content) }
{
    match content {
        Content::EtherType(number) => put_number(frame, number),
        Content::Bpdu => frame.extend_from_slice(&BPDU),
    }
}

/// Returns a frame without the zeros that fill it.
fn unpadded(alloc: Global, options: &FrameOptions) -> Result<Vec<u8>, AllocError>
    ensures { IfOk result (λ frame. frame.items ≡ unpadded options.now) }
{
    let mut frame = Vec::new(alloc);
    frame.extend_from_slice(&options.to.0)?;
    frame.extend_from_slice(&options.from.0)?;
    put_tag(&mut frame, SERVICE_TAG, options.service)?;
    put_tag(&mut frame, CUSTOMER_TAG, options.customer)?;
    put_content(&mut frame, options.content)?;
    Ok(frame)
}

/// Returns the octets of a frame from the destination address on: the addresses, the service tag, the customer's tag,
/// the type or the BPDU, and zeros up to the least length.
///
/// # Errors
///
/// `AllocError` if an allocation failed.
pub fn frame_of(alloc: Global, options: &FrameOptions) -> Result<Vec<u8>, AllocError>
    ensures { IfOk result (λ frame. frame.items ≡ frame_of options.now) }
{
    let mut frame = unpadded(alloc, options)?;
    if frame.len() < options.least {
        frame.resize(options.least, 0)?;
    }
    Ok(frame)
}
