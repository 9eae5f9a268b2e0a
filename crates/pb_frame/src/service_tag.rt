//! Service tags (S-tags), and the customer tags that are data to a provider.

ghost use Rattle.std.specs.Prelude.{ℕ, List, ◌≡◌, ◌<◌, ◌≤◌, ◌↔◌, true, false, length, IfOk, IfSome, IsSome, IsErrOf};
ghost use Rattle.pb_frame.specs.Tags.{tagged, untagged, bare, control, control_of, IsTag, has_service_type};
ghost use Rattle.pb_frame.specs.Tags.{has_customer_tag, has_priority_tag, priority_tag_of, priority_of};
ghost use Rattle.pb_frame.specs.Tags.{shortest_tagged, vid_of};
ghost use Rattle.pb_frame.specs.declared.service_tag.TagFault.{TagFault};
ghost use Rattle.pb_frame.specs.declared.service_tag.TagFault.TheVariants.{Memory as memory_fault};

use crate::frame::{SHORTEST_FRAME, SHORTEST_TAGGED};
use crate::memory::Memory;
use crate::tci::Tci;
use bytes::Bytes;
use std::alloc::Global;
use thiserror::Error;

/// The fault of a frame whose service tag cannot be removed.
#[derive(Clone, Copy, Debug, PartialEq, Eq, Error)]
pub enum TagFault {
    /// A frame without 88 A8 after its addresses.
    #[error("no S-tag")]
    NoTag,
    /// A frame of fewer than 18 octets, which ends inside its tag or the type after it.
    #[error("the S-tag is cut off")]
    Cut,
    /// An allocation that failed.
    #[error("out of memory")]
    Memory,
}

impl From<Memory> for TagFault {
    ghost from_gives = { λ _ e. e ≡ memory_fault };

    fn from(_e: Memory) -> TagFault {
        TagFault::Memory
    }
}

/// Inserts a service tag after the addresses of a frame (IEEE 802.1ad clause 9).
///
/// # Errors
///
/// `Memory` if an allocation failed.
///
/// # Examples
///
/// ```
/// use bytes::Bytes;
/// use pb_frame::{Tci, push_s};
///
/// let tci = Tci {
///     pcp: 5,
///     dei: 0,
///     vid: 100,
/// };
/// let frame = Bytes::from_static(b"\xff\xff\xff\xff\xff\xff\x02\0\0\0\0\x01\x08\0AB");
/// let tagged = push_s(rt.alloc(), &frame, tci)?;
/// let wanted = b"\xff\xff\xff\xff\xff\xff\x02\0\0\0\0\x01\x88\xa8\xa0\x64\x08\0AB";
/// assert_eq!(rt; tagged.as_slice(), wanted.as_slice());
/// ```
pub fn push_s(alloc: Global, frame: &Bytes, tci: Tci) -> Result<Bytes, Memory>
    requires { 14 ≤ length frame.now }
    ensures { IfOk result (λ b. b ≡ tagged frame.now tci.pcp tci.dei tci.vid) }
{
    let value = tci.value();
    let tag = [0x88, 0xa8, (value / 256) as u8, (value % 256) as u8];
    let octets = frame.as_slice();
    let mut out = Vec::with_capacity(alloc, octets.len() + 4)?;
    out.extend_from_slice(&octets[..12])?;
    out.extend_from_slice(&tag)?;
    out.extend_from_slice(&octets[12..])?;
    Ok(Bytes::from_vec(out)?)
}

/// Removes the service tag, and returns it and the frame without it (IEEE 802.1ad clause 9).
///
/// # Errors
///
/// `NoTag` if 88 A8 does not follow the addresses, `Cut` if it does but the frame has fewer than 18 octets, `Memory`
/// if an allocation failed.
///
/// # Examples
///
/// ```
/// use bytes::Bytes;
/// use pb_frame::pop_s;
///
/// let tagged = b"\xff\xff\xff\xff\xff\xff\x02\0\0\0\0\x01\x88\xa8\xa0\x64\x08\0AB";
/// let frame = b"\xff\xff\xff\xff\xff\xff\x02\0\0\0\0\x01\x08\0AB";
/// let (tci, untagged) = pop_s(rt.alloc(), &Bytes::from_static(tagged))?;
/// assert_eq!(rt; (tci.pcp, tci.dei, tci.vid), (5, 0, 100));
/// assert_eq!(rt; untagged.as_slice(), frame.as_slice());
/// ```
pub fn pop_s(alloc: Global, frame: &Bytes) -> Result<(Tci, Bytes), TagFault>
    ensures ok { IfOk result (λ p. frame.now ≡ tagged p.1 p.0.pcp p.0.dei p.0.vid) }
    ensures no_tag { IsErrOf result TagFault.NoTag ↔ (has_service_type frame.now ≡ false) }
    ensures cut { IsErrOf result TagFault.Cut
        ↔ ((has_service_type frame.now ≡ true) × (length frame.now < shortest_tagged)) }
{
    let octets = frame.as_slice();
    if !has_service_type(octets) {
        return Err(TagFault::NoTag);
    }
    if octets.len() < SHORTEST_TAGGED {
        return Err(TagFault::Cut);
    }
    let tci = Tci::of(u16::from(octets[14]) * 256 + u16::from(octets[15]));
    Ok((tci, without_tag(alloc, frame)?))
}

/// Returns the frame without the four octets after its addresses.
///
/// # Errors
///
/// `Memory` if an allocation failed.
pub fn without_tag(alloc: Global, frame: &Bytes) -> Result<Bytes, Memory>
    requires { 18 ≤ length frame.now }
    ensures { IfOk result (λ b. b ≡ untagged frame.now) }
{
    let octets = frame.as_slice();
    let mut out = Vec::with_capacity(alloc, octets.len() - 4)?;
    out.extend_from_slice(&octets[..12])?;
    out.extend_from_slice(&octets[16..])?;
    Ok(Bytes::from_vec(out)?)
}

/// Returns the priority of a customer's frame, if it has a priority tag, and the frame without that tag. A service
/// tag whose VID is 0 names no service (IEEE 802.1ad clause 9). A frame without such a tag is returned unchanged.
///
/// # Errors
///
/// `Memory` if an allocation failed.
pub fn pop_priority(alloc: Global, frame: &Bytes) -> Result<(Option<u8>, Bytes), Memory>
    requires { 14 ≤ length frame.now }
    ensures priority { IfOk result (λ p. p.0 ≡ priority_tag_of frame.now) }
    ensures rest { IfOk result (λ p. p.1 ≡ bare frame.now) }
{
    let octets = frame.as_slice();
    if has_priority_tag(octets) {
        Ok((Some(priority_of(octets)), without_tag(alloc, frame)?))
    } else {
        Ok((None, frame.clone()?))
    }
}

/// Returns the customer tag, if 81 00 follows the addresses and the tag is complete. Allocates nothing.
pub fn look_c(frame: &[u8]) -> Option<Tci>
    ensures found { IsSome result ↔ (has_customer_tag frame.now ≡ true) }
    ensures value { IfSome result (λ t. control t.pcp t.dei t.vid ≡ control_of frame.now) }
{
    if frame.len() < SHORTEST_TAGGED || frame[12] != 0x81 || frame[13] != 0 {
        return None;
    }
    Some(Tci::of(u16::from(frame[14]) * 256 + u16::from(frame[15])))
}

/// Checks whether 88 A8 follows the addresses.
pub fn has_service_type(frame: &[u8]) -> bool
    ensures { result ≡ has_service_type frame.now }
{
    frame.len() >= SHORTEST_FRAME && frame[12] == 0x88 && frame[13] == 0xa8
}

/// Returns the VID of the tag after the addresses, 0 to 4095.
pub fn vid_of(frame: &[u8]) -> u16
    requires { 16 ≤ length frame.now }
    ensures { result ≡ vid_of frame.now }
{
    (u16::from(frame[14]) * 256 + u16::from(frame[15])) % 4096
}

/// Returns the priority of the tag after the addresses, 0 to 7.
pub fn priority_of(frame: &[u8]) -> u8
    requires { 16 ≤ length frame.now }
    ensures { result ≡ priority_of frame.now }
{
    ((u16::from(frame[14]) * 256 + u16::from(frame[15])) / 8192 % 8) as u8
}

/// Checks whether the frame has a complete service tag that names no service: its VID is 0.
pub fn has_priority_tag(frame: &[u8]) -> bool
    ensures { result ≡ has_priority_tag frame.now }
{
    has_service_type(frame) && frame.len() >= SHORTEST_TAGGED && vid_of(frame) == 0
}

/// Shows that inserting a tag and removing it undo each other. If two tagged frames are equal, the frames without
/// their tags are equal, and the tags' controls too. If priority, drop eligibility and identifier are within their 3,
/// 1 and 12 bits, each of them is equal as well.
pub fn tags_undo_each_other()
    ensures control { (x y : List ℕ) (p d v q e w : ℕ) → 14 ≤ length x → 14 ≤ length y
        → tagged x p d v ≡ tagged y q e w → (x ≡ y) × (control p d v ≡ control q e w) }
    ensures parts { (x y : List ℕ) (p d v q e w : ℕ) → 14 ≤ length x → 14 ≤ length y → IsTag p d v → IsTag q e w
        → tagged x p d v ≡ tagged y q e w → (x ≡ y) × (p ≡ q) × (d ≡ e) × (v ≡ w) }
    ensures off { (x : List ℕ) (p d v : ℕ) → 14 ≤ length x → untagged (tagged x p d v) ≡ x }
{}
