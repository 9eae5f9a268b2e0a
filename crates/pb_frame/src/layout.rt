//! The parts of a frame as a type.

use crate::mac::Mac;

/// The parts of a frame (IEEE 802.3 clause 3).
#[derive(Clone, Copy, Debug, PartialEq, Eq)]
pub struct View<'a> {
    /// The destination: octets 0 to 5.
    pub dst: Mac,
    /// The source: octets 6 to 11.
    pub src: Mac,
    /// The length or EtherType, big-endian: octets 12 and 13.
    pub kind: u16,
    /// The remaining octets.
    pub rest: &'a [u8],
}
