//! Frames that crossed a link.

use bytes::Bytes;

/// A frame that crossed a link.
#[derive(Drop)]
pub struct Crossing {
    /// Whether it crossed in the direction of the tape's own lane. Otherwise it crossed in the other direction.
    pub is_own: bool,
    /// Its octets.
    pub wire: Bytes,
}
