//! Faults of frames that are not BPDUs.

use thiserror::Error;

/// The fault of a frame that is not a BPDU of the rapid spanning tree: the first that applies.
///
/// `Short` is checked twice: before `Protocol` for at least 4 octets of a BPDU within the length, and after `Old` for
/// at least 36.
#[derive(Clone, Copy, Debug, PartialEq, Eq, Error)]
pub enum BpduFault {
    /// A frame of fewer than 17 octets, a length below 3 or above the number of octets that follow it, or octets of
    /// logical link control other than 42-42-03.
    #[error("no BPDU's length or link control")]
    Llc,
    /// Too few octets within the length.
    #[error("too short for a BPDU")]
    Short,
    /// A protocol other than 0.
    #[error("another protocol than the spanning tree's")]
    Protocol,
    /// A type other than 2: a configuration or topology change notification BPDU, or none.
    #[error("no BPDU of the rapid spanning tree")]
    Kind,
    /// A version below 2.
    #[error("an old version")]
    Old,
}
