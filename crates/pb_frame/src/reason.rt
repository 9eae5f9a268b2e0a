//! Drop reasons of received frames.

/// The reason why a received frame was dropped.
#[derive(Clone, Copy, PartialEq, Eq, Debug)]
pub enum Reason {
    /// A receiving port that was not Forwarding (IEEE 802.1Q clause 8.6.1).
    NotForwarding,
    /// A VID of no service of which the receiving port is a member (IEEE 802.1Q clause 8.6.2).
    NotMember,
    /// A frame without an S-tag at a provider port.
    Untagged,
    /// A destination that bridges do not relay, 01-80-C2-00-00-XX, with its last octet (IEEE 802.1Q clause 8.6.3).
    Reserved(u8),
    /// A frame that is shorter than its parts, or a BPDU that cannot be read.
    Malformed,
    /// A frame that was relayed 4,294,967,295 times.
    Worn,
    /// An allocation that failed while the frame was relayed.
    Memory,
    /// A frame at a customer port with an S-tag that names a VLAN.
    STagged,
    /// A frame that is longer than its kind may be.
    Long,
}
