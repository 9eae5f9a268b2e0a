//! The contents of a BPDU.

ghost use Rattle.std.specs.Prelude.{◌<◌};

/// A rapid spanning tree BPDU, which a bridge sends to the bridge at the other end of a link (IEEE 802.1D-2004
/// clauses 9.2 and 9.3.3).
///
/// Times are in 1/256 s. The identifier of a bridge is its priority times 2^48 plus its address. That of a port is
/// its priority times 256 plus its number.
#[derive(Clone, Copy, Debug, PartialEq, Eq)]
pub struct Bpdu {
    /// The flag Topology Change.
    pub change: bool,
    /// The flag Proposal: the sender asks for an agreement.
    pub proposal: bool,
    /// The role of the sending port: 0 unknown, 1 alternate or backup, 2 root, 3 designated.
    pub role: u8,
    /// The flag Learning: the sending port learns.
    pub learning: bool,
    /// The flag Forwarding: the sending port forwards.
    pub forwarding: bool,
    /// The flag Agreement: the sender agrees with a proposal.
    pub agreement: bool,
    /// The identifier of the bridge that the sender takes for the root.
    pub root: u64,
    /// The cost of the sender's path to the root.
    pub cost: u32,
    /// The identifier of the sending bridge.
    pub bridge: u64,
    /// The identifier of the sending port.
    pub port: u16,
    /// The age of the information.
    pub age: u16,
    /// The age from which on the information is discarded.
    pub max_age: u16,
    /// The time from one BPDU to the next.
    pub hello: u16,
    /// The time for which a port stays in each state on its way to forwarding.
    pub delay: u16,
    ghost role_fits: { role < 4 },
}
