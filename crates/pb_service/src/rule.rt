//! The rules for the values of keys.

/// A rule for the value of a key.
#[derive(Clone, Copy)]
pub(crate) enum Rule {
    /// A number from `low` to `high`.
    Number { low: u64, high: u64 },
    /// A multiple of 4,096 up to 61,440.
    BridgePriority,
    /// A multiple of 16 up to 240.
    PortPriority,
    /// A name, as `is_name` of pb_lan defines it.
    Name,
    /// An individual MAC address.
    Address,
    /// How the states of ports are decided: `fixed` or `rstp`.
    Spanning,
    /// What the capacity of a queue counts: `port` or `class`.
    Queues,
    /// The state of a port: `discarding`, `learning` or `forwarding`.
    State,
    /// The kind of a customer port: `memory`, `capture`, `record`, `replay`, `socket` or `udp`.
    PortKind,
    /// The time stamps of the records of a capture: `ticks` or `time`.
    Stamp,
    /// The pace at which the frames of a capture enter: `times`.
    Replay,
    /// The directions of a link that a tap records: `ab`, `ba` or `both`.
    Direction,
    /// Any text.
    Path,
    /// The octets of the length before each frame of a stream: 2 or 4.
    Framing,
    /// A socket address whose port is not 0, as `127.0.0.1:4790` or `[::1]:4790`.
    SocketAddress,
    /// What precedes the frame of a datagram: `vxlan` or `none`.
    Encap,
    /// A list of numbers that rises strictly.
    Losses,
    /// A list of distinct names.
    Names,
    /// A list of texts, each of pairs of hexadecimal digits.
    Frames,
    /// True or false.
    Flag,
    /// True, false or `auto`.
    FlagOrAuto,
}

/// A key of a table: its name, whether it must be present, and the rule for its value.
#[derive(Clone, Copy)]
pub(crate) struct Key {
    pub name: &'static str,
    pub needed: bool,
    pub rule: Rule,
}
