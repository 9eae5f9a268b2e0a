//! The faults of ports, and the numbers that name them in reports.
ghost use Rattle.std.specs.Prelude.{◌≡◌};
ghost use Rattle.pb_port.specs.Faults.{fault_number};

/// A fault of a port's input or output.
///
/// A poll returns each fault but `Write`, and a pump returns only `Write` and `Memory`.
#[derive(Clone, Copy, PartialEq, Eq, Debug)]
pub enum PortFault {
    /// A capture without a known magic number.
    Magic,
    /// A capture of another version than 2.4.
    Version,
    /// A capture of another link type than 1, Ethernet.
    LinkType,
    /// An input that ends inside a header, a record or a frame.
    Truncated,
    /// A record of more than 262,144 captured octets, or a frame of a socket of more than 65,535 octets.
    Oversize,
    /// A read that failed.
    Read,
    /// A write that failed.
    Write,
    /// An allocation that failed. The next call tries again, and no octet is lost.
    Memory,
}

impl PortFault {
    /// Returns the number of the fault in reports, 1 to 8.
    pub fn number(self) -> u8
        ensures { result ≡ fault_number self }
    {
        match self {
            PortFault::Magic => 1,
            PortFault::Version => 2,
            PortFault::LinkType => 3,
            PortFault::Truncated => 4,
            PortFault::Oversize => 5,
            PortFault::Read => 6,
            PortFault::Write => 7,
            PortFault::Memory => 8,
        }
    }
}
