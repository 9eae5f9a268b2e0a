//! An admitted customer's frame.

ghost use Rattle.std.specs.Prelude.{◌≤◌};

use crate::vid::Vid;

/// The service and priority of an admitted customer's frame (IEEE 802.1ad clause 9).
#[derive(Clone, Copy, Debug, PartialEq, Eq)]
pub struct Entered {
    /// The VID of its service.
    pub vid: Vid,
    /// Its priority, 0 to 7: that of its priority tag, otherwise that of the port.
    pub pcp: u8,
    /// The presence of a priority tag, four octets after the addresses, which the bridge removes.
    pub cut: bool,
    ghost pcp_fits: { pcp ≤ 7 },
}
