//! The views of a bridge's ports and of its stations while the bridge works.

use pb_frame::Mac;
use pb_lan::PortState;
use pb_rstp::Role;

/// The role and the state of a port to another bridge.
#[derive(Clone, Copy, PartialEq, Eq, Debug)]
pub struct PortView {
    /// The port's role (IEEE 802.1D-2004 clause 17.7), or `None` if the plan gives the states of the ports.
    pub role: Option<Role>,
    /// The port's state.
    pub state: PortState,
}

/// A station that a bridge has learnt and not forgotten.
#[derive(Clone, Copy, PartialEq, Eq, Debug)]
pub struct StationView {
    /// The service in which the station was seen: the VID of its S-VLAN.
    pub vid: u16,
    /// The station's address.
    pub address: Mac,
    /// The bridge's local port at which the station was last seen, 1 to 16.
    pub port: u8,
    /// The number of ticks since the station was last seen, fewer than the plan's ageing time.
    pub age: u64,
}
