//! An entry of the table.

use pb_frame::Mac;

/// A station that was seen in a service at a port.
#[derive(Clone, Copy, Debug, PartialEq, Eq)]
pub struct Entry {
    /// The service: the VID of its S-VLAN.
    pub vid: u16,
    /// The station's address.
    pub mac: Mac,
    /// The port at which the station was last seen.
    pub port: u8,
    /// The moment at which the station was last seen, in ticks.
    pub learnt: u64,
}
