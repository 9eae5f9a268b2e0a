//! Whether a place has nothing to do.

ghost use Rattle.std.specs.Prelude.{◌≡◌, ℕ, true};
ghost use Rattle.pb_lan.specs.Plans.{IsNumber};
ghost use Rattle.pb_net.specs.Dues.{IsQuiet};

use crate::fault::NetFault;
use crate::net::Net;
use pb_lan::Event;

impl Net {
    /// Returns whether a port of a bridge receives nothing and transmits nothing.
    fn is_port_quiet(&self, bridge: u8, port: u8) -> bool
        ensures receive { result ≡ true → IsQuiet self.now (Event.Receive bridge port) }
        ensures transmit { result ≡ true → IsQuiet self.now (Event.Transmit bridge port) }
    {
        match self.due_receive(bridge, port) {
            Ok(None) | Err(NetFault::NoSuch) => {}
            _ => return false,
        }
        match self.due_transmit(bridge, port) {
            Ok(None) | Err(NetFault::NoSuch) => true,
            _ => false,
        }
    }

    /// Returns whether no Receive and no Transmit of a bridge is due: no item came to one of its ports, and none can be
    /// sent there. Allocates nothing.
    pub fn is_bridge_quiet(&self, bridge: u8) -> bool
        ensures receives { result ≡ true → (port : ℕ) → IsNumber port 16
            → IsQuiet self.now (Event.Receive bridge port) }
        ensures transmits { result ≡ true → (port : ℕ) → IsNumber port 16
            → IsQuiet self.now (Event.Transmit bridge port) }
    {
        for place in 0..16u8 {
            if !self.is_port_quiet(bridge, place + 1) {
                return false;
            }
        }
        true
    }

    /// Returns whether no Take and no Put of a lane is due: its hand is empty and nothing waits at its beginning, or
    /// the inbox at its end is full. Allocates nothing.
    pub fn is_lane_quiet(&self, lane: u8) -> bool
        ensures take { result ≡ true → IsQuiet self.now (Event.Take lane) }
        ensures put { result ≡ true → IsQuiet self.now (Event.Put lane) }
    {
        match self.due_take(lane) {
            Ok(None) | Err(NetFault::NoSuch) => {}
            _ => return false,
        }
        match self.due_put(lane) {
            Ok(None) | Err(NetFault::NoSuch) => true,
            _ => false,
        }
    }
}
