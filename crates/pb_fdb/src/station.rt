//! Stations, where each was last seen, and the places of a log.

ghost use Rattle.std.specs.Hash as fed;
ghost use Rattle.std.specs.Prelude.{◌≡◌, ◌%◌, ◌^◌, ◌++◌, ◌∷◌, []};
ghost use Rattle.std.proofs.Common.{rules};
ghost use Rattle.std.specs.Cmp.Rules.{hashing};

use pb_frame::Mac;
use std::hash::{Hash, Hasher};

/// A station in a service.
#[derive(Clone, Copy, Debug, PartialEq, Eq)]
pub struct Station {
    /// The service: the VID of its S-VLAN.
    pub vid: u16,
    /// The station's address.
    pub mac: Mac,
}

impl Hash for Station {
    ghost hash_input = { λ s. fed.u16 s.vid ++ s.mac.0 ∷ [] };

    ghost respects_eq = { Prim.search (hashing, rules) };

    /// Feeds the station to the hasher in two writes. A derived implementation makes eight.
    fn hash<H: Hasher>(&self, state: &mut H) {
        state.write_u16(self.vid);
        state.write(&self.mac.0);
    }
}

/// Where and when a station was last seen, and the place of that in a log.
#[derive(Clone, Copy, Debug, PartialEq, Eq)]
pub struct LastSeen {
    /// The place in the log.
    pub at: u64,
    /// The moment, in ticks.
    pub learnt: u64,
    /// The port.
    pub port: u8,
}

/// A place of a log.
#[derive(Clone, Copy, Debug)]
pub struct LogEntry {
    /// The station.
    pub station: Station,
    /// The slot at which the index had the station when the place was made. It is only a hint: the index may move the
    /// station.
    pub slot: u32,
}

impl LogEntry {
    /// Returns the place of a station that the index has at this slot. It keeps the lower 32 bits of the slot, which
    /// is enough for a hint.
    pub fn new(station: Station, slot: usize) -> LogEntry
        ensures station { result.station ≡ station }
        ensures slot { result.slot ≡ slot % 2 ^ 32 }
    {
        LogEntry {
            station,
            slot: (slot & 0xFFFF_FFFF) as u32,
        }
    }
}
