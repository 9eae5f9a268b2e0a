//! The live counts of a network.

use pb_history::{NO_PORT, drop_number};
use pb_threads::Dropped;
use std::alloc::{AllocError, Global};
use std::sync::atomic::{AtomicU64, Ordering};

/// The greatest number of customer ports of a network.
const PORTS: usize = 128;

/// The greatest number of bridges.
const BRIDGES: usize = 32;

/// The number of counts of dropped frames of a local port: one for each number that pb_history gives to reasons, and
/// one for frames that were relayed to no port.
const KINDS: usize = 10;

/// The number of counts of dropped frames of a bridge: those of its local ports 1 to 16.
const DROPS: usize = 160;

/// Unused octets between the counts of one worker and those of the next. Processors that write to the same 128 octets
/// wait for one another.
type Gap = [u64; 14];

/// The counts of frames that entered and left at a customer port.
#[derive(Drop)]
struct PortTraffic {
    entered: AtomicU64,
    left: AtomicU64,
    _gap: Gap,
}

/// The copies that a bridge lost because a queue was full, the ticks of its clock, and the frames that it dropped: of
/// each local port in turn, by number.
#[derive(Drop)]
struct BridgeTraffic {
    refused: AtomicU64,
    ticks: AtomicU64,
    drops: Vec<AtomicU64>,
    _gap: Gap,
}

/// Returns counts of dropped frames that are all 0.
///
/// # Errors
///
/// `AllocError` if an allocation failed.
fn no_drops(alloc: Global) -> Result<Vec<AtomicU64>, AllocError> {
    let mut drops = Vec::with_capacity(alloc, DROPS)?;
    for _ in 0..DROPS {
        drops.push(AtomicU64::new(0))?;
    }
    Ok(drops)
}

/// Returns the number of the count of a dropped frame among those of its port.
fn number_of(dropped: Dropped) -> u8 {
    match dropped {
        Dropped::By(reason) => drop_number(reason),
        Dropped::Nowhere => NO_PORT,
    }
}

/// The live counts of a network. Workers count, and readers may see a count a moment later. The report of a run counts
/// on its own.
#[derive(Drop)]
pub struct Traffic {
    ports: Vec<PortTraffic>,
    bridges: Vec<BridgeTraffic>,
}

/// Returns the index of the item with this number, from 1.
fn place_of(number: u8) -> usize {
    usize::from(number).wrapping_sub(1)
}

impl Traffic {
    /// Returns counts that are all 0.
    ///
    /// # Errors
    ///
    /// `AllocError` if an allocation failed.
    pub fn new(alloc: Global) -> Result<Traffic, AllocError> {
        let mut ports = Vec::with_capacity(alloc, PORTS)?;
        for _ in 0..PORTS {
            ports.push(PortTraffic {
                entered: AtomicU64::new(0),
                left: AtomicU64::new(0),
                _gap: [0; 14],
            })?;
        }
        let mut bridges = Vec::with_capacity(alloc, BRIDGES)?;
        for _ in 0..BRIDGES {
            bridges.push(BridgeTraffic {
                refused: AtomicU64::new(0),
                ticks: AtomicU64::new(0),
                drops: no_drops(alloc)?,
                _gap: [0; 14],
            })?;
        }
        Ok(Traffic { ports, bridges })
    }

    /// Counts a frame that entered at the customer port of this number, from 1.
    pub fn enter(&self, port: u8) {
        if let Some(port) = self.ports.get(place_of(port)) {
            port.entered.fetch_add(1, Ordering::SeqCst);
        }
    }

    /// Counts a frame that left at the customer port of this number, from 1.
    pub fn leave(&self, port: u8) {
        if let Some(port) = self.ports.get(place_of(port)) {
            port.left.fetch_add(1, Ordering::SeqCst);
        }
    }

    /// Counts copies that the bridge of this number, from 1, lost because a queue was full.
    pub fn refuse(&self, bridge: u8, copies: u64) {
        if let Some(bridge) = self.bridges.get(place_of(bridge)) {
            bridge.refused.fetch_add(copies, Ordering::SeqCst);
        }
    }

    /// Counts a frame that a local port of the bridge of this number, from 1, received and no port got.
    pub fn drop(&self, bridge: u8, port: u8, dropped: Dropped) {
        if let Some(bridge) = self.bridges.get(place_of(bridge)) {
            let index = KINDS
                .wrapping_mul(place_of(port))
                .wrapping_add(usize::from(number_of(dropped)));
            if let Some(count) = bridge.drops.get(index) {
                count.fetch_add(1, Ordering::SeqCst);
            }
        }
    }

    /// Returns how many frames the bridge of this number, from 1, dropped: for each local port 1 to 16 in turn, ten
    /// counts by number. They are 0 if there is no such bridge.
    pub fn drops(&self, bridge: u8) -> [u64; DROPS] {
        let mut drops = [0; DROPS];
        if let Some(bridge) = self.bridges.get(place_of(bridge)) {
            for (index, count) in bridge.drops.iter().enumerate() {
                if index < DROPS {
                    drops[index] = count.load(Ordering::SeqCst);
                }
            }
        }
        drops
    }

    /// Sets the ticks of the clock of the bridge of this number, from 1.
    pub fn tick(&self, bridge: u8, now: u32) {
        if let Some(bridge) = self.bridges.get(place_of(bridge)) {
            let now = u64::from(now);
            if bridge.ticks.load(Ordering::SeqCst) != now {
                bridge.ticks.store(now, Ordering::SeqCst);
            }
        }
    }

    /// Returns how many frames have entered at the customer port of this number, from 1, and how many have left there.
    pub fn at_port(&self, port: u8) -> (u64, u64) {
        match self.ports.get(place_of(port)) {
            Some(port) => (
                port.entered.load(Ordering::SeqCst),
                port.left.load(Ordering::SeqCst),
            ),
            None => (0, 0),
        }
    }

    /// Returns how many copies the bridge of this number, from 1, lost because a queue was full, and how often its
    /// clock has ticked.
    pub fn at_bridge(&self, bridge: u8) -> (u64, u64) {
        match self.bridges.get(place_of(bridge)) {
            Some(bridge) => (
                bridge.refused.load(Ordering::SeqCst),
                bridge.ticks.load(Ordering::SeqCst),
            ),
            None => (0, 0),
        }
    }

    /// Returns how many frames have entered, at all ports.
    pub fn entered(&self) -> u64 {
        let mut sum = 0u64;
        for port in &self.ports {
            sum = sum.saturating_add(port.entered.load(Ordering::SeqCst));
        }
        sum
    }

    /// Returns how many frames have left, at all ports.
    pub fn left(&self) -> u64 {
        let mut sum = 0u64;
        for port in &self.ports {
            sum = sum.saturating_add(port.left.load(Ordering::SeqCst));
        }
        sum
    }

    /// Returns how many copies all bridges lost because a queue was full.
    pub fn refused(&self) -> u64 {
        let mut sum = 0u64;
        for bridge in &self.bridges {
            sum = sum.saturating_add(bridge.refused.load(Ordering::SeqCst));
        }
        sum
    }

    /// Returns how many frames all bridges dropped, those that were relayed to no port included.
    pub fn dropped(&self) -> u64 {
        let mut sum = 0u64;
        for bridge in &self.bridges {
            for count in &bridge.drops {
                sum = sum.saturating_add(count.load(Ordering::SeqCst));
            }
        }
        sum
    }

    /// Returns the ticks of the bridge that ticked most.
    pub fn ticks(&self) -> u64 {
        let mut most = 0u64;
        for bridge in &self.bridges {
            most = most.max(bridge.ticks.load(Ordering::SeqCst));
        }
        most
    }
}
