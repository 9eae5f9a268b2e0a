//! Devices whose peers come and go.

ghost use Rattle.pb_port.specs.declared.line.Parting.{Parting};

use crate::device::Device;

/// The counts of one peer, each at most the greatest `u64`.
#[derive(Clone, Copy, Debug, PartialEq, Eq)]
pub struct Parting {
    /// The number of frames that came from the peer.
    pub entered: u64,
    /// The number of frames that were sent to the peer.
    pub left: u64,
    /// The number of frames that were dropped because the peer left, in both directions.
    pub dropped: u64,
}

/// A device with a peer at a time. When that leaves, the next one follows.
///
/// Until the next peer is there, each read and each write waits.
pub trait Line: Device {
    /// The line before a renewal, its counts, and the line after it, as far as the line says how they are related.
    ghost renews: { Self → Parting → Self → Type 0 } = { λ _ _ _. Unit {0} };

    /// Leaves the peer, of which these are the counts. The octets that are read and written from now on are those of
    /// the next peer, and nothing is known of them.
    fn renew(&mut self, parting: Parting)
        ensures { renews self.old parting self.new };
}
