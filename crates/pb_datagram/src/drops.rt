//! The counts of what a port dropped.
ghost use Rattle.std.specs.Prelude.{◌≡◌};
ghost use Rattle.pb_datagram.specs.Counts.{counted, count_of, no_refusals};

use crate::device::SystemError;
use crate::refusal::Refusal;

/// The numbers of datagrams that were refused, by reason, each at most the greatest `u64`.
#[derive(Clone, Copy, Debug, PartialEq, Eq)]
pub struct Refusals {
    /// The number of datagrams from another address.
    pub other_sender: u64,
    /// The number of datagrams that were shorter than a VXLAN header.
    pub short_header: u64,
    /// The number of datagrams without the I flag.
    pub unset_flag: u64,
    /// The number of datagrams of another VXLAN network.
    pub other_network: u64,
    /// The number of datagrams that were shorter than an Ethernet header.
    pub short_frame: u64,
}

/// The counts of what a port dropped, each at most the greatest `u64`.
#[derive(Clone, Copy, Debug, PartialEq, Eq)]
pub struct Drops {
    /// The datagrams that were refused.
    pub refusals: Refusals,
    /// The number of receives that failed.
    pub failed_receives: u64,
    /// The error of the newest receive that failed.
    pub receive_error: Option<SystemError>,
    /// The number of frames that were dropped because the system did not take their datagrams.
    pub failed_sends: u64,
    /// The error of the newest send that failed.
    pub send_error: Option<SystemError>,
}

impl Refusals {
    /// Returns the numbers before the first datagram.
    pub fn new() -> Refusals
        ensures { result ≡ no_refusals }
    {
        Refusals {
            other_sender: 0,
            short_header: 0,
            unset_flag: 0,
            other_network: 0,
            short_frame: 0,
        }
    }

    /// Returns the number of datagrams that were refused for this reason.
    pub fn count(&self, reason: Refusal) -> u64
        ensures { result ≡ count_of reason self.now }
    {
        match reason {
            Refusal::OtherSender => self.other_sender,
            Refusal::ShortHeader => self.short_header,
            Refusal::UnsetFlag => self.unset_flag,
            Refusal::OtherNetwork => self.other_network,
            Refusal::ShortFrame => self.short_frame,
        }
    }

    /// Counts a datagram that is refused for this reason.
    pub(crate) fn note(&mut self, reason: Refusal)
        ensures { self.new ≡ counted reason self.old }
    {
        match reason {
            Refusal::OtherSender => self.other_sender = self.other_sender.saturating_add(1),
            Refusal::ShortHeader => self.short_header = self.short_header.saturating_add(1),
            Refusal::UnsetFlag => self.unset_flag = self.unset_flag.saturating_add(1),
            Refusal::OtherNetwork => self.other_network = self.other_network.saturating_add(1),
            Refusal::ShortFrame => self.short_frame = self.short_frame.saturating_add(1),
        }
    }
}
