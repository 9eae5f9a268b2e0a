//! A line whose peers are a list.

use super::device::Seen;
use pb_port::{Device, Got, Line, Parting};
use std::cell::Cell;

/// What a peer does once all its octets were read, or once it has taken all that it takes.
#[derive(Clone, Copy)]
pub(super) enum Then {
    /// Its input ends. Writes wait.
    Ends,
    /// Reads and writes fail.
    Fails,
    /// Reads and writes wait.
    Waits,
}

/// A peer of a line.
#[derive(Clone, Copy)]
pub(super) struct Peer {
    pub(super) gives: &'static [u8],
    /// The number of octets that it takes.
    pub(super) takes: usize,
    pub(super) then: Then,
}

/// A peer that gives nothing, takes nothing, and stays.
const NOBODY: Peer = Peer {
    gives: &[],
    takes: 0,
    then: Then::Waits,
};

/// The record of partings.
#[derive(Drop)]
pub(super) struct Partings {
    wanted: &'static [Parting],
    /// The number of partings, and whether they were the expected ones.
    sight: Cell<(usize, bool)>,
}

impl Partings {
    /// Returns an empty record.
    pub(super) fn new(wanted: &'static [Parting]) -> Partings {
        Partings {
            wanted,
            sight: Cell::new((0, true)),
        }
    }

    /// Checks whether exactly the expected partings came.
    pub(super) fn has_all(&self) -> bool {
        let (count, is_right) = self.sight.get();
        is_right && count == self.wanted.len()
    }

    fn note(&self, parting: Parting) {
        let (count, is_right) = self.sight.get();
        let is_wanted = self.wanted.get(count).copied() == Some(parting);
        self.sight
            .set((count.saturating_add(1), is_right && is_wanted));
    }
}

/// A line with peers in turn, whose actions are recorded.
#[derive(Drop)]
pub(super) struct Turns<'a> {
    peer: Peer,
    others: &'static [Peer],
    failures: u64,
    seen: &'a Seen<'a>,
    partings: &'a Partings,
}

impl<'a> Turns<'a> {
    pub(super) fn new(
        peers: &'static [Peer],
        seen: &'a Seen<'a>,
        partings: &'a Partings,
    ) -> Turns<'a> {
        let (peer, others) = first(peers);
        Turns {
            peer,
            others,
            failures: 0,
            seen,
            partings,
        }
    }
}

/// Returns the first peer, and the others.
fn first(peers: &'static [Peer]) -> (Peer, &'static [Peer]) {
    match peers.split_first() {
        Some((peer, others)) => (*peer, others),
        None => (NOBODY, &[]),
    }
}

impl Device for Turns<'_> {
    ghost failed = { λ d. d.failures };

    fn read(&mut self, buf: &mut [u8]) -> Got {
        let n = buf.len().min(self.peer.gives.len());
        if 0 < n {
            buf[..n].copy_from_slice(&self.peer.gives[..n]);
            self.peer.gives = &self.peer.gives[n..];
            return Got::Moved(n);
        }
        match self.peer.then {
            Then::Ends => Got::Moved(0),
            Then::Fails if self.failures < u64::MAX => {
                self.failures += 1;
                Got::Failed
            }
            _ => Got::Wait,
        }
    }

    fn write(&mut self, buf: &[u8]) -> Got {
        let n = buf.len().min(self.peer.takes);
        if 0 < n {
            self.seen.note(&buf[..n]);
            self.peer.takes -= n;
            return Got::Moved(n);
        }
        match self.peer.then {
            Then::Fails if self.failures < u64::MAX => {
                self.failures += 1;
                Got::Failed
            }
            _ => Got::Wait,
        }
    }

    fn failures(&self) -> u64 {
        self.failures
    }
}

impl Line for Turns<'_> {
    fn renew(&mut self, parting: Parting) {
        self.partings.note(parting);
        (self.peer, self.others) = first(self.others);
    }
}
