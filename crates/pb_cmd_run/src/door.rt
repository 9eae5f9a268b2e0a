//! Doors: how the peers of a port that stays come and go, between the port and the gate of the run.

use mio::net::UnixStream;
use pb_frame::Text;
use pb_run_control::PeerChange;
use rtrb::{Consumer, Producer, RingBuffer};
use std::alloc::{AllocError, Global};
use std::io::{Error, ErrorKind};
use std::net::Net;
use std::time::{Clock, Duration, Instant};

/// The number of changes that can wait until the gate reports them.
const CHANGES: usize = 64;

/// The shortest time between two tries to connect, in milliseconds.
const SHORTEST: u64 = 10;

/// The longest time between two tries to connect, in milliseconds.
const LONGEST: u64 = 1_000;

/// Checks whether a call that ended with this error is to be repeated later.
pub(crate) fn may_wait(error: &Error) -> bool {
    matches!(error.kind(), ErrorKind::Interrupted | ErrorKind::WouldBlock)
}

/// The port's side of a door.
#[derive(Drop)]
pub(crate) struct PortDoor {
    streams: Consumer<UnixStream>,
    changes: Producer<PeerChange>,
}

impl PortDoor {
    /// Checks whether a peer may come: its coming and its leaving can be reported.
    pub(crate) fn is_ready(&mut self) -> bool {
        self.changes.slots() >= 2
    }

    /// Returns the next peer to which the gate has connected, if there is one.
    pub(crate) fn next(&mut self) -> Option<UnixStream> {
        self.streams.pop().ok()
    }

    /// Reports once that a peer that waits can't be accepted, for an error that is not that none waits. Returns whether
    /// this is reported.
    pub(crate) fn tell_unaccepted(&mut self, has_told: bool, error: &Error) -> bool {
        if may_wait(error) {
            return has_told;
        }
        if !has_told {
            self.report(PeerChange::Unaccepted);
        }
        true
    }

    /// Reports a change. After [`PeerChange::Left`] the gate connects to the next peer, if the port connects.
    pub(crate) fn report(&mut self, change: PeerChange) {
        let _ = self.changes.push(change);
    }
}

/// The gate's side of a door.
#[derive(Drop)]
pub(crate) struct GateDoor {
    /// The number of the port in the plan, from 1.
    pub number: u8,
    /// The path to connect to, if the port connects.
    path: Option<Text>,
    streams: Producer<UnixStream>,
    changes: Consumer<PeerChange>,
    /// Whether the port waits for a peer to which the gate connects.
    is_wanted: bool,
    /// The moment of the newest try to connect.
    tried: Option<Instant>,
    /// The time from that to the next, in milliseconds.
    pause: u64,
}

impl GateDoor {
    /// Returns the next change that the port has reported, if there is one.
    pub(crate) fn next_change(&mut self) -> Option<PeerChange> {
        let change = self.changes.pop().ok()?;
        if let PeerChange::Left { .. } = &change {
            self.is_wanted = self.path.is_some();
        }
        Some(change)
    }

    /// Checks whether the pause after the newest try is over. It is if the clock can't be read.
    fn is_due<R: Clock>(&self, rt: &R) -> bool {
        match self.tried.map(|tried| tried.elapsed(rt)) {
            Some(Ok(time)) => time >= Duration::from_millis(self.pause),
            _ => true,
        }
    }

    /// Hands the port a peer.
    fn hand(&mut self, stream: UnixStream) {
        let _ = self.streams.push(stream);
        self.is_wanted = false;
        self.pause = SHORTEST;
    }

    /// Connects to the next peer, if the port waits for one and the pause is over. Returns whether the port has one
    /// now.
    pub(crate) fn connect<R: Net + Clock>(&mut self, rt: &R) -> bool {
        let Some(path) = &self.path else {
            return false;
        };
        if !self.is_wanted || !self.is_due(rt) {
            return false;
        }
        let connected = UnixStream::connect(rt, path.as_str());
        self.tried = Instant::now(rt).ok();
        match connected {
            Ok(stream) => {
                self.hand(stream);
                true
            }
            Err(_) => {
                self.pause = self.pause.saturating_mul(2).min(LONGEST);
                false
            }
        }
    }
}

/// Makes a door between the port of this number, from 1, and the gate. With a path the gate connects to the next peer
/// there whenever one has left.
///
/// # Errors
///
/// `AllocError` if an allocation failed.
pub(crate) fn make_door(
    alloc: Global,
    number: u8,
    path: Option<Text>,
) -> Result<(PortDoor, GateDoor), AllocError> {
    let (to_port, streams) = RingBuffer::new(alloc, 1)?;
    let (changes, from_port) = RingBuffer::new(alloc, CHANGES)?;
    let inside = PortDoor { streams, changes };
    let outside = GateDoor {
        number,
        path,
        streams: to_port,
        changes: from_port,
        is_wanted: false,
        tried: None,
        pause: SHORTEST,
    };
    Ok((inside, outside))
}
