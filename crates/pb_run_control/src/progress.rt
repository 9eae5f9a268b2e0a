//! What the caller's gate receives of a run.

use pb_threads::Gate;

/// The reason why frames may enter that were held back until the bridges converged.
#[derive(Clone, Copy, PartialEq, Eq, Debug)]
pub enum Opening {
    /// The bridges seem to have converged. The one that ticked most has ticked this often.
    Converged(u64),
    /// The bridges do not seem to have converged, and the wait is over. The one that ticked least has ticked this
    /// often.
    NotConverged(u64),
}

/// The change of a customer port's peer, at a socket that stays when its peer leaves or that waits for its peer.
#[derive(Clone, Copy, PartialEq, Eq, Debug)]
pub enum PeerChange {
    /// A peer has connected.
    Connected,
    /// A peer that waits can't be accepted for want of a descriptor or of memory. The port tries again.
    Unaccepted,
    /// The peer has left.
    Left {
        /// The number of frames that the peer sent.
        entered: u64,
        /// The number of frames that the peer was sent.
        left: u64,
        /// The number of frames that waited for the peer and were dropped.
        dropped: u64,
    },
}

/// The failed calls of a customer port's socket for datagrams since they were last reported.
#[derive(Clone, Copy, PartialEq, Eq, Debug)]
pub enum SocketFailure {
    /// The system did not take datagrams. Their frames are dropped.
    Unsent {
        /// The number of these frames.
        frames: u64,
        /// The newest error, as `errno` of POSIX.1-2017 has it.
        error: i32,
    },
    /// The system failed to return datagrams.
    Unreceived {
        /// The number of receives that failed.
        receives: u64,
        /// The newest error, as `errno` of POSIX.1-2017 has it.
        error: i32,
    },
}

/// A gate that receives the progress of its run.
pub trait RunProgress: Gate {
    /// Receives that frames may enter. They were held back until the bridges converged.
    fn open(&self, opening: Opening);

    /// Returns the time of a clock that never goes back, in seconds. A gate without a clock always returns 0.
    fn seconds(&self) -> u64 {
        0
    }

    /// Receives that the run is over: no worker runs any more, and no report is printed yet.
    fn close(&self);

    /// Receives that the run begins once somebody reads the pipe that this port or tap writes.
    fn waits(&self, _user: &str) {}

    /// Receives that the peer of the customer port of this name has changed.
    fn peer(&self, _port: &str, _change: PeerChange) {}

    /// Receives that calls of the socket of the customer port of this name have failed, once a second at most.
    fn socket(&self, _port: &str, _failure: SocketFailure) {}
}
