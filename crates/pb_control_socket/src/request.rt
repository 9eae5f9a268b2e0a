//! The request of a line of the control socket.

use thiserror::Error;

/// The part of a plan that a name means: the ends of its links are enabled or disabled together.
#[derive(Clone, Copy, Debug, PartialEq, Eq)]
pub enum Part {
    /// The link of this number, from 1: both of its ends.
    Link(u8),
    /// The bridge of this number, from 1: both ends of each of its links.
    Bridge(u8),
}

/// The request of a line.
#[derive(Clone, Copy, Debug, PartialEq, Eq)]
pub enum Request {
    /// `stop`: end the run.
    Stop,
    /// `counts`: the frames that entered and left at the customer ports, those that bridges refused, and the peers of
    /// ports that stay.
    Counts,
    /// `tree`: the roles and states of the ports between bridges.
    Tree,
    /// `drops`: the frames that bridges dropped, by local port and reason.
    Drops,
    /// `stations BRIDGE`: the stations that a bridge has learnt.
    Stations {
        /// The number of the bridge, from 1.
        bridge: u8,
    },
    /// `help`: the requests.
    Help,
    /// `up BRIDGE PORT`, `down BRIDGE PORT`, or the same with `BRIDGE:PORT`: enable or disable a port to another
    /// bridge.
    Set {
        /// The number of the bridge, from 1.
        bridge: u8,
        /// The number of its local port.
        port: u8,
        /// Whether the port is to be enabled.
        up: bool,
    },
    /// `up NAME` or `down NAME`: enable or disable the ends of a link, or of all links of a bridge.
    SetPart {
        /// The part that the name means.
        part: Part,
        /// Whether the ends are to be enabled.
        up: bool,
    },
}

/// The reason why nothing is done for a line.
#[derive(Clone, Copy, Debug, PartialEq, Eq, Error)]
pub enum Refused {
    /// The plan has no such bridge, or the bridge has no port of that number that leads to another bridge. Or the name
    /// is that of no link and no bridge, or of both.
    #[error("no such")]
    NoSuch,
    /// The line is no request.
    #[error("bad")]
    Bad,
}
