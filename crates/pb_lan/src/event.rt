//! Events: requests for one step of one place of a network.

use crate::step::Place;
use bytes::Bytes;

/// A request for one step of one place.
///
/// Bridges, lanes and customer ports are numbered from 1 in the order of the plan. Link j has the lanes 2j-1 (from a to
/// b) and 2j (from b to a). A `port` next to `bridge` is one of the bridge's local ports, 1 to 16.
#[derive(PartialEq, Eq, Debug, Drop)]
pub enum Event {
    /// A frame enters at a customer port.
    Poll { port: u8, frame: Bytes },
    /// A customer port passes the frame that it holds to its bridge.
    Feed { port: u8 },
    /// A customer port takes the oldest frame that its bridge sent to it.
    Deliver { port: u8 },
    /// A bridge receives the oldest item that arrived at one of its ports.
    Receive { bridge: u8, port: u8 },
    /// A bridge sends the next item of one of its ports.
    Transmit { bridge: u8, port: u8 },
    /// A bridge's clock advances by one tick.
    Tick { bridge: u8 },
    /// A provider port is enabled or disabled.
    Admin { bridge: u8, port: u8, up: bool },
    /// A lane takes the oldest item that was sent to it.
    Take { lane: u8 },
    /// A lane passes the item that it holds to the far bridge.
    Put { lane: u8 },
}

impl Event {
    ghost use Rattle.std.specs.Prelude.{◌≡◌};
    ghost use Rattle.pb_lan.specs.Events.{place_of};

    /// Returns the place that the event asks for a step.
    pub fn place(&self) -> Place
        ensures { result ≡ place_of self.now }
    {
        match self {
            Event::Poll { port, .. } | Event::Feed { port } | Event::Deliver { port } => {
                Place::Customer(*port)
            }
            Event::Receive { bridge, .. }
            | Event::Transmit { bridge, .. }
            | Event::Tick { bridge }
            | Event::Admin { bridge, .. } => Place::Bridge(*bridge),
            Event::Take { lane } | Event::Put { lane } => Place::Lane(*lane),
        }
    }
}
