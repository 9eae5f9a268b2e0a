//! The next event of a frame on its way.

ghost use Rattle.std.specs.Prelude.{◌≡◌};
ghost use Rattle.pb_cmd_trace.specs.Onwards.{event_of};

use pb_lan::Event;

/// The next event of a frame on its way.
#[derive(Clone, Copy, Debug, PartialEq, Eq)]
pub enum Onward {
    /// The customer port of this number feeds it to its bridge.
    Feed(u8),
    /// The customer port of this number delivers it.
    Deliver(u8),
    /// The bridge of this number receives it at this local port.
    Receive(u8, u8),
    /// The bridge of this number transmits it at this local port.
    Transmit(u8, u8),
    /// The lane of this number takes it.
    Take(u8),
    /// The lane of this number puts it before the far bridge.
    Put(u8),
}

/// Returns the network's event for it.
pub(crate) fn event_of(onward: Onward) -> Event
    ensures { result ≡ event_of onward }
{
    match onward {
        Onward::Feed(port) => Event::Feed { port },
        Onward::Deliver(port) => Event::Deliver { port },
        Onward::Receive(bridge, port) => Event::Receive { bridge, port },
        Onward::Transmit(bridge, port) => Event::Transmit { bridge, port },
        Onward::Take(lane) => Event::Take { lane },
        Onward::Put(lane) => Event::Put { lane },
    }
}
