//! The actions of rows on a network.

use super::draft::{Draft, Port};
use bytes::Bytes;
use pb_net::{Did, Event, Net};

/// Checks whether the event's place takes a step.
pub(super) fn does(net: &mut Net, event: Event) -> bool {
    let place = event.place();
    net.step(event) == Ok(Did::Done(place))
}

/// Polls a frame at a customer port, and lets its bridge receive it. Returns whether each step was taken.
pub(super) fn enters(net: &mut Net, draft: &Draft, customer: u8, frame: Bytes) -> bool {
    let Some((bridge, port)) = draft.site_of(customer) else {
        return false;
    };
    let poll = Event::Poll {
        port: customer,
        frame,
    };
    does(net, poll)
        && does(net, Event::Feed { port: customer })
        && does(net, Event::Receive { bridge, port })
}

/// Lets the bridge at a lane's beginning transmit an item, and the bridge at its end receive it. Returns whether each
/// step was taken.
pub(super) fn crosses(net: &mut Net, draft: &Draft, lane: u8) -> bool {
    let Some((from, to)) = draft.ends_of(lane) else {
        return false;
    };
    let (bridge, port) = from;
    let sent = does(net, Event::Transmit { bridge, port })
        && does(net, Event::Take { lane })
        && does(net, Event::Put { lane });
    let (bridge, port) = to;
    sent && does(net, Event::Receive { bridge, port })
}

/// Lets a bridge transmit an item to a customer port, and the port deliver it. Returns whether each step was taken.
pub(super) fn leaves(net: &mut Net, draft: &Draft, customer: u8) -> bool {
    let Some((bridge, port)) = draft.site_of(customer) else {
        return false;
    };
    does(net, Event::Transmit { bridge, port }) && does(net, Event::Deliver { port: customer })
}

/// Moves one item, if one waits, at each part of a lane. Returns whether one moved.
fn goes_on(net: &mut Net, lane: u8, ends: (Port, Port)) -> bool {
    let (from, to) = ends;
    let (bridge, port) = from;
    let sent = does(net, Event::Transmit { bridge, port });
    let taken = does(net, Event::Take { lane });
    let put = does(net, Event::Put { lane });
    let (bridge, port) = to;
    let received = does(net, Event::Receive { bridge, port });
    sent | taken | put | received
}

/// Feeds and delivers one frame, if one waits, at a customer port. Returns whether one moved.
fn goes_through(net: &mut Net, customer: u8, at: Port) -> bool {
    let (bridge, port) = at;
    let fed = does(net, Event::Feed { port: customer });
    let received = does(net, Event::Receive { bridge, port });
    let sent = does(net, Event::Transmit { bridge, port });
    let delivered = does(net, Event::Deliver { port: customer });
    fed | received | sent | delivered
}

/// Visits each lane and each customer port once. Returns whether something moved.
fn turns(net: &mut Net, draft: &Draft) -> bool {
    let mut moved = false;
    for number in 1..=128u8 {
        if let Some(ends) = draft.ends_of(number) {
            moved = goes_on(net, number, ends) | moved;
        }
        if let Some(at) = draft.site_of(number) {
            moved = goes_through(net, number, at) | moved;
        }
    }
    moved
}

/// Carries all that is on its way to its end. Returns whether nothing waits then.
pub(super) fn empties(net: &mut Net, draft: &Draft) -> bool {
    for _turn in 0..400u16 {
        if !turns(net, draft) {
            return true;
        }
    }
    false
}

/// Ticks each bridge once, and carries all that is on its way to its end.
fn round(net: &mut Net, draft: &Draft) -> bool {
    for bridge in 1..=draft.bridges {
        if !does(net, Event::Tick { bridge }) {
            return false;
        }
    }
    empties(net, draft)
}

/// Runs this many rounds.
pub(super) fn rounds(net: &mut Net, draft: &Draft, count: u8) -> bool {
    for _round in 0..count {
        if !round(net, draft) {
            return false;
        }
    }
    true
}
