//! The events of rows, and checks of steps against rows.

use super::rows::{Act, Deed, Fate, Sent};
use bytes::Bytes;
use pb_lan::{Event, Item, Learnt, Mark, Moved, NoRoom, Outcome, PortState, Step};
use std::alloc::{AllocError, Global};

/// Returns the event of an act.
pub(super) fn event_of(act: Act) -> Event {
    match act {
        Act::Poll(port, octets) => Event::Poll {
            port,
            frame: Bytes::from_static(octets),
        },
        Act::Feed(port) => Event::Feed { port },
        Act::Deliver(port) => Event::Deliver { port },
        Act::Receive(bridge, port) => Event::Receive { bridge, port },
        Act::Transmit(bridge, port) => Event::Transmit { bridge, port },
        Act::Tick(bridge) => Event::Tick { bridge },
        Act::Admin(bridge, port, up) => Event::Admin { bridge, port, up },
        Act::Take(lane) => Event::Take { lane },
        Act::Put(lane) => Event::Put { lane },
    }
}

/// Returns the events of acts.
pub(super) fn events_of(alloc: Global, acts: &[Act]) -> Result<Vec<Event>, AllocError> {
    let mut events = Vec::new(alloc);
    for act in acts {
        events.push(event_of(*act))?;
    }
    Ok(events)
}

/// Returns a frame that begins with these octets, with zeros up to this many octets.
pub(super) fn long(alloc: Global, head: &[u8], octets: usize) -> Result<Bytes, AllocError> {
    let mut frame = Vec::from_slice(alloc, head)?;
    frame.resize(octets, 0)?;
    Ok(Bytes::from_vec(frame)?)
}

/// Checks whether a frame was relayed to ports, but for those that refused.
fn is_relayed(outcome: &Outcome, ports: &[u8], refusals: &[(u8, NoRoom)]) -> bool {
    match outcome {
        Outcome::Relayed { chosen, refused } => {
            chosen.list().as_slice() == ports && refused.list().as_slice() == refusals
        }
        _ => false,
    }
}

/// Checks whether an outcome is this fate.
pub(super) fn is_fate(outcome: &Outcome, fate: Fate) -> bool {
    match fate {
        Fate::Relayed(ports) => is_relayed(outcome, ports, &[]),
        Fate::RelayedBut(ports, refusals) => is_relayed(outcome, ports, refusals),
        Fate::Filtered(wanted) => match outcome {
            Outcome::Filtered(reason) => *reason == wanted,
            _ => false,
        },
    }
}

/// Checks whether a frame came in at customer port 1 as the one of this number.
fn is_mark(mark: Option<Mark>, number: u64) -> bool {
    match mark {
        Some(mark) => mark.port == 1 && mark.number.get() == number,
        None => false,
    }
}

/// Checks whether an item is this frame of customer port 1.
fn is_sent(item: &Item, sent: Sent) -> bool {
    is_mark(item.mark, sent.number) && item.hops == sent.hops && item.wire.as_slice() == sent.frame
}

/// Checks whether these states changed and these ports were flushed, and no BPDU came of it.
fn has_moved(moved: &Moved, states: &[(u8, PortState)], flushed: &[u8]) -> bool {
    moved.states.as_slice() == states
        && moved.flushed.as_slice() == flushed
        && moved.queued.len() == 0
        && moved.dropped.len() == 0
}

/// Checks whether a bridge received this frame at a port, with this result of learning, and nothing else changed.
fn is_receipt(step: &Step, at: u8, sent: Sent, wanted: (Learnt, Fate)) -> bool {
    match step {
        Step::Receive {
            port,
            item,
            learnt,
            outcome,
            moved,
        } => {
            *port == at
                && is_sent(item, sent)
                && *learnt == Some(wanted.0)
                && is_fate(outcome, wanted.1)
                && moved.is_none()
        }
        _ => false,
    }
}

/// Checks whether a customer port delivered this frame, which was taken.
fn is_delivery(step: &Step, sent: Sent) -> bool {
    match step {
        Step::Deliver { item, gone } => !*gone && is_sent(item, sent),
        _ => false,
    }
}

/// Checks whether a bridge's port was enabled or disabled with these changes.
fn is_admin(
    step: &Step,
    (at, is_up): (u8, bool),
    states: &[(u8, PortState)],
    flushed: &[u8],
) -> bool {
    match step {
        Step::Admin { port, up, moved } => {
            *port == at && *up == is_up && has_moved(moved, states, flushed)
        }
        _ => false,
    }
}

/// Checks whether a step is this deed.
pub(super) fn is_deed(step: &Step, deed: Deed) -> bool {
    match deed {
        Deed::Receive {
            port,
            item,
            learnt,
            fate,
        } => is_receipt(step, port, item, (learnt, fate)),
        Deed::Deliver(item) => is_delivery(step, item),
        Deed::Admin {
            port,
            up,
            states,
            flushed,
        } => is_admin(step, (port, up), states, flushed),
    }
}

/// Checks whether steps are these deeds, one by one.
pub(super) fn are_deeds(steps: &[Step], deeds: &[Deed]) -> bool {
    for (place, deed) in deeds.iter().enumerate() {
        match steps.get(place) {
            Some(step) if is_deed(step, *deed) => (),
            _ => return false,
        }
    }
    steps.len() == deeds.len()
}
