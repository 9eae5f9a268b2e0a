//! A network with an allocator that fails: an event that met a failed allocation changes nothing, and is done at the
//! next try.

use super::expected::event_of;
use super::networks::{BROADCAST, JOINED, NOTICE};
use super::plans::plan_of;
use super::rows::Act;
use super::seen::{has_moved, taken_at, tells_short};
use pb_frame::Memory;
use pb_lan::{Place, plan_is_sound};
use pb_net::{Did, Net, NetFault};
use std::alloc::Global;
use std::test::Fail;

/// The events of a frame after its poll at customer port 1, over the link to customer port 2.
const EVENTS: &[Act] = &[
    Act::Feed(1),
    Act::Receive(1, 2),
    Act::Transmit(1, 1),
    Act::Take(1),
    Act::Put(1),
    Act::Receive(2, 1),
    Act::Transmit(2, 2),
    Act::Deliver(2),
];

/// The places that take part.
const PLACES: &[Place] = &[
    Place::Customer(1),
    Place::Customer(2),
    Place::Lane(1),
    Place::Bridge(1),
    Place::Bridge(2),
];

/// Returns how many steps these places took.
fn taken(net: &Net) -> usize {
    let mut taken = 0usize;
    for place in PLACES {
        taken = taken.saturating_add(taken_at(net, *place).unwrap_or(0));
    }
    taken
}

/// The result of an event.
#[derive(Clone, Copy, PartialEq, Eq, Debug)]
enum Came {
    Done,
    /// It had nothing to do.
    Idle,
    /// It wanted memory at both tries, and nothing changed.
    Memory,
    /// It wanted memory, and something changed; or it failed.
    Wrong,
}

fn told_by(answer: Result<Did, NetFault>) -> Came {
    match answer {
        Ok(Did::Done(_)) => Came::Done,
        Ok(Did::Idle) => Came::Idle,
        Err(NetFault::Memory) => Came::Memory,
        Err(_) => Came::Wrong,
    }
}

/// Gives an event, and again if an allocation failed.
fn gives(net: &mut Net, act: Act) -> Came {
    let before = taken(net);
    let first = told_by(net.step(event_of(act)));
    if first != Came::Memory {
        return first;
    }
    if taken(net) != before {
        return Came::Wrong;
    }
    told_by(net.step(event_of(act)))
}

/// Returns the result of the poll of a frame and of the events after it, up to the first that was not done.
fn all_come(net: &mut Net, frame: &'static [u8]) -> Came {
    let polled = gives(net, Act::Poll(1, frame));
    if polled != Came::Done {
        return polled;
    }
    for act in EVENTS {
        let came = gives(net, *act);
        if came != Came::Done {
            return came;
        }
    }
    Came::Done
}

/// Returns the result of a frame's events in a network, whether it left as it came, and whether otherwise a bridge's
/// step reports a failed allocation.
fn seen(alloc: Global, frame: &'static [u8]) -> Result<(Came, bool, bool), Memory> {
    let plan = plan_of(alloc, &JOINED)?;
    if !plan_is_sound(&plan) {
        return Ok((Came::Wrong, false, false));
    }
    let mut net = Net::new(alloc, plan)?;
    let came = all_come(&mut net, frame);
    let has_left = has_moved(&net, Place::Customer(2), frame);
    Ok((came, has_left, tells_short(&net, 1) || tells_short(&net, 2)))
}

/// Returns the result of a frame's events in a network that only counts its steps, whether it left, and whether the
/// counts report a failed allocation.
fn counted(alloc: Global, frame: &'static [u8]) -> Result<(Came, bool, bool), Memory> {
    let plan = plan_of(alloc, &JOINED)?;
    if !plan_is_sound(&plan) {
        return Ok((Came::Wrong, false, false));
    }
    let mut net = Net::counting(alloc, plan)?;
    let came = all_come(&mut net, frame);
    let tallies = net.tallies()?;
    let has_left = match tallies.customers().get(1) {
        Some(tally) => tally.left() == 1,
        None => false,
    };
    Ok((came, has_left, tallies.lacked_memory()))
}

/// Shows, for each allocation that fails, that the event is done at the next try or that the bridge's step reports it:
/// of a broadcast, and of a notice that is for no bridge.
#[test]
fn what_wants_memory_is_done_at_the_next_try(rt: HostRuntime) -> Result<(), Fail> {
    for frame in [BROADCAST, NOTICE] {
        let (came, has_left, is_short) = seen(rt.alloc(), frame)?;
        if came == Came::Memory {
            return Err(Fail::from(Memory));
        }
        assert!(rt; (came == Came::Done && has_left) || (came == Came::Idle && is_short));
    }
    Ok(())
}

/// Shows the same of a network that only counts its steps: the counts report what was dropped.
#[test]
fn what_wants_memory_is_counted(rt: HostRuntime) -> Result<(), Fail> {
    for frame in [BROADCAST, NOTICE] {
        let (came, has_left, is_short) = counted(rt.alloc(), frame)?;
        if came == Came::Memory {
            return Err(Fail::from(Memory));
        }
        assert!(rt; (came == Came::Done && has_left) || (came == Came::Idle && is_short));
    }
    Ok(())
}
