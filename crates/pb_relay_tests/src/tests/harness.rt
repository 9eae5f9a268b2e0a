//! The harness that walks a bridge through a table.

use super::networks::Network;
use super::rows::{Fate, Piece, Row, full_octets};
use pb_frame::{Learnt, Memory};
use pb_lan::{Item, NoRoom, Outcome, Plan, PortState, Step, plan_is_sound};
use pb_relay::{Bridge, BridgeFault};
use std::alloc::Global;
use std::process::Abort;
use std::test::Fail;

/// Walks the bridge of this number in a network through the rows, once keeping its steps and once only counting them. A
/// failure names the row by its number from 0.
pub fn run(
    rt: &impl Abort,
    alloc: Global,
    network: Network,
    number: u8,
    rows: &[Row],
) -> Result<(), Fail> {
    let _steps = steps_after(rt, alloc, network, number, rows)?;
    let mut bridge = counting(rt, alloc, network, number)?;
    walk(rt, alloc, &mut bridge, rows)
}

/// Walks the rows as [`run`] does, and checks that the last step of the bridge reports that this item left a port.
pub fn run_to_departure(
    rt: &impl Abort,
    alloc: Global,
    network: Network,
    number: u8,
    rows: &[Row],
    port: u8,
    item: Piece,
) -> Result<(), Fail> {
    let steps = steps_after(rt, alloc, network, number, rows)?;
    let wanted = item.item(alloc)?;
    assert!(rt; is_departure(steps.last(), port, &wanted), "the last step");
    Ok(())
}

/// Walks a bridge that went through rows and a copy of it through the same rows after these, the copy first.
fn walk_copy(
    rt: &impl Abort,
    alloc: Global,
    mut bridge: Bridge,
    before: &[Row],
    after: &[Row],
) -> Result<(), Fail> {
    walk(rt, alloc, &mut bridge, before)?;
    let mut copy = bridge.clone()?;
    walk(rt, alloc, &mut copy, after)?;
    walk(rt, alloc, &mut bridge, after)
}

/// Walks the bridge of this number in a network through rows, then a copy of it through the rows after these, and then
/// the bridge. It keeps its steps, and then only counts them.
pub fn run_copy(
    rt: &impl Abort,
    alloc: Global,
    network: Network,
    number: u8,
    before: &[Row],
    after: &[Row],
) -> Result<(), Fail> {
    walk_copy(
        rt,
        alloc,
        started(rt, alloc, network, number)?,
        before,
        after,
    )?;
    walk_copy(
        rt,
        alloc,
        counting(rt, alloc, network, number)?,
        before,
        after,
    )
}

/// Returns the steps of a bridge after the rows.
fn steps_after(
    rt: &impl Abort,
    alloc: Global,
    network: Network,
    number: u8,
    rows: &[Row],
) -> Result<Vec<Step>, Fail> {
    let mut bridge = started(rt, alloc, network, number)?;
    let walked = walk(rt, alloc, &mut bridge, rows);
    let steps = bridge.into_steps().into_vec();
    walked?;
    Ok(steps)
}

/// Returns the bridge of this number at its start.
fn started(rt: &impl Abort, alloc: Global, network: Network, number: u8) -> Result<Bridge, Fail> {
    let plan = network.plan(alloc)?;
    Ok(planned(rt, alloc, &plan, number)?)
}

/// Returns the bridge of this number in a plan.
fn planned(rt: &impl Abort, alloc: Global, plan: &Plan, number: u8) -> Result<Bridge, Memory> {
    assert!(rt; plan_is_sound(plan));
    assert!(rt; 1 <= number && number as usize <= plan.bridges.len());
    Bridge::new(alloc, plan, number)
}

/// Returns the bridge of this number at its start, which only counts its steps.
fn counting(rt: &impl Abort, alloc: Global, network: Network, number: u8) -> Result<Bridge, Fail> {
    let plan = network.plan(alloc)?;
    assert!(rt; plan_is_sound(&plan));
    assert!(rt; 1 <= number && number as usize <= plan.bridges.len());
    Ok(Bridge::counting(alloc, &plan, number)?)
}

/// Walks a bridge through the rows.
fn walk(rt: &impl Abort, alloc: Global, bridge: &mut Bridge, rows: &[Row]) -> Result<(), Fail> {
    for place in 0..rows.len() {
        assert!(rt; holds(alloc, bridge, rows[place])?, "row {place}");
    }
    Ok(())
}

/// Performs a row, and returns whether it holds.
fn holds(alloc: Global, bridge: &mut Bridge, row: Row) -> Result<bool, Fail> {
    match row {
        Row::Receives { port, item, fate } => receives(alloc, bridge, port, item, fate),
        Row::ReceivesOctets { port, octets, fate } => {
            receives_octets(alloc, bridge, port, octets, fate)
        }
        Row::TakesIn { port, item } => takes_in(alloc, bridge, port, item),
        Row::HandsBack { port, item, fault } => hands_back(alloc, bridge, port, item, fault),
        Row::Learns(learnt) => Ok(tells_learnt(bridge, learnt)),
        Row::Waits { port, items } => Ok(waits(bridge, port, items)),
        Row::HasRoom {
            port,
            item,
            queue,
            has,
        } => Ok(has_room(bridge, port, &item.item(alloc)?, queue, has)),
        Row::Shows { port, item } => shows(alloc, bridge, port, item),
        Row::Sends { port, item } => sends(alloc, bridge, port, item),
        Row::Ticks { queued, dropped } => Ok(ticks(bridge, queued, dropped)),
        Row::Replaces { port, item } => Ok(replaces(bridge, port, &item.item(alloc)?)),
        Row::Passes(times) => Ok(passes(bridge, times)),
        Row::TickFails(fault) => Ok(bridge.tick() == Err(fault)),
        Row::ReserveFails(fault) => Ok(bridge.reserve_step() == Err(fault)),
        Row::Sets { port, up } => Ok(sets(bridge, port, up)),
        Row::States(states) => Ok(has_states(bridge, states)),
        Row::Uses { ports, links } => Ok(uses(bridge, ports, links)),
        Row::Steps(steps) => Ok(has_steps(bridge, steps)),
        Row::HasTree(has) => Ok(bridge.rstp().is_some() == has),
    }
}

/// Checks whether an item that is received at a port has this fate.
fn receives(
    alloc: Global,
    bridge: &mut Bridge,
    port: u8,
    item: Piece,
    fate: Fate,
) -> Result<bool, Fail> {
    let wanted = fate.outcome()?;
    Ok(answers(bridge, port, item.item(alloc)?, &wanted))
}

/// Checks whether a frame of this many octets that is received at a port has this fate.
fn receives_octets(
    alloc: Global,
    bridge: &mut Bridge,
    port: u8,
    octets: usize,
    fate: Fate,
) -> Result<bool, Fail> {
    let wanted = fate.outcome()?;
    Ok(answers(bridge, port, full_octets(alloc, octets)?, &wanted))
}

/// Checks whether an item that is received at a port has the expected outcome.
fn answers(bridge: &mut Bridge, port: u8, item: Item, wanted: &Outcome) -> bool {
    if !bridge.has_port(port) {
        return false;
    }
    let Ok(outcome) = bridge.receive(port, item) else {
        return false;
    };
    outcome == *wanted
}

/// Checks whether an item at a port is taken in.
fn takes_in(alloc: Global, bridge: &mut Bridge, port: u8, item: Piece) -> Result<bool, Fail> {
    let item = item.item(alloc)?;
    Ok(bridge.has_port(port) && bridge.take_in(port, item).is_ok())
}

/// Checks whether an item at a port is returned, by each of the calls that receive.
fn hands_back(
    alloc: Global,
    bridge: &mut Bridge,
    port: u8,
    item: Piece,
    fault: BridgeFault,
) -> Result<bool, Fail> {
    let wanted = item.item(alloc)?;
    let is_refused = receives_none(bridge, port, item.item(alloc)?, fault, &wanted);
    Ok(is_refused && takes_none_in(bridge, port, item.item(alloc)?, fault, &wanted))
}

/// Checks whether a received item is returned.
fn receives_none(
    bridge: &mut Bridge,
    port: u8,
    item: Item,
    fault: BridgeFault,
    wanted: &Item,
) -> bool {
    if !bridge.has_port(port) {
        return false;
    }
    match bridge.receive(port, item) {
        Ok(_) => false,
        Err((told, back)) => told == fault && back == *wanted,
    }
}

/// Checks whether an item is returned by the call that gives no outcome.
fn takes_none_in(
    bridge: &mut Bridge,
    port: u8,
    item: Item,
    fault: BridgeFault,
    wanted: &Item,
) -> bool {
    if !bridge.has_port(port) {
        return false;
    }
    match bridge.take_in(port, item) {
        Ok(()) => false,
        Err((told, back)) => told == fault && back == *wanted,
    }
}

/// Checks whether the newest step reports this of the source of an item.
fn tells_learnt(bridge: &Bridge, wanted: Option<Learnt>) -> bool {
    match bridge.steps().last() {
        Some(Step::Receive { learnt, .. }) => *learnt == wanted,
        Some(_) => false,
        None => bridge.step_count() != 0,
    }
}

/// Checks whether there are this many steps, and all of them are shown or none is.
fn has_steps(bridge: &Bridge, steps: usize) -> bool {
    let shown = bridge.steps().len();
    bridge.step_count() == steps as u64 && (shown == steps || shown == 0)
}

/// Checks whether this many items wait at a port.
fn waits(bridge: &Bridge, port: u8, items: u16) -> bool {
    bridge.has_port(port) && bridge.waiting(port) == items
}

/// Checks whether an item at a port has room, if so many items may wait at each port, or has none.
fn has_room(bridge: &Bridge, port: u8, item: &Item, queue: u16, has: bool) -> bool {
    bridge.has_port(port) && bridge.has_room_for(port, item, queue) == has
}

/// Checks whether this item is the next to leave a port.
fn shows(alloc: Global, bridge: &Bridge, port: u8, item: Piece) -> Result<bool, Fail> {
    let wanted = item.item(alloc)?;
    Ok(bridge.has_port(port) && bridge.peek_out(port) == Some(&wanted))
}

/// Checks whether this item leaves a port, and the newest step reports it.
fn sends(alloc: Global, bridge: &mut Bridge, port: u8, item: Piece) -> Result<bool, Fail> {
    let wanted = item.item(alloc)?;
    Ok(departs(bridge, port, &wanted) && tells_departure(bridge, port, &wanted))
}

/// Checks whether the item that leaves a port is the expected one.
fn departs(bridge: &mut Bridge, port: u8, wanted: &Item) -> bool {
    if bridge.reserve_step().is_err() || !bridge.has_port(port) {
        return false;
    }
    bridge.waiting(port) > 0 && bridge.pop_out(port) == *wanted
}

/// Checks whether the newest step reports that the item left the port, or steps are only counted.
fn tells_departure(bridge: &Bridge, port: u8, wanted: &Item) -> bool {
    match bridge.steps().last() {
        None => bridge.step_count() != 0,
        newest => is_departure(newest, port, wanted),
    }
}

/// Checks whether the step reports that the item left the port.
fn is_departure(step: Option<&Step>, port: u8, wanted: &Item) -> bool {
    match step {
        Some(Step::Transmit { port: left, item }) => *left == port && item == wanted,
        _ => false,
    }
}

/// Ticks the clock. Checks whether this many BPDUs are queued, and whether one is dropped at each of these ports.
fn ticks(bridge: &mut Bridge, queued: usize, dropped: &[(u8, NoRoom)]) -> bool {
    if bridge.tick().is_err() {
        return false;
    }
    match bridge.steps().last() {
        Some(Step::Tick { now: _, moved }) => {
            moved.queued.len() == queued
                && moved.replaced.len() == 0
                && moved.dropped.as_slice() == dropped
        }
        Some(_) => false,
        None => bridge.step_count() != 0,
    }
}

/// Ticks the clock. Checks whether one BPDU is queued at a port, and takes the place of this one.
fn replaces(bridge: &mut Bridge, port: u8, older: &Item) -> bool {
    if bridge.tick().is_err() {
        return false;
    }
    match bridge.steps().last() {
        Some(Step::Tick { now: _, moved }) => {
            is_one(moved.queued.as_slice(), port)
                && is_this(moved.replaced.as_slice(), port, older)
                && moved.dropped.len() == 0
        }
        Some(_) => false,
        None => bridge.step_count() != 0,
    }
}

/// Checks whether the list has one BPDU, at this port.
fn is_one(bpdus: &[(u8, Item)], port: u8) -> bool {
    bpdus.len() == 1 && bpdus[0].0 == port
}

/// Checks whether the list has this BPDU alone, at this port.
fn is_this(bpdus: &[(u8, Item)], port: u8, bpdu: &Item) -> bool {
    match bpdus.first() {
        Some(first) => bpdus.len() == 1 && first.0 == port && first.1 == *bpdu,
        None => false,
    }
}

/// Ticks the clock this many times. Checks whether no BPDU is queued or dropped.
fn passes(bridge: &mut Bridge, times: u8) -> bool {
    for _ in 0..times {
        if !ticks(bridge, 0, &[]) {
            return false;
        }
    }
    true
}

/// Enables or disables a port to another bridge. Returns whether that succeeded.
fn sets(bridge: &mut Bridge, port: u8, up: bool) -> bool {
    bridge.has_link(port) && bridge.admin(port, up).is_ok()
}

/// Checks whether the first local ports have these states, and all others are Discarding.
fn has_states(bridge: &Bridge, states: &[PortState]) -> bool {
    let shape = bridge.shape();
    let count = states.len();
    if count > shape.len() {
        return false;
    }
    &shape[..count] == states
        && shape[count..]
            .iter()
            .all(|state| *state == PortState::Discarding)
}

/// Checks whether the bridge uses exactly these ports, and whether exactly these of them go to other bridges.
fn uses(bridge: &Bridge, ports: &[u8], links: &[u8]) -> bool {
    for port in 0..32u8 {
        if bridge.has_port(port) != ports.contains(&port)
            || bridge.has_link(port) != links.contains(&port)
        {
            return false;
        }
    }
    true
}
