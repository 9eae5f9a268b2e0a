//! The harness that walks a network through a table.

ghost use Rattle.pb_lan.specs.Plans.{IsSound};

use super::asked::{crosses, empties, enters, leaves, rounds};
use super::draft::Draft;
use super::drawn::stand_as;
use super::expected::are_deeds;
use super::made::{acts, answers, enters_long, runs};
use super::plans::plan_of;
use super::rows::{Deed, Row};
use super::seen::{
    has_learnt, has_moved, has_moved_hops, has_moved_octets, has_roles, has_ruled, has_taken, left,
    taken_at, took,
};
use bytes::Bytes;
use pb_forest::{forest, is_drained};
use pb_frame::Memory;
use pb_history::{Tallies, last_shape};
use pb_lan::{Plan, PortState, Record, Shape, plan_is_sound};
use pb_net::{Did, Net};
use std::alloc::Global;
use std::process::Abort;
use std::test::Fail;

/// Checks whether a row holds. The functions of `made` make what a row owns.
fn holds(alloc: Global, net: &mut Net, draft: &Draft, row: Row) -> Result<bool, Fail> {
    match row {
        Row::Runs(acts) => runs(alloc, net, acts, Ok(())),
        Row::Stops { acts, done, fault } => runs(alloc, net, acts, Err((done, fault))),
        Row::EntersLong {
            customer,
            head,
            octets,
        } => enters_long(alloc, net, draft, customer, (head, octets)),
        Row::Settled(wanted) => Ok(net.settled(alloc)? == wanted),
        Row::Converged(wanted) => Ok(net.converged(alloc)? == wanted),
        _ => Ok(is_done(net, draft, row)),
    }
}

/// Checks whether a row that allocates nothing holds.
fn is_done(net: &mut Net, draft: &Draft, row: Row) -> bool {
    match row {
        Row::Does(act) => acts(net, act),
        Row::Idle(act) => answers(net, act, Ok(Did::Idle)),
        Row::Refused(act, fault) => answers(net, act, Err(fault)),
        Row::Enters(customer, octets) => enters(net, draft, customer, Bytes::from_static(octets)),
        Row::Crosses(lane) => crosses(net, draft, lane),
        Row::Leaves(customer) => leaves(net, draft, customer),
        Row::Rounds(count) => rounds(net, draft, count),
        Row::Empties => empties(net, draft),
        _ => is_seen(net, draft, row),
    }
}

/// Checks whether a row that changes nothing holds.
fn is_seen(net: &Net, draft: &Draft, row: Row) -> bool {
    match row {
        Row::Knows(place, known) => net.has_place(place) == known,
        Row::Steps { place, count } => taken_at(net, place) == Some(count),
        Row::Took(place, number, deed) => took(net, place, number, deed),
        Row::Taken { lane, number, lost } => has_taken(net, lane, number, lost),
        Row::Moved(place, octets) => has_moved(net, place, octets),
        Row::Octets(place, wanted) => has_moved_octets(net, place, wanted),
        Row::Hops(place, wanted) => has_moved_hops(net, place, wanted),
        Row::Ruled { bridge, fate } => has_ruled(net, bridge, fate),
        Row::Learnt(bridge, learnt) => has_learnt(net, bridge, learnt),
        Row::Left(counts) => left(net, draft, counts),
        Row::Roles(bridge, roles) => has_roles(net, bridge, roles),
        Row::Trees(ports) => stand_as(net, draft, ports),
        _ => false,
    }
}

/// Checks that the rows hold one after the other.
fn all_hold(
    rt: &impl Abort,
    alloc: Global,
    net: &mut Net,
    draft: &Draft,
    rows: &[Row],
) -> Result<(), Fail> {
    for (number, row) in rows.iter().enumerate() {
        assert!(rt;
            holds(alloc, net, draft, *row)?,
            "row {number}, the first being 0"
        );
    }
    Ok(())
}

/// Returns the record of a network of the draft that was walked through the rows.
fn record_of(rt: &impl Abort, alloc: Global, draft: &Draft, rows: &[Row]) -> Result<Record, Fail> {
    let plan = plan_of(alloc, draft)?;
    assert!(rt; plan_is_sound(&plan));
    let mut net = Net::new(alloc, plan)?;
    let outcome = all_hold(rt, alloc, &mut net, draft, rows);
    outcome?;
    assert!(rt; net.keeps_steps());
    let record = net.finish();
    Ok(record)
}

/// Walks a network of the draft through the rows.
pub(super) fn walks(
    rt: &impl Abort,
    alloc: Global,
    draft: &Draft,
    rows: &[Row],
) -> Result<(), Fail> {
    let _record = record_of(rt, alloc, draft, rows)?;
    Ok(())
}

/// Walks a network of the draft through rows, then a copy of it through the rows after these, and then the network.
pub(super) fn walks_copy(
    rt: &impl Abort,
    alloc: Global,
    draft: &Draft,
    before: &[Row],
    after: &[Row],
) -> Result<(), Fail> {
    let plan = plan_of(alloc, draft)?;
    assert!(rt; plan_is_sound(&plan));
    let mut net = Net::new(alloc, plan)?;
    all_hold(rt, alloc, &mut net, draft, before)?;
    let mut copy = net.clone()?;
    all_hold(rt, alloc, &mut copy, draft, after)?;
    all_hold(rt, alloc, &mut net, draft, after)
}

/// The record of a network that went through rows.
pub(super) struct Recorded {
    /// The numbers of bridges and lanes in it.
    pub(super) bridges: usize,
    pub(super) lanes: usize,
    /// The steps of each customer port, or None if they are not checked.
    pub(super) customers: &'static [Option<&'static [Deed]>],
}

/// Checks whether the record has this many places.
fn has_places(record: &Record, wanted: &Recorded) -> bool {
    record.bridges.len() == wanted.bridges
        && record.lanes.len() == wanted.lanes
        && record.customers.len() == wanted.customers.len()
}

/// Checks whether the steps of a customer port are those of the deeds.
fn has_taken_all(record: &Record, place: usize, deeds: &[Deed]) -> bool {
    match record.customers.as_slice().get(place) {
        Some(steps) => are_deeds(steps.as_slice(), deeds),
        None => false,
    }
}

/// Checks whether the steps of customer ports are the expected ones.
fn has_steps(record: &Record, customers: &[Option<&[Deed]>]) -> bool {
    for (place, deeds) in customers.iter().enumerate() {
        if let Some(deeds) = deeds {
            if !has_taken_all(record, place, deeds) {
                return false;
            }
        }
    }
    true
}

/// Walks a network of the draft through the rows, and checks its record.
pub(super) fn records(
    rt: &impl Abort,
    alloc: Global,
    draft: &Draft,
    rows: &[Row],
    wanted: &Recorded,
) -> Result<(), Fail> {
    let record = record_of(rt, alloc, draft, rows)?;
    assert!(rt; has_places(&record, wanted), "the numbers of places");
    assert!(rt;
        has_steps(&record, wanted.customers),
        "the steps of customer ports"
    );
    Ok(())
}

/// Walks a network of the draft through the rows. Checks whether no frame is on its way at the end, by its record.
pub(super) fn ends_drained(
    rt: &impl Abort,
    alloc: Global,
    draft: &Draft,
    rows: &[Row],
    wanted: bool,
) -> Result<(), Fail> {
    let record = record_of(rt, alloc, draft, rows)?;
    let counts = Tallies::of(alloc, &record)?;
    assert_eq!(rt; is_drained(&counts), wanted);
    Ok(())
}

/// Returns the state of a bridge's port in a shape.
fn state_in(shape: &Shape, bridge: u8, port: u8) -> Option<PortState> {
    let place = usize::from(bridge).checked_sub(1)?;
    let slot = usize::from(port).checked_sub(1)?;
    let states = shape.states.as_slice().get(place)?;
    states.as_slice().get(slot).copied()
}

/// Walks a network of the draft through the rows. Checks that its active links are a forest for each service at the
/// end, and that the ports of bridges have these states.
pub(super) fn ends_as_forest(
    rt: &impl Abort,
    alloc: Global,
    draft: &Draft,
    rows: &[Row],
    states: &[(u8, u8, PortState)],
) -> Result<(), Fail> {
    let shape = shape_after(rt, alloc, draft, rows)?;
    are_forests(rt, alloc, draft, &shape)?;
    have_states(rt, &shape, states);
    Ok(())
}

/// Returns the states of all ports of a network of the draft that went through the rows.
fn shape_after(rt: &impl Abort, alloc: Global, draft: &Draft, rows: &[Row]) -> Result<Shape, Fail> {
    let record = record_of(rt, alloc, draft, rows)?;
    shape_of(rt, alloc, draft, &record)
}

/// Returns the states of all ports of a plan after a record.
fn shape_in(alloc: Global, plan: &Plan, record: &Record) -> Result<Shape, Memory>
    requires { IsSound plan.now }
{
    let counts = Tallies::of(alloc, record)?;
    last_shape(alloc, plan, &counts)
}

/// Returns the states of all ports of a draft after a record.
fn shape_of(rt: &impl Abort, alloc: Global, draft: &Draft, record: &Record) -> Result<Shape, Fail> {
    let plan = plan_of(alloc, draft)?;
    assert!(rt; plan_is_sound(&plan));
    Ok(shape_in(alloc, &plan, record)?)
}

/// Checks whether the active links of a service are a forest.
fn is_forest(alloc: Global, plan: &Plan, shape: &Shape, service: u8) -> Result<bool, Memory>
    requires { IsSound plan.now }
{
    Ok(forest(alloc, shape, plan, service)?.is_some())
}

/// Checks that the active links of each service are a forest.
fn are_forests(rt: &impl Abort, alloc: Global, draft: &Draft, shape: &Shape) -> Result<(), Fail> {
    let plan = plan_of(alloc, draft)?;
    assert!(rt; plan_is_sound(&plan));
    for service in 1..=2u8 {
        assert!(rt;
            is_forest(alloc, &plan, shape, service)?,
            "service {service}"
        );
    }
    Ok(())
}

/// Checks that the ports of bridges have these states.
fn have_states(rt: &impl Abort, shape: &Shape, states: &[(u8, u8, PortState)]) {
    for (bridge, port, state) in states {
        let told = state_in(shape, *bridge, *port);
        assert!(rt; told == Some(*state), "B{bridge} port {port}");
    }
}
