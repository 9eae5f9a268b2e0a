//! Drives a network into a failure.

ghost use Rattle.std.specs.Prelude.{◌≡◌, ◌++◌, ◌+◌, IfOk, OnOk};
ghost use Rattle.pb_lan.specs.Plans.{IsSound};
ghost use Rattle.pb_net.specs.Answers.{HaveRun};
ghost use Rattle.pb_cmd_survive.specs.Failures.{downs, downs_of, is_hit, set_down};
ghost use Rattle.pb_cmd_survive.specs.Impacts.{IsDriven, IsFailed, IsStanding};

use crate::failure::Failure;
use crate::standing::Standing;
use pb_converge::{Convergence, DriveFault, converge, copied, fault_in};
use pb_frame::Memory;
use pb_lan::{End, Event, LinkPlan, Plan};
use pb_net::{Net, NetFault};
use std::alloc::Global;

/// Checks whether a failure disables a link with this number, from 1: the link fails itself, or a bridge at one of its
/// ends does.
pub fn is_hit(failure: Failure, number: u8, link: &LinkPlan) -> bool
    ensures { result ≡ is_hit failure number link.now }
{
    match failure {
        Failure::Nothing => false,
        Failure::Link(failed) => number == failed,
        Failure::Pair(first, second) => number == first || number == second,
        Failure::Bridge(failed) => link.a.bridge == failed || link.b.bridge == failed,
    }
}

/// Returns the event that disables the port at an end of a link.
fn set_down(end: &End) -> Event
    ensures { result ≡ set_down end.now }
{
    Event::Admin {
        bridge: end.bridge,
        port: end.port,
        up: false,
    }
}

/// Appends the two events that disable both ends of a link, if the failure disables it.
fn put_downs(
    events: &mut Vec<Event>,
    failure: Failure,
    number: u8,
    link: &LinkPlan,
) -> Result<(), Memory>
    ensures { OnOk result (events.new.items ≡ events.old.items ++ downs_of failure number link.now) }
{
    if is_hit(failure, number, link) {
        events.push(set_down(&link.a))?;
        events.push(set_down(&link.b))?;
    }
    Ok(())
}

/// Returns the events that disable both ends of each link that fails, in the plan's order.
fn downs(alloc: Global, plan: &Plan, failure: Failure) -> Result<Vec<Event>, Memory>
    requires { IsSound plan.now }
    ensures { IfOk result (λ events. events.items ≡ downs plan.now failure) }
{
    let mut events = Vec::new(alloc);
    for (place, link) in plan.links.as_slice().iter().enumerate() {
        put_downs(&mut events, failure, place as u8 + 1, link)?;
    }
    Ok(events)
}

/// Disables both ends of each link that fails.
fn take_down(alloc: Global, net: &mut Net, plan: &Plan, failure: Failure) -> Result<(), DriveFault>
    requires sound { IsSound plan.now }
    requires plan { net.old.plan ≡ plan.now }
    ensures plan { OnOk result (net.new.plan ≡ plan.now) }
    ensures ok { OnOk result (HaveRun net.old (downs plan.now failure) net.new) }
{
    let events = downs(alloc, plan, failure)?;
    match net.run(events.as_slice()) {
        Ok(()) => Ok(()),
        Err((_, NetFault::Memory)) => Err(DriveFault::Memory),
        Err((_, NetFault::StepLimit)) => Err(fault_in(net, DriveFault::Steps)),
        Err((_, NetFault::NoSuch)) => unreachable!(),
    }
}

/// Lets a copy of a network that is up fail: disables the links that fail, and drives it to convergence again.
fn fail(
    alloc: Global,
    standing: &Standing<'_>,
    failure: Failure,
) -> Result<(Net, Convergence), DriveFault>
    requires { IsStanding standing.now }
    ensures plan { IfOk result (λ after. after.0.plan ≡ standing.now.plan.now) }
    ensures ok { IfOk result (λ after. IsFailed standing.now.plan.now standing.now.names.now standing.now.patience.ticks
        standing.now.patience.events failure after.1 after.0) }
{
    let (plan, patience) = (standing.plan, standing.patience);
    let mut net = copied(&standing.up)?;
    take_down(alloc, &mut net, plan, failure)?;
    let convergence = converge(alloc, &mut net, plan, patience.ticks, patience.events)?;
    Ok((net, convergence))
}

/// Drives a copy of a network that is up into a failure and to convergence again (IEEE 802.1D-2004 clause 17). Returns
/// the copy, and whether its bridges converged, with the ticks of each after the failure. With [`Failure::Nothing`] it
/// is the network as it was when its bridges had converged, with the ticks until then.
///
/// # Errors
///
/// `Memory` if an allocation failed. Else `Steps` if a place would take more steps than the plan allows, and `Events`
/// if more events are due than the network's patience allows.
pub fn drive_into(
    alloc: Global,
    standing: &Standing<'_>,
    failure: Failure,
) -> Result<(Net, Convergence), DriveFault>
    requires { IsStanding standing.now }
    ensures plan { IfOk result (λ after. after.0.plan ≡ standing.now.plan.now) }
    ensures ok { IfOk result (λ after. IsDriven standing.now.plan.now standing.now.names.now standing.now.patience.ticks
        standing.now.patience.events failure after.1 after.0) }
{
    match failure {
        Failure::Nothing => Ok((copied(&standing.calm)?, standing.convergence)),
        Failure::Link(_) | Failure::Pair(_, _) | Failure::Bridge(_) => {
            fail(alloc, standing, failure)
        }
    }
}
