//! Performs what is due, until nothing is.

ghost use Rattle.std.specs.Prelude.{◌≡◌, ◌≤◌, true, IfOk, IfErr};
ghost use Rattle.pb_lan.specs.Plans.{IsSound};
ghost use Rattle.pb_converge.specs.Drives.{is_onward, HasDrained, HasStopped};
ghost use Rattle.pb_converge.specs.Sweeps.{HaveTried, IsThis, IsAtCustomer, IsAtCustomers, IsAtPort, IsAtPorts};
ghost use Rattle.pb_converge.specs.Sweeps.{IsAtBridges, IsAtLane, IsAtLanes, IsAnywhere};

use crate::fault::DriveFault;
use pb_lan::{Event, Plan};
use pb_net::{Did, Net, NetFault};

/// Performs an event if it is due. Returns how many were performed, 0 or 1.
///
/// # Errors
///
/// `Events` if the event was performed and `left` is 0. `Steps` if the place has taken the plan's number of steps,
/// `Memory` if an allocation failed: the event was not performed then.
fn attempt(net: &mut Net, event: Event, left: u64) -> Result<u64, DriveFault>
    requires { is_onward event ≡ true }
    ensures plan { net.new.plan ≡ net.old.plan }
    ensures within { IfOk result (λ done. done ≤ left) }
    ensures ok { IfOk result (λ done. HaveTried (IsThis event) done net.old net.new) }
    ensures err { IfErr result (λ fault. HasStopped left fault net.old net.new) }
{
    match net.step(event) {
        Ok(Did::Idle) | Err(NetFault::NoSuch) => Ok(0),
        Ok(Did::Done(_)) if left == 0 => Err(DriveFault::Events),
        Ok(Did::Done(_)) => Ok(1),
        Err(NetFault::StepLimit) => Err(DriveFault::Steps),
        Err(NetFault::Memory) => Err(DriveFault::Memory),
    }
}

/// Delivers at a customer port, and feeds its bridge, as far as these are due. Returns how many events were performed.
/// Fails as [`attempt`] does.
fn at_customer(net: &mut Net, port: u8, left: u64) -> Result<u64, DriveFault>
    ensures plan { net.new.plan ≡ net.old.plan }
    ensures within { IfOk result (λ done. done ≤ left) }
    ensures ok { IfOk result (λ done. HaveTried (IsAtCustomer port) done net.old net.new) }
    ensures err { IfErr result (λ fault. HasStopped left fault net.old net.new) }
{
    let done = attempt(net, Event::Deliver { port }, left)?;
    let more = attempt(net, Event::Feed { port }, left - done)?;
    Ok(done + more)
}

/// Receives at a bridge's port, and transmits there, as far as these are due. Returns how many events were performed.
/// Fails as [`attempt`] does.
fn at_port(net: &mut Net, bridge: u8, port: u8, left: u64) -> Result<u64, DriveFault>
    ensures plan { net.new.plan ≡ net.old.plan }
    ensures within { IfOk result (λ done. done ≤ left) }
    ensures ok { IfOk result (λ done. HaveTried (IsAtPort bridge port) done net.old net.new) }
    ensures err { IfErr result (λ fault. HasStopped left fault net.old net.new) }
{
    let done = attempt(net, Event::Receive { bridge, port }, left)?;
    let more = attempt(net, Event::Transmit { bridge, port }, left - done)?;
    Ok(done + more)
}

/// Takes an item at a lane, and puts the one in its hand, as far as these are due. Returns how many events were
/// performed. Fails as [`attempt`] does.
fn at_lane(net: &mut Net, lane: u8, left: u64) -> Result<u64, DriveFault>
    ensures plan { net.new.plan ≡ net.old.plan }
    ensures within { IfOk result (λ done. done ≤ left) }
    ensures ok { IfOk result (λ done. HaveTried (IsAtLane lane) done net.old net.new) }
    ensures err { IfErr result (λ fault. HasStopped left fault net.old net.new) }
{
    if net.is_lane_quiet(lane) {
        return Ok(0);
    }
    let done = attempt(net, Event::Take { lane }, left)?;
    let more = attempt(net, Event::Put { lane }, left - done)?;
    Ok(done + more)
}

/// Visits each customer port, in order. Returns how many events were performed. Fails as [`attempt`] does.
fn sweep_customers(net: &mut Net, plan: &Plan, left: u64) -> Result<u64, DriveFault>
    requires { IsSound plan.now }
    ensures plan { net.new.plan ≡ net.old.plan }
    ensures within { IfOk result (λ done. done ≤ left) }
    ensures ok { IfOk result (λ done. HaveTried (IsAtCustomers plan.now) done net.old net.new) }
    ensures err { IfErr result (λ fault. HasStopped left fault net.old net.new) }
{
    let mut done = 0;
    for place in 0..plan.customers.len() {
        done += at_customer(net, place as u8 + 1, left - done)?;
    }
    Ok(done)
}

/// Visits each port of a bridge, in order. Returns how many events were performed. Fails as [`attempt`] does.
fn sweep_ports(net: &mut Net, bridge: u8, left: u64) -> Result<u64, DriveFault>
    ensures plan { net.new.plan ≡ net.old.plan }
    ensures within { IfOk result (λ done. done ≤ left) }
    ensures ok { IfOk result (λ done. HaveTried (IsAtPorts bridge) done net.old net.new) }
    ensures err { IfErr result (λ fault. HasStopped left fault net.old net.new) }
{
    if net.is_bridge_quiet(bridge) {
        return Ok(0);
    }
    let mut done = 0;
    for place in 0..16u8 {
        done += at_port(net, bridge, place + 1, left - done)?;
    }
    Ok(done)
}

/// Visits each bridge, in order. Returns how many events were performed. Fails as [`attempt`] does.
fn sweep_bridges(net: &mut Net, plan: &Plan, left: u64) -> Result<u64, DriveFault>
    requires { IsSound plan.now }
    ensures plan { net.new.plan ≡ net.old.plan }
    ensures within { IfOk result (λ done. done ≤ left) }
    ensures ok { IfOk result (λ done. HaveTried (IsAtBridges plan.now) done net.old net.new) }
    ensures err { IfErr result (λ fault. HasStopped left fault net.old net.new) }
{
    let mut done = 0;
    for place in 0..plan.bridges.len() {
        done += sweep_ports(net, place as u8 + 1, left - done)?;
    }
    Ok(done)
}

/// Visits each lane, in order. Returns how many events were performed. Fails as [`attempt`] does.
fn sweep_lanes(net: &mut Net, plan: &Plan, left: u64) -> Result<u64, DriveFault>
    requires { IsSound plan.now }
    ensures plan { net.new.plan ≡ net.old.plan }
    ensures within { IfOk result (λ done. done ≤ left) }
    ensures ok { IfOk result (λ done. HaveTried (IsAtLanes plan.now) done net.old net.new) }
    ensures err { IfErr result (λ fault. HasStopped left fault net.old net.new) }
{
    let mut done = 0;
    for place in 0..2 * plan.links.len() {
        done += at_lane(net, place as u8 + 1, left - done)?;
    }
    Ok(done)
}

/// Visits each place once, in order: customer ports, bridges with their ports, lanes. Returns how many events were
/// performed. Fails as [`attempt`] does.
fn sweep(net: &mut Net, plan: &Plan, left: u64) -> Result<u64, DriveFault>
    requires { IsSound plan.now }
    ensures plan { net.new.plan ≡ net.old.plan }
    ensures within { IfOk result (λ done. done ≤ left) }
    ensures ok { IfOk result (λ done. HaveTried (IsAnywhere plan.now) done net.old net.new) }
    ensures err { IfErr result (λ fault. HasStopped left fault net.old net.new) }
{
    let ports = sweep_customers(net, plan, left)?;
    let bridges = sweep_bridges(net, plan, left - ports)?;
    let lanes = sweep_lanes(net, plan, left - ports - bridges)?;
    Ok(ports + bridges + lanes)
}

/// Performs what is due until nothing is, and returns how many events were performed.
///
/// The events are Deliver, Feed, Receive, Transmit, Take and Put: they carry on what is on its way. No frame is polled,
/// no clock ticks, no port is enabled or disabled. Each sweep visits every place once, in a fixed order: the customer
/// ports, the ports of each bridge, the lanes, each in the plan's order. The sweep that finds nothing due is the last.
/// The result and the record are therefore the same each time.
///
/// # Errors
///
/// `Events` if more than `most` events were due, one after the other: the one that was too many was performed. `Steps`
/// if a place had to take more steps than the plan allows. `Memory` if an allocation failed. The events performed
/// before keep their effect.
pub fn drain(net: &mut Net, plan: &Plan, most: u64) -> Result<u64, DriveFault>
    requires sound { IsSound plan.now }
    requires plan { net.old.plan ≡ plan.now }
    ensures plan { net.new.plan ≡ plan.now }
    ensures within { IfOk result (λ done. done ≤ most) }
    ensures ok { IfOk result (λ done. HasDrained done net.old net.new) }
    ensures err { IfErr result (λ fault. HasStopped most fault net.old net.new) }
{
    let mut done = 0;
    'sweeps: loop {
        let more = sweep(net, plan, most - done)?;
        if more == 0 {
            return Ok(done);
        }
        done += more;
    }
}
