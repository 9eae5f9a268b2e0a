//! The spanning tree of a bridge at its start.

ghost use Rattle.std.specs.Prelude.{◌≡◌, ◌++◌, ◌∷◌, [], length, IfOk, OnOk};
ghost use Rattle.std.specs.declared.option.Option.{Option};
ghost use Rattle.pb_lan.specs.Plans.{IsNumber};
ghost use Rattle.pb_lan.specs.Ports.{port_at};
ghost use Rattle.pb_relay.specs.Machines.{machine_in, listed, priority_in};
ghost use Rattle.pb_rstp.specs.Profile.{address_in, rstp_port, rstp_ports, machine_at_start};

use crate::start::{customer_at, end_at};
use pb_frame::{Mac, Memory, Seq, index_of};
use pb_lan::{Plan, Spanning};
use pb_rstp::{Config, Rstp, RstpPort};
use std::alloc::Global;

/// Returns the address of the bridge.
pub fn address(plan: &Plan, number: u8) -> Mac
    requires { IsNumber number (length plan.now.bridges) }
    ensures { result.0 ≡ address_in plan.now number }
{
    plan.bridges.as_slice()[index_of(number)].address
}

/// Returns the priority of the bridge.
fn priority(plan: &Plan, number: u8) -> u16
    requires { IsNumber number (length plan.now.bridges) }
    ensures { result ≡ priority_in plan.now number }
{
    plan.bridges.as_slice()[index_of(number)].priority
}

/// Returns the local port as one of the spanning tree, or None if it does not go to another bridge.
fn rstp_port(plan: &Plan, number: u8, port: u8) -> Option<RstpPort>
    ensures { listed result ≡ rstp_port port (port_at plan.now number port) }
{
    if customer_at(plan.customers.as_slice(), number, port).is_some() {
        return None;
    }
    let end = end_at(plan.links.as_slice(), number, port)?;
    Some(RstpPort {
        port,
        cost: end.cost,
        priority: end.priority,
    })
}

/// Appends the port, if there is one.
fn add(ports: &mut Vec<RstpPort>, port: Option<RstpPort>) -> Result<(), Memory>
    ensures { OnOk result (ports.new.items ≡ ports.old.items ++ listed port) }
{
    if let Some(port) = port {
        ports.push(port)?;
    }
    Ok(())
}

/// Returns the local ports that go to other bridges.
fn rstp_ports(alloc: Global, plan: &Plan, number: u8) -> Result<Vec<RstpPort>, Memory>
    ensures { IfOk result (λ ports. ports.items ≡ rstp_ports plan.now number) }
{
    let mut ports = Vec::new(alloc);
    for r in 0..16u8 {
        add(&mut ports, rstp_port(plan, number, r + 1))?;
    }
    Ok(ports)
}

/// Returns the configuration of the bridge's spanning tree.
fn config(alloc: Global, plan: &Plan, number: u8) -> Result<Config, Memory>
    requires { IsNumber number (length plan.now.bridges) }
    ensures priority { IfOk result (λ config. config.priority ≡ priority_in plan.now number) }
    ensures address { IfOk result (λ config. config.address.0 ≡ address_in plan.now number) }
    ensures ports { IfOk result (λ config. config.ports ≡ rstp_ports plan.now number) }
{
    let ports = rstp_ports(alloc, plan, number)?;
    Ok(Config {
        address: address(plan, number),
        priority: priority(plan, number),
        ports: Seq::from_vec(ports),
    })
}

/// Returns the spanning tree at its start, prompt if the plan says so.
fn started(alloc: Global, plan: &Plan, number: u8) -> Result<Rstp, Memory>
    requires { IsNumber number (length plan.now.bridges) }
    ensures { IfOk result (λ rstp. rstp ≡ machine_at_start plan.now number) }
{
    let config = config(alloc, plan, number)?;
    if plan.prompt {
        Rstp::prompt(alloc, config)
    } else {
        Rstp::new(alloc, config)
    }
}

/// Returns the spanning tree at its start if the protocol decides the states, and None if the plan does.
///
/// # Errors
///
/// `Memory` if an allocation failed.
pub fn machine(alloc: Global, plan: &Plan, number: u8) -> Result<Option<Rstp>, Memory>
    requires { IsNumber number (length plan.now.bridges) }
    ensures { IfOk result (λ rstp. rstp ≡ machine_in plan.now number []) }
{
    match plan.spanning {
        Spanning::Fixed => Ok(None),
        Spanning::Rstp => Ok(Some(started(alloc, plan, number)?)),
    }
}
