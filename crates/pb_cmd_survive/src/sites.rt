//! The customer ports of a service, in groups that reach each other.

ghost use Rattle.std.specs.List.{list_any};
ghost use Rattle.std.specs.Prelude.{◌≡◌, ◌<◌, ◌||◌, ℕ, map, length, string_bytes, IfOk};
ghost use Rattle.pb_frame.specs.Admission.{same};
ghost use Rattle.pb_forest.specs.ServiceVids.{vid_numbered};
ghost use Rattle.pb_lan.specs.Plans.{IsSound};
ghost use Rattle.pb_cmd_survive.specs.Failures.{has_name, is_failed, is_out};
ghost use Rattle.pb_cmd_survive.specs.Groups.{ports_of, is_port_out, color_of, lead_of, site_of, AreGroups};
ghost use Rattle.pb_cmd_survive.specs.Reach.{TellsJoined};
ghost use Rattle.pb_joins.specs.Joins.{mark_at};

use crate::failure::Failure;
use pb_forest::{is_active, numbered, vid_numbered};
use pb_frame::{Memory, index_of};
use pb_joins::marks;
use pb_lan::{LinkPlan, Plan, Shape};
use pb_names::bridge_name;
use std::alloc::Global;

/// A customer port and its group.
#[derive(Clone, Copy, PartialEq, Eq, Debug)]
pub struct Site {
    /// Its number in the plan.
    pub port: u8,
    /// The number of the first port in its group.
    pub group: u8,
    /// Whether its bridge is out: it fails, or was down before anything failed.
    pub is_out: bool,
}

/// Checks whether the failure is that of the bridge.
fn is_failed(failure: Failure, bridge: u8) -> bool
    ensures { result ≡ is_failed failure bridge }
{
    match failure {
        Failure::Bridge(failed) => bridge == failed,
        Failure::Nothing | Failure::Link(_) | Failure::Pair(_, _) => false,
    }
}

/// Checks whether a text is the name of the bridge.
fn has_name(plan: &Plan, bridge: u8, name: &String) -> bool
    ensures { result ≡ has_name plan.now bridge name.now }
{
    name.as_str() == bridge_name(plan, bridge)
}

/// Checks whether one of the names is that of the bridge.
fn is_named(plan: &Plan, names: &[String], bridge: u8) -> bool
    ensures { result ≡ list_any (has_name plan.now bridge) names.now }
{
    names.iter().any(|name| has_name(plan, bridge, name))
}

/// Checks whether the bridge is out: it fails, or one of the names of what is down is its name.
fn is_out(plan: &Plan, names: &[String], failure: Failure, bridge: u8) -> bool
    ensures { result ≡ is_out plan.now names.now failure bridge }
{
    is_failed(failure, bridge) || is_named(plan, names, bridge)
}

/// Returns the numbers of the customer ports of a service, in the plan's order.
fn ports_of(alloc: Global, plan: &Plan, service: u8) -> Result<Vec<u8>, Memory>
    requires { IsSound plan.now }
    ensures { IfOk result (λ ports. ports.items ≡ ports_of plan.now service) }
{
    let mut ports = Vec::new(alloc);
    for (place, customer) in plan.customers.as_slice().iter().enumerate() {
        if customer.service == service {
            ports.push(place as u8 + 1)?;
        }
    }
    Ok(ports)
}

/// Returns a mark for each bridge. Two bridges have the same mark if and only if active links of the service join them.
fn marks_by(plan: &Plan, shape: &Shape, vid: u16) -> [u8; 32]
    requires { IsSound plan.now }
    ensures joined { TellsJoined plan.now shape.now vid result }
    ensures below { (bridge : ℕ) → mark_at result bridge < 32 }
{
    marks(plan, &|link: &LinkPlan| is_active(plan, shape, vid, link))
}

/// Returns a number that two customer ports share if and only if they reach each other: the mark of the bridge, or one
/// of the port's own if the bridge is out.
fn color_of(plan: &Plan, marks: &[u8; 32], names: &[String], failure: Failure, port: u8) -> u8
    requires { IsSound plan.now }
    ensures { result ≡ color_of plan.now marks.now (is_out plan.now names.now failure) port }
{
    match numbered(plan.customers.as_slice(), port as usize) {
        None => 0,
        Some(customer) if is_out(plan, names, failure, customer.bridge) => port + 32,
        Some(customer) => marks[index_of(customer.bridge)],
    }
}

/// Checks whether the bridge of a customer port is out.
fn is_port_out(plan: &Plan, names: &[String], failure: Failure, port: u8) -> bool
    ensures { result ≡ is_port_out plan.now (is_out plan.now names.now failure) port }
{
    match numbered(plan.customers.as_slice(), port as usize) {
        None => false,
        Some(customer) => is_out(plan, names, failure, customer.bridge),
    }
}

/// Returns the first of the ports that reaches this one.
fn lead_of(
    plan: &Plan,
    marks: &[u8; 32],
    names: &[String],
    failure: Failure,
    ports: &[u8],
    port: u8,
) -> u8
    requires { IsSound plan.now }
    ensures { result ≡ lead_of (color_of plan.now marks.now (is_out plan.now names.now failure)) ports.now port }
{
    let color = color_of(plan, marks, names, failure, port);
    for other in ports {
        if color_of(plan, marks, names, failure, *other) == color {
            return *other;
        }
    }
    0
}

/// Returns the ports with their groups.
fn sites_of(
    alloc: Global,
    plan: &Plan,
    marks: &[u8; 32],
    names: &[String],
    failure: Failure,
    ports: &[u8],
) -> Result<Vec<Site>, Memory>
    requires { IsSound plan.now }
    ensures { IfOk result (λ sites.
        sites.items ≡ map (site_of (color_of plan.now marks.now (is_out plan.now names.now failure))
        (is_port_out plan.now (is_out plan.now names.now failure)) ports.now) ports.now) }
{
    let mut sites = Vec::with_capacity(alloc, ports.len())?;
    for port in ports {
        sites.push(Site {
            port: *port,
            group: lead_of(plan, marks, names, failure, ports, *port),
            is_out: is_port_out(plan, names, failure, *port),
        })?;
    }
    Ok(sites)
}

/// Returns the customer ports of a service in a shape, in groups that reach each other. They are in the plan's order.
///
/// Two ports have one group if and only if links that are active for the service join their bridges. A link is active
/// if both its ends are Forwarding and members of the service (IEEE 802.1Q clause 8.8). Each customer port of a bridge
/// that fails, or whose name is one of `names`, is alone, reaches only itself, and is marked (`is_out`). `names` are
/// those of what is down before anything fails. `service` is a service's number, from 1.
///
/// # Errors
///
/// `Memory` if an allocation failed.
pub fn groups(
    alloc: Global,
    plan: &Plan,
    shape: &Shape,
    names: &[String],
    failure: Failure,
    service: u8,
) -> Result<Vec<Site>, Memory>
    requires { IsSound plan.now }
    ensures { IfOk result (λ sites.
        AreGroups plan.now shape.now (is_out plan.now names.now failure) service
        (vid_numbered plan.now service) sites.items) }
{
    let marks = marks_by(plan, shape, vid_numbered(plan, service));
    let ports = ports_of(alloc, plan, service)?;
    sites_of(alloc, plan, &marks, names, failure, ports.as_slice())
}
