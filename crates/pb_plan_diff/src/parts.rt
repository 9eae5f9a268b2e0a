//! All parts of a plan.

ghost use Rattle.std.specs.Prelude.{◌≡◌, ◌++◌, map, IfOk, OnOk};
ghost use Rattle.pb_lan.specs.Plans.{IsSound};
ghost use Rattle.std.specs.List.{filter};
ghost use Rattle.std.specs.Prelude.{◌==◌};
ghost use Rattle.pb_names.specs.Numbers.{service_named};
ghost use Rattle.pb_plan_diff.specs.Parts.{service_names, network_part, bridge_part, link_part, service_part};
ghost use Rattle.pb_plan_diff.specs.Parts.{port_part, parts_of};

use crate::fields::{bridge_fields, link_fields, network_fields, port_fields, service_fields};
use crate::part::{Part, named_part};
use pb_frame::{Memory, Seq, Text};
use pb_lan::{LinkPlan, Plan};
use pb_names::service_named;
use std::alloc::Global;

/// Appends the names of a plan's services.
fn put_names(names: &mut Vec<Text>, plan: &Plan) -> Result<(), Memory>
    ensures { OnOk result (names.new.items ≡ names.old.items ++ map (λ s. s.name) plan.now.services) }
{
    for service in plan.services.as_slice() {
        names.push(service.name.clone()?)?;
    }
    Ok(())
}

/// Appends the names of the services that only the second plan has.
fn put_new_names(names: &mut Vec<Text>, old: &Plan, new: &Plan) -> Result<(), Memory>
    requires { IsSound old.now }
    ensures { OnOk result (names.new.items ≡ names.old.items
        ++ filter (λ name. service_named old.now name == 0) (map (λ s. s.name) new.now.services)) }
{
    for service in new.services.as_slice() {
        if service_named(old, service.name.as_str()) == 0 {
            names.push(service.name.clone()?)?;
        }
    }
    Ok(())
}

/// Returns the names of the services of two plans, each once: those of the first, then those that only the second has.
///
/// # Errors
///
/// `Memory` if an allocation failed.
pub fn service_names(alloc: Global, old: &Plan, new: &Plan) -> Result<Vec<Text>, Memory>
    requires { IsSound old.now }
    ensures { IfOk result (λ names. names.items ≡ service_names old.now new.now) }
{
    let mut names = Vec::new(alloc);
    put_names(&mut names, old)?;
    put_new_names(&mut names, old, new)?;
    Ok(names)
}

/// Returns the part for the network itself.
fn network_part(alloc: Global, plan: &Plan) -> Result<Part, Memory>
    ensures { IfOk result (λ made. made ≡ network_part plan.now) }
{
    let fields = network_fields(alloc, plan)?;
    let title = String::from_str(alloc, "network")?;
    Ok(Part {
        title: Text::from_string(title),
        fields: Seq::from_vec(fields),
    })
}

/// Appends the parts for the bridges.
fn put_bridges(alloc: Global, parts: &mut Vec<Part>, plan: &Plan) -> Result<(), Memory>
    ensures { OnOk result (parts.new.items ≡ parts.old.items ++ map bridge_part plan.now.bridges) }
{
    for bridge in plan.bridges.as_slice() {
        let fields = bridge_fields(alloc, bridge)?;
        parts.push(named_part(alloc, "bridge", bridge.name.as_str(), fields)?)?;
    }
    Ok(())
}

/// Returns the part for a link.
fn link_part(alloc: Global, names: &[Text], plan: &Plan, link: &LinkPlan) -> Result<Part, Memory>
    requires { IsSound plan.now }
    ensures { IfOk result (λ made. made ≡ link_part names.now plan.now link.now) }
{
    let fields = link_fields(alloc, names, plan, link)?;
    Ok(named_part(alloc, "link", link.name.as_str(), fields)?)
}

/// Appends the parts for the links.
fn put_links(
    alloc: Global,
    parts: &mut Vec<Part>,
    names: &[Text],
    plan: &Plan,
) -> Result<(), Memory>
    requires { IsSound plan.now }
    ensures { OnOk result (parts.new.items ≡ parts.old.items ++ map (link_part names.now plan.now) plan.now.links) }
{
    for link in plan.links.as_slice() {
        parts.push(link_part(alloc, names, plan, link)?)?;
    }
    Ok(())
}

/// Appends the parts for the services.
fn put_services(alloc: Global, parts: &mut Vec<Part>, plan: &Plan) -> Result<(), Memory>
    ensures { OnOk result (parts.new.items ≡ parts.old.items ++ map service_part plan.now.services) }
{
    for service in plan.services.as_slice() {
        let fields = service_fields(alloc, service)?;
        parts.push(named_part(alloc, "service", service.name.as_str(), fields)?)?;
    }
    Ok(())
}

/// Appends the parts for the customer ports.
fn put_ports(alloc: Global, parts: &mut Vec<Part>, plan: &Plan) -> Result<(), Memory>
    ensures { OnOk result (parts.new.items ≡ parts.old.items ++ map (port_part plan.now) plan.now.customers) }
{
    for port in plan.customers.as_slice() {
        let fields = port_fields(alloc, plan, port)?;
        parts.push(named_part(alloc, "port", port.name.as_str(), fields)?)?;
    }
    Ok(())
}

/// Returns the parts of a plan with their fields. Services of ports are listed in the order of `names`, so that two
/// plans that number them differently have the same texts.
///
/// # Errors
///
/// `Memory` if an allocation failed.
pub fn parts_of(alloc: Global, names: &[Text], plan: &Plan) -> Result<Vec<Part>, Memory>
    requires { IsSound plan.now }
    ensures { IfOk result (λ parts. parts.items ≡ parts_of names.now plan.now) }
{
    let mut parts = Vec::new(alloc);
    parts.push(network_part(alloc, plan)?)?;
    put_bridges(alloc, &mut parts, plan)?;
    put_links(alloc, &mut parts, names, plan)?;
    put_services(alloc, &mut parts, plan)?;
    put_ports(alloc, &mut parts, plan)?;
    Ok(parts)
}
