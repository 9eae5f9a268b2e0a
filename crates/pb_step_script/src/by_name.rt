//! The names of a plan's parts, sorted by their octets.

ghost use Rattle.std.specs.Prelude.{◌≡◌, ◌≤◌, List, ℕ, length, map, IfOk};
ghost use Rattle.pb_step_script.specs.Counts.{with_numbers, AreByName};

use pb_frame::Memory;
use pb_lan::Plan;
use std::alloc::Global;

/// Returns the names of the customer ports with their numbers, in the order of the plan.
fn numbered_ports<'a>(alloc: Global, plan: &'a Plan) -> Result<Vec<(&'a str, u8)>, Memory>
    requires { length plan.now.customers ≤ 128 }
    ensures { IfOk result (λ ports. map (λ n. (n.0.now, n.1)) ports.items
        ≡ with_numbers 1 (map (λ c. c.name) plan.now.customers)) }
{
    let mut ports = Vec::new(alloc);
    for (place, customer) in plan.customers.as_slice().iter().enumerate() {
        ports.push((customer.name.as_str(), place as u8 + 1))?;
    }
    Ok(ports)
}

/// Returns the names of the links with their numbers, in the order of the plan.
fn numbered_links<'a>(alloc: Global, plan: &'a Plan) -> Result<Vec<(&'a str, u8)>, Memory>
    requires { length plan.now.links ≤ 64 }
    ensures { IfOk result (λ links. map (λ n. (n.0.now, n.1)) links.items
        ≡ with_numbers 1 (map (λ l. l.name) plan.now.links)) }
{
    let mut links = Vec::new(alloc);
    for (place, link) in plan.links.as_slice().iter().enumerate() {
        links.push((link.name.as_str(), place as u8 + 1))?;
    }
    Ok(links)
}

/// Returns the names of the bridges with their numbers, in the order of the plan.
fn numbered_bridges<'a>(alloc: Global, plan: &'a Plan) -> Result<Vec<(&'a str, u8)>, Memory>
    requires { length plan.now.bridges ≤ 32 }
    ensures { IfOk result (λ bridges. map (λ n. (n.0.now, n.1)) bridges.items
        ≡ with_numbers 1 (map (λ b. b.name) plan.now.bridges)) }
{
    let mut bridges = Vec::new(alloc);
    for (place, bridge) in plan.bridges.as_slice().iter().enumerate() {
        bridges.push((bridge.name.as_str(), place as u8 + 1))?;
    }
    Ok(bridges)
}

/// Sorts names by their octets, and equal names by their numbers.
fn sort(things: &mut Vec<(&str, u8)>)
    ensures { (names : List (List ℕ)) → map (λ n. (n.0.now, n.1)) things.old.items ≡ with_numbers 1 names
        → AreByName names (map (λ n. (n.0.now, n.1)) things.new.items) }
{
    things.sort_unstable();
}

/// Returns the names of a plan's customer ports, sorted by their octets, each with its number from 1.
///
/// The plan has at most 128 customer ports.
///
/// # Errors
///
/// `Memory` if an allocation failed.
pub fn ports_by_name<'a>(alloc: Global, plan: &'a Plan) -> Result<Vec<(&'a str, u8)>, Memory>
    requires { length plan.now.customers ≤ 128 }
    ensures { IfOk result (λ ports. AreByName (map (λ c. c.name) plan.now.customers)
        (map (λ n. (n.0.now, n.1)) ports.items)) }
{
    let mut ports = numbered_ports(alloc, plan)?;
    sort(&mut ports);
    Ok(ports)
}

/// Returns the names of a plan's links, sorted by their octets, each with its number from 1.
///
/// The plan has at most 64 links.
///
/// # Errors
///
/// `Memory` if an allocation failed.
pub fn links_by_name<'a>(alloc: Global, plan: &'a Plan) -> Result<Vec<(&'a str, u8)>, Memory>
    requires { length plan.now.links ≤ 64 }
    ensures { IfOk result (λ links. AreByName (map (λ l. l.name) plan.now.links)
        (map (λ n. (n.0.now, n.1)) links.items)) }
{
    let mut links = numbered_links(alloc, plan)?;
    sort(&mut links);
    Ok(links)
}

/// Returns the names of a plan's bridges, sorted by their octets, each with its number from 1.
///
/// The plan has at most 32 bridges.
///
/// # Errors
///
/// `Memory` if an allocation failed.
pub fn bridges_by_name<'a>(alloc: Global, plan: &'a Plan) -> Result<Vec<(&'a str, u8)>, Memory>
    requires { length plan.now.bridges ≤ 32 }
    ensures { IfOk result (λ bridges. AreByName (map (λ b. b.name) plan.now.bridges)
        (map (λ n. (n.0.now, n.1)) bridges.items)) }
{
    let mut bridges = numbered_bridges(alloc, plan)?;
    sort(&mut bridges);
    Ok(bridges)
}
