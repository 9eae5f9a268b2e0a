//! The printed counts of a record.

ghost use Rattle.std.specs.Prelude.{◌≡◌, ◌++◌, List, ℕ, map, flat_map, string_bytes, OnOk};
ghost use Rattle.pb_lan.specs.Plans.{IsSound};
ghost use Rattle.pb_step_script.specs.Counts.{port_line, link_line, IsCountsText};

use crate::by_name::{links_by_name, ports_by_name};
use crate::counts::{carried, filtered_at, passed};
use pb_frame::Memory;
use pb_history::Tallies;
use pb_lan::Plan;
use std::alloc::Global;

/// Appends the line of a customer port.
fn put_port(
    out: &mut String,
    plan: &Plan,
    tallies: &Tallies,
    name: &str,
    number: u8,
) -> Result<(), Memory>
    requires { IsSound plan.now }
    ensures { OnOk result (string_bytes out.new ≡ string_bytes out.old ++ port_line plan.now tallies.now (
      name.now,
      number,
    )) }
{
    let (came, left) = passed(tallies, number);
    let refused = filtered_at(plan, tallies, number);
    writeln!(
        out,
        "port {name} entered {came} left {left} filtered {refused}"
    )?;
    Ok(())
}

/// Appends the line of a link.
fn put_link(out: &mut String, tallies: &Tallies, name: &str, number: u8) -> Result<(), Memory>
    ensures { OnOk result (string_bytes out.new ≡ string_bytes out.old ++ link_line tallies.now (name.now, number)) }
{
    let lane = 2 * usize::from(number);
    let (taken_there, lost_there) = carried(tallies, lane.saturating_sub(1));
    let (taken_back, lost_back) = carried(tallies, lane);
    write!(out, "link {name} ab taken {taken_there} lost {lost_there}")?;
    writeln!(out, " ba taken {taken_back} lost {lost_back}")?;
    Ok(())
}

/// Appends the lines of customer ports.
fn put_ports(
    out: &mut String,
    plan: &Plan,
    tallies: &Tallies,
    ports: &[(&str, u8)],
) -> Result<(), Memory>
    requires { IsSound plan.now }
    ensures { OnOk result (string_bytes out.new ≡ string_bytes out.old
        ++ flat_map (port_line plan.now tallies.now) (map (λ n. (n.0.now, n.1)) ports.now)) }
{
    for (name, number) in ports {
        put_port(out, plan, tallies, name, *number)?;
    }
    Ok(())
}

/// Appends the lines of links.
fn put_links(out: &mut String, tallies: &Tallies, links: &[(&str, u8)]) -> Result<(), Memory>
    ensures { OnOk result (string_bytes out.new ≡ string_bytes out.old
        ++ flat_map (link_line tallies.now) (map (λ n. (n.0.now, n.1)) links.now)) }
{
    for (name, number) in links {
        put_link(out, tallies, name, *number)?;
    }
    Ok(())
}

/// Appends the counts of customer ports and links, sorted by name.
///
/// Each customer port has a line `port NAME entered N left N filtered N`, and each link a line `link NAME ab taken N
/// lost N ba taken N lost N`. A frame has entered when the port polled it, and has left when the port delivered it to a
/// customer that took it. A frame is filtered if the bridge received it at this port and dropped it. The items taken
/// include the lost ones.
///
/// # Errors
///
/// `Memory` if an allocation failed.
pub fn put_counts(
    alloc: Global,
    out: &mut String,
    plan: &Plan,
    tallies: &Tallies,
) -> Result<(), Memory>
    requires { IsSound plan.now }
    ensures { OnOk result ((text : List ℕ) × (string_bytes out.new ≡ string_bytes out.old ++ text)
        × IsCountsText plan.now tallies.now text) }
{
    let ports = ports_by_name(alloc, plan)?;
    let links = links_by_name(alloc, plan)?;
    put_ports(out, plan, tallies, ports.as_slice())?;
    put_links(out, tallies, links.as_slice())
}
