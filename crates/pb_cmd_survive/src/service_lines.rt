//! The lines of services under failures.

ghost use Rattle.std.specs.Prelude.{◌≡◌, ◌<◌, ◌++◌, flat_map, length, slice_index_or};
ghost use Rattle.std.specs.Prelude.{string_bytes, OnOk};
ghost use Rattle.std.specs.List.{zip};
ghost use Rattle.pb_cmd_survive.specs.Reports.{group_text, later_text, groups_text, service_line, loop_line, lost_text};
ghost use Rattle.pb_cmd_survive.specs.Reports.{cut_off_line, disconnection_line, view_text, no_site};

use crate::criteria::Criteria;
use crate::disconnecting::{disconnects_view, is_lost};
use crate::sites::Site;
use crate::view::View;
use pb_frame::Memory;
use pb_lan::Plan;
use pb_names::{port_name, service_name};

/// Appends the names of the ports of a group.
fn put_group(out: &mut String, plan: &Plan, sites: &[Site], group: u8) -> Result<(), Memory>
    ensures { OnOk result (string_bytes out.new ≡ string_bytes out.old ++ group_text plan.now sites.now group) }
{
    for site in sites {
        if site.group == group {
            write!(out, " {}", port_name(plan, site.port))?;
        }
    }
    Ok(())
}

/// Appends the groups whose first port is among `later`, each after a bar.
fn put_later(out: &mut String, plan: &Plan, sites: &[Site], later: &[Site]) -> Result<(), Memory>
    ensures { OnOk result (string_bytes out.new ≡ string_bytes out.old
        ++ flat_map (later_text plan.now sites.now) later.now) }
{
    for site in later {
        if site.group == site.port {
            out.push_str(" |")?;
            put_group(out, plan, sites, site.group)?;
        }
    }
    Ok(())
}

/// Appends the names of a service's customer ports, each after a space, in groups that reach each other, with ` |`
/// between the groups. Both the groups and the ports of each are in the order of `sites`.
///
/// # Errors
///
/// `Memory` if an allocation failed.
pub fn put_groups(out: &mut String, plan: &Plan, sites: &[Site]) -> Result<(), Memory>
    ensures { OnOk result (string_bytes out.new ≡ string_bytes out.old ++ groups_text plan.now sites.now) }
{
    match sites.split_first() {
        None => Ok(()),
        Some((first, later)) => {
            put_group(out, plan, sites, first.group)?;
            put_later(out, plan, sites, later)
        }
    }
}

/// Appends the line of a service.
pub(crate) fn put_service(out: &mut String, plan: &Plan, view: &View) -> Result<(), Memory>
    ensures { OnOk result (string_bytes out.new ≡ string_bytes out.old ++ service_line plan.now view.now) }
{
    write!(out, "  service {}:", service_name(plan, view.service))?;
    put_groups(out, plan, view.sites.as_slice())?;
    out.push_str("\n")?;
    Ok(())
}

/// Appends the line of a service whose active links form a loop.
pub(crate) fn put_loop(out: &mut String, plan: &Plan, view: &View) -> Result<(), Memory>
    ensures { OnOk result (string_bytes out.new ≡ string_bytes out.old ++ loop_line plan.now view.now) }
{
    if !view.is_forest {
        writeln!(out, "  loop {}", service_name(plan, view.service))?;
    }
    Ok(())
}

/// Appends a port if the requested one can't reach it any more.
fn put_one_lost(
    out: &mut String,
    plan: &Plan,
    criteria: Criteria,
    before: &[Site],
    now: &[Site],
    place: usize,
) -> Result<(), Memory>
    requires was { place < length before.now }
    requires is { place < length now.now }
    ensures { OnOk result (string_bytes out.new ≡ string_bytes out.old
        ++ lost_text plan.now criteria (zip before.now now.now) (
          slice_index_or before.now place no_site,
          slice_index_or now.now place no_site,
        )) }
{
    let (was, is) = (before[place], now[place]);
    if is_lost(criteria, before, now, was, is) {
        write!(out, " {}", port_name(plan, is.port))?;
    }
    Ok(())
}

/// Appends the ports that the requested one can't reach any more.
fn put_lost(
    out: &mut String,
    plan: &Plan,
    criteria: Criteria,
    before: &[Site],
    now: &[Site],
) -> Result<(), Memory>
    ensures { OnOk result (string_bytes out.new ≡ string_bytes out.old
        ++ flat_map (lost_text plan.now criteria (zip before.now now.now)) (zip before.now now.now)) }
{
    for place in 0..before.len().min(now.len()) {
        put_one_lost(out, plan, criteria, before, now, place)?;
    }
    Ok(())
}

/// Appends the line of a port that is cut off from others.
fn put_cut_off(
    out: &mut String,
    plan: &Plan,
    criteria: Criteria,
    port: u8,
    old: &View,
    new: &View,
) -> Result<(), Memory>
    ensures { OnOk result (string_bytes out.new ≡ string_bytes out.old
        ++ cut_off_line plan.now criteria port (old.now, new.now)) }
{
    write!(out, "  {} cut off from:", port_name(plan, port))?;
    let (before, now) = (old.sites.as_slice(), new.sites.as_slice());
    put_lost(out, plan, criteria, before, now)?;
    out.push_str("\n")?;
    Ok(())
}

/// Appends how a service is disconnected: its groups, or the ports from which the requested port is cut off.
fn put_disconnection(
    out: &mut String,
    plan: &Plan,
    criteria: Criteria,
    old: &View,
    new: &View,
) -> Result<(), Memory>
    ensures { OnOk result (string_bytes out.new ≡ string_bytes out.old
        ++ disconnection_line plan.now criteria (old.now, new.now)) }
{
    match criteria.from {
        None => put_service(out, plan, new),
        Some(port) => put_cut_off(out, plan, criteria, port, old, new),
    }
}

/// Appends the lines of a service under a failure.
fn put_view(
    out: &mut String,
    plan: &Plan,
    criteria: Criteria,
    old: &View,
    new: &View,
) -> Result<(), Memory>
    ensures { OnOk result (string_bytes out.new ≡ string_bytes out.old
        ++ view_text plan.now criteria (old.now, new.now)) }
{
    put_loop(out, plan, new)?;
    if disconnects_view(criteria, old, new) {
        put_disconnection(out, plan, criteria, old, new)?;
    }
    Ok(())
}

/// Appends the lines of all services under a failure.
pub(crate) fn put_views(
    out: &mut String,
    plan: &Plan,
    criteria: Criteria,
    old: &[View],
    new: &[View],
) -> Result<(), Memory>
    ensures { OnOk result (string_bytes out.new ≡ string_bytes out.old
        ++ flat_map (view_text plan.now criteria) (zip old.now new.now)) }
{
    for place in 0..old.len().min(new.len()) {
        put_view(out, plan, criteria, &old[place], &new[place])?;
    }
    Ok(())
}
