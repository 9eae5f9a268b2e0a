//! The trees of the services.

ghost use Rattle.std.specs.Prelude.{◌≡◌, ◌<◌, ◌++◌, List, ℕ, length, string_bytes, OnOk};
ghost use Rattle.pb_forest.specs.Paths.{depth_of};
ghost use Rattle.pb_lan.specs.Plans.{IsSound};
ghost use Rattle.pb_cmd_tree.specs.TreeTexts.{up_at, up_line, up_lines, AreServiceTexts, IsServiceTextAt};

use pb_forest::forest;
use pb_frame::{Memory, index_of};
use pb_lan::{Plan, Rooted, Shape};
use pb_names::{bridge_name, link_name};
use std::alloc::Global;

/// Returns the number of the link from a bridge to its parent, if it has one.
fn up_at(rooted: &Rooted, bridge: u8) -> Option<u8>
    ensures { result ≡ up_at rooted.now bridge }
{
    if bridge == 0 {
        return None;
    }
    match rooted.up.as_slice().get(index_of(bridge)) {
        Some(up) => *up,
        None => None,
    }
}

/// Returns the number of links from a bridge up to its root.
fn depth_at(rooted: &Rooted, bridge: u8) -> u8
    ensures { result ≡ depth_of rooted.now bridge }
{
    if bridge == 0 {
        return 0;
    }
    match rooted.depth.as_slice().get(index_of(bridge)) {
        Some(depth) => *depth,
        None => 0,
    }
}

/// Appends the line of a bridge, if it is below a root.
fn put_up(
    out: &mut String,
    plan: &Plan,
    service: &str,
    rooted: &Rooted,
    bridge: u8,
) -> Result<(), Memory>
    ensures { OnOk result (string_bytes out.new ≡ string_bytes out.old
        ++ up_line plan.now service.now rooted.now bridge) }
{
    let Some(link) = up_at(rooted, bridge) else {
        return Ok(());
    };
    let name = bridge_name(plan, bridge);
    let link = link_name(plan, link);
    let depth = depth_at(rooted, bridge);
    writeln!(
        out,
        "service {service} bridge {name} up {link} depth {depth}"
    )?;
    Ok(())
}

/// Appends the lines of a service's tree, in the plan's order of bridges.
fn put_ups(out: &mut String, plan: &Plan, service: &str, rooted: &Rooted) -> Result<(), Memory>
    requires { IsSound plan.now }
    ensures { OnOk result (string_bytes out.new ≡ string_bytes out.old ++ up_lines plan.now service.now rooted.now) }
{
    for place in 0..plan.bridges.len() {
        put_up(out, plan, service, rooted, place as u8 + 1)?;
    }
    Ok(())
}

/// Appends the lines of a service, or nothing if its active links form a loop.
fn put_service(
    alloc: Global,
    out: &mut String,
    plan: &Plan,
    shape: &Shape,
    place: usize,
) -> Result<(), Memory>
    requires sound { IsSound plan.now }
    requires there { place < length plan.now.services }
    ensures { OnOk result ((text : List ℕ) × (string_bytes out.new ≡ string_bytes out.old ++ text)
        × IsServiceTextAt plan.now shape.now place text) }
{
    let Some(rooted) = forest(alloc, shape, plan, place as u8 + 1)? else {
        return Ok(());
    };
    put_ups(
        out,
        plan,
        plan.services.as_slice()[place].name.as_str(),
        &rooted,
    )
}

/// Appends the lines of all services, in the plan's order.
pub(crate) fn put_services(
    alloc: Global,
    out: &mut String,
    plan: &Plan,
    shape: &Shape,
) -> Result<(), Memory>
    requires { IsSound plan.now }
    ensures { OnOk result ((text : List ℕ) × (string_bytes out.new ≡ string_bytes out.old ++ text)
        × AreServiceTexts plan.now shape.now plan.now.services text) }
{
    for place in 0..plan.services.len() {
        put_service(alloc, out, plan, shape, place)?;
    }
    Ok(())
}
