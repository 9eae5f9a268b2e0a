//! The bridges, links and ports that lines name.

ghost use Rattle.std.specs.Option.{option_copied};
ghost use Rattle.std.specs.Prelude.{◌≡◌};
ghost use Rattle.pb_control_socket.specs.Parts.{part_named, is_part};
ghost use Rattle.pb_control_socket.specs.Sizes.{IsFew};
ghost use Rattle.pb_lan.specs.Numbering.{numbered};
ghost use Rattle.pb_lan.specs.Ports.{port_at, is_provider};
ghost use Rattle.pb_step_script.specs.Named.{bridge_named, link_named};

use crate::request::Part;
use pb_frame::index_of;
use pb_lan::{LinkPlan, Plan};
use pb_names::{customer_at, link_at};

/// Returns the number of the bridge with this name, or 0 if the plan has none.
pub(crate) fn bridge_named(plan: &Plan, name: &[u8]) -> u8
    requires { IsFew plan.now }
    ensures { result ≡ bridge_named plan.now name.now }
{
    for (place, bridge) in plan.bridges.as_slice().iter().enumerate() {
        if bridge.name.as_str().as_bytes() == name {
            return place as u8 + 1;
        }
    }
    0
}

/// Returns the number of the link with this name, or 0 if the plan has none.
fn link_named(plan: &Plan, name: &[u8]) -> u8
    requires { IsFew plan.now }
    ensures { result ≡ link_named plan.now name.now }
{
    for (place, link) in plan.links.as_slice().iter().enumerate() {
        if link.name.as_str().as_bytes() == name {
            return place as u8 + 1;
        }
    }
    0
}

/// Returns the part that a name means. Its number is 0 if the plan has no link and no bridge of this name, or has both.
pub(crate) fn part_named(plan: &Plan, name: &[u8]) -> Part
    requires { IsFew plan.now }
    ensures { result ≡ part_named plan.now name.now }
{
    match (link_named(plan, name), bridge_named(plan, name)) {
        (link, 0) => Part::Link(link),
        (0, bridge) => Part::Bridge(bridge),
        _ => Part::Bridge(0),
    }
}

/// Checks whether a part has a number that names something.
pub(crate) fn is_part(part: Part) -> bool
    ensures { result ≡ is_part part }
{
    match part {
        Part::Link(number) | Part::Bridge(number) => number != 0,
    }
}

/// Returns the link of this number, from 1, if there is one.
pub(crate) fn link_numbered(plan: &Plan, number: u8) -> Option<&LinkPlan>
    ensures { option_copied result ≡ numbered plan.now.links number }
{
    if number == 0 {
        return None;
    }
    plan.links.as_slice().get(index_of(number))
}

/// Checks whether a bridge's port leads to another bridge.
pub(crate) fn leads_on(plan: &Plan, bridge: u8, port: u8) -> bool
    ensures { result ≡ is_provider (port_at plan.now bridge port) }
{
    match customer_at(plan, bridge, port) {
        Some(_) => false,
        None => link_at(plan, bridge, port).is_some(),
    }
}
