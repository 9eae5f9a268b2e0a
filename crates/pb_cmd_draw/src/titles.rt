//! The titles of the parts of a network, which a viewer shows under the pointer.

ghost use Rattle.std.specs.Prelude.{◌≡◌, ◌++◌, string_bytes, OnOk};
ghost use Rattle.pb_cmd_draw.specs.Titles.{bridge_words, end_words, losses_text, link_words, port_words};

use crate::words::{end_word, is_lossless};
use pb_draw_layout::LinkFacts;
use pb_forest::vid_numbered;
use pb_frame::Memory;
use pb_lan::{BridgePlan, CustomerPlan, End, LinkPlan, Plan, PortState};
use pb_names::bridge_name;
use std::alloc::Global;

/// Appends the title of a bridge: its name, its address and its priority.
pub(crate) fn put_bridge_words(
    alloc: Global,
    out: &mut String,
    bridge: &BridgePlan,
) -> Result<(), Memory>
    ensures { OnOk result (string_bytes out.new ≡ string_bytes out.old ++ bridge_words bridge.now) }
{
    let name = bridge.name.as_str();
    let address = bridge.address.text(alloc)?;
    let priority = bridge.priority;
    write!(out, "bridge {name}, address {address}, priority {priority}")?;
    Ok(())
}

/// Appends how many frames a link loses in each direction, if it loses any.
fn put_losses(out: &mut String, plan: &Plan, link: &LinkPlan) -> Result<(), Memory>
    ensures { OnOk result (string_bytes out.new ≡ string_bytes out.old ++ losses_text plan.now link.now) }
{
    if is_lossless(link) {
        return Ok(());
    }
    let (a, b) = (
        bridge_name(plan, link.a.bridge),
        bridge_name(plan, link.b.bridge),
    );
    let (to_b, to_a) = (link.lost_ab.len(), link.lost_ba.len());
    write!(out, ", loses {to_b} to {b} and {to_a} to {a}")?;
    Ok(())
}

/// Appends an end of a link: its bridge, its port, and the port's state, or that it is disabled.
fn put_end_words(
    out: &mut String,
    plan: &Plan,
    end: &End,
    disabled: bool,
    state: PortState,
) -> Result<(), Memory>
    ensures { OnOk result (string_bytes out.new ≡ string_bytes out.old ++ end_words plan.now end.now disabled state) }
{
    let name = bridge_name(plan, end.bridge);
    let port = end.port;
    let word = end_word(disabled, state);
    write!(out, "{name} port {port} {word}")?;
    Ok(())
}

/// Appends the title of a link: its name, its ends with their states, and its losses.
pub(crate) fn put_link_words(
    out: &mut String,
    plan: &Plan,
    link: &LinkPlan,
    facts: LinkFacts,
) -> Result<(), Memory>
    ensures { OnOk result (string_bytes out.new ≡ string_bytes out.old ++ link_words plan.now link.now facts) }
{
    write!(out, "link {}: ", link.name.as_str())?;
    put_end_words(out, plan, &link.a, facts.failed.a, facts.a)?;
    out.push_str(", ")?;
    put_end_words(out, plan, &link.b, facts.failed.b, facts.b)?;
    put_losses(out, plan, link)
}

/// Appends the title of a customer port: its name, its bridge and local port, its service and the VID.
pub(crate) fn put_port_words(
    out: &mut String,
    plan: &Plan,
    port: &CustomerPlan,
    service: &str,
) -> Result<(), Memory>
    ensures { OnOk result (string_bytes out.new ≡ string_bytes out.old ++ port_words plan.now port.now service.now) }
{
    let name = port.name.as_str();
    let bridge = bridge_name(plan, port.bridge);
    let number = port.port;
    let vid = vid_numbered(plan, port.service);
    write!(
        out,
        "port {name}: {bridge} port {number}, service {service}, VID {vid}"
    )?;
    Ok(())
}
