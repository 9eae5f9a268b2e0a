//! The trees of a plan that gives the states of the ports.

ghost use Rattle.std.specs.Prelude.{◌≡◌, ◌++◌, string_bytes, OnOk};
ghost use Rattle.pb_lan.specs.Plans.{IsSound};
ghost use Rattle.pb_cmd_tree.specs.TreeTexts.{given_port_line, given_bridge_lines, given_lines};

use pb_forest::state_in;
use pb_frame::Memory;
use pb_lan::{Plan, Shape};
use pb_names::{bridge_name, link_at, state_word};

/// Appends the line of a bridge's port, if a link is there.
fn put_port(
    out: &mut String,
    plan: &Plan,
    shape: &Shape,
    bridge: u8,
    port: u8,
) -> Result<(), Memory>
    ensures { OnOk result (string_bytes out.new ≡ string_bytes out.old
        ++ given_port_line plan.now shape.now bridge port) }
{
    let Some(link) = link_at(plan, bridge, port) else {
        return Ok(());
    };
    let name = bridge_name(plan, bridge);
    let link = link.name.as_str();
    let state = state_word(state_in(shape, bridge, port));
    writeln!(out, "port {name} {port} link {link} {state}")?;
    Ok(())
}

/// Appends the line of a bridge, then those of its ports in the order of their numbers.
fn put_bridge(out: &mut String, plan: &Plan, shape: &Shape, bridge: u8) -> Result<(), Memory>
    ensures { OnOk result (string_bytes out.new ≡ string_bytes out.old
        ++ given_bridge_lines plan.now shape.now bridge) }
{
    let name = bridge_name(plan, bridge);
    writeln!(out, "bridge {name}")?;
    for place in 0..16u8 {
        put_port(out, plan, shape, bridge, place + 1)?;
    }
    Ok(())
}

/// Appends the lines of all bridges, in the plan's order.
pub(crate) fn put_given(out: &mut String, plan: &Plan, shape: &Shape) -> Result<(), Memory>
    requires { IsSound plan.now }
    ensures { OnOk result (string_bytes out.new ≡ string_bytes out.old ++ given_lines plan.now shape.now) }
{
    for place in 0..plan.bridges.len() {
        put_bridge(out, plan, shape, place as u8 + 1)?;
    }
    Ok(())
}
