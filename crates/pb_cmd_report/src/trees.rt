//! The table of the spanning tree: the ports to other bridges.

ghost use Rattle.std.specs.Prelude.{◌≡◌, ◌<◌, ◌++◌, length, flat_map, string_bytes, OnOk};
ghost use Rattle.pb_lan.specs.Plans.{IsSound};
ghost use Rattle.pb_lan.specs.declared.plan.Spanning.TheVariants.{Rstp as by_protocol};
ghost use Rattle.pb_cmd_tree.specs.Names.{id_name};
ghost use Rattle.pb_cmd_report.specs.Html.{cell_of};
ghost use Rattle.pb_cmd_report.specs.Trees.{port_cells, port_words, port_row, machine_rows, protocol_rows};
ghost use Rattle.pb_cmd_report.specs.Trees.{given_cells, given_words, given_row, given_rows, all_given_rows};

use crate::html::{put_cell, put_number_cell};
use pb_cmd_tree::{designated_at, link_name_at, path_cost_at, put_id};
use pb_forest::state_in;
use pb_frame::Memory;
use pb_lan::{LinkPlan, Plan, PortState, Shape};
use pb_names::{bridge_name, link_at, role_word, state_word};
use pb_net::Net;
use pb_rstp::{Role, Rstp};
use std::alloc::Global;

/// The parts of a port's row.
#[derive(Clone, Copy)]
struct Shown {
    port: u8,
    role: Role,
    state: PortState,
    /// The identifier of the Designated bridge of its link.
    from: u64,
}

/// Appends the cell of a bridge's identifier, with the bridge's name if the plan has it.
fn put_id_cell(alloc: Global, out: &mut String, plan: &Plan, id: u64) -> Result<(), Memory>
    ensures { OnOk result (string_bytes out.new ≡ string_bytes out.old ++ cell_of (id_name plan.now id)) }
{
    let mut text = String::new(alloc);
    put_id(&mut text, plan, id)?;
    put_cell(out, text.as_str())
}

/// Appends the cells of a port.
fn put_port_cells(
    alloc: Global,
    out: &mut String,
    plan: &Plan,
    bridge: u8,
    shown: &Shown,
) -> Result<(), Memory>
    ensures { OnOk result (string_bytes out.new ≡ string_bytes out.old
        ++ port_cells plan.now bridge shown.now.port shown.now.role shown.now.state shown.now.from) }
{
    put_cell(out, bridge_name(plan, bridge))?;
    put_number_cell(out, shown.port as u32)?;
    put_cell(out, link_name_at(plan, bridge, shown.port))?;
    put_cell(out, role_word(shown.role))?;
    put_cell(out, state_word(shown.state))?;
    put_number_cell(out, path_cost_at(plan, bridge, shown.port))?;
    put_id_cell(alloc, out, plan, shown.from)
}

/// Appends the row of a port.
fn put_port(
    alloc: Global,
    out: &mut String,
    plan: &Plan,
    bridge: u8,
    shown: &Shown,
) -> Result<(), Memory>
    ensures { OnOk result (string_bytes out.new ≡ string_bytes out.old
        ++ port_words plan.now bridge shown.now.port shown.now.role shown.now.state shown.now.from) }
{
    out.push_str("<tr>")?;
    put_port_cells(alloc, out, plan, bridge, shown)?;
    out.push_str("</tr>\n")?;
    Ok(())
}

/// Appends the rows of a bridge's ports, in the order of the protocol machine.
fn put_ports(
    alloc: Global,
    out: &mut String,
    plan: &Plan,
    bridge: u8,
    machine: &Rstp,
) -> Result<(), Memory>
    ensures { OnOk result (string_bytes out.new ≡ string_bytes out.old
        ++ machine_rows plan.now bridge machine.now) }
{
    let roles = machine.roles();
    let states = machine.states();
    for place in 0..roles.len() {
        let (port, role) = roles[place];
        let shown = Shown {
            port,
            role,
            state: states[place].1,
            from: designated_at(machine, port, role),
        };
        put_port(alloc, out, plan, bridge, &shown)?;
    }
    Ok(())
}

/// Appends the rows of all ports if the bridges run the protocol, in the plan's order of bridges.
pub(crate) fn put_protocol(
    alloc: Global,
    out: &mut String,
    plan: &Plan,
    net: &Net,
) -> Result<(), Memory>
    requires sound { IsSound plan.now }
    requires plan { net.now.plan ≡ plan.now }
    requires protocol { plan.now.spanning ≡ by_protocol }
    ensures { OnOk result (string_bytes out.new ≡ string_bytes out.old ++ protocol_rows plan.now net.now.rec) }
{
    for place in 0..plan.bridges.len() {
        let bridge = place as u8 + 1;
        let Some(machine) = net.rstp(bridge) else {
            unreachable!();
        };
        put_ports(alloc, out, plan, bridge, machine)?;
    }
    Ok(())
}

/// Appends the cells of a port at a link, if the plan gives the states.
fn put_given_cells(
    out: &mut String,
    plan: &Plan,
    shape: &Shape,
    bridge: u8,
    port: u8,
    link: &LinkPlan,
) -> Result<(), Memory>
    ensures { OnOk result (string_bytes out.new ≡ string_bytes out.old
        ++ given_cells plan.now shape.now bridge port link.now) }
{
    put_cell(out, bridge_name(plan, bridge))?;
    put_number_cell(out, port as u32)?;
    put_cell(out, link.name.as_str())?;
    put_cell(out, "")?;
    put_cell(out, state_word(state_in(shape, bridge, port)))
}

/// Appends the row of a port at a link, if the plan gives the states.
fn put_given_row(
    out: &mut String,
    plan: &Plan,
    shape: &Shape,
    bridge: u8,
    port: u8,
    link: &LinkPlan,
) -> Result<(), Memory>
    ensures { OnOk result (string_bytes out.new ≡ string_bytes out.old
        ++ given_words plan.now shape.now bridge port link.now) }
{
    out.push_str("<tr>")?;
    put_given_cells(out, plan, shape, bridge, port, link)?;
    out.push_str("</tr>\n")?;
    Ok(())
}

/// Appends the row of a port, if a link is there and the plan gives the states.
fn put_given_port(
    out: &mut String,
    plan: &Plan,
    shape: &Shape,
    bridge: u8,
    port: u8,
) -> Result<(), Memory>
    ensures { OnOk result (string_bytes out.new ≡ string_bytes out.old
        ++ given_row plan.now shape.now bridge port) }
{
    match link_at(plan, bridge, port) {
        Some(link) => put_given_row(out, plan, shape, bridge, port, link),
        None => Ok(()),
    }
}

/// Appends the rows of a bridge's ports in the order of their numbers, if the plan gives the states.
fn put_given_bridge(out: &mut String, plan: &Plan, shape: &Shape, bridge: u8) -> Result<(), Memory>
    ensures { OnOk result (string_bytes out.new ≡ string_bytes out.old
        ++ given_rows plan.now shape.now bridge) }
{
    for place in 0..16u8 {
        put_given_port(out, plan, shape, bridge, place + 1)?;
    }
    Ok(())
}

/// Appends the rows of all ports if the plan gives the states, in the plan's order of bridges.
pub(crate) fn put_given(out: &mut String, plan: &Plan, shape: &Shape) -> Result<(), Memory>
    requires { IsSound plan.now }
    ensures { OnOk result (string_bytes out.new ≡ string_bytes out.old ++ all_given_rows plan.now shape.now) }
{
    for place in 0..plan.bridges.len() {
        put_given_bridge(out, plan, shape, place as u8 + 1)?;
    }
    Ok(())
}
