//! The trees of a plan whose bridges run the rapid spanning tree.

ghost use Rattle.std.specs.Prelude.{◌≡◌, ◌<◌, ◌++◌, true, Some, length, flat_map, string_bytes, OnOk, IsSome};
ghost use Rattle.pb_lan.specs.Plans.{IsSound};
ghost use Rattle.pb_lan.specs.declared.plan.Spanning.TheVariants.{Rstp as by_protocol};
ghost use Rattle.pb_rstp.specs.Ports.{port_of};
ghost use Rattle.pb_frame.specs.Lists.{first};
ghost use Rattle.pb_rstp.specs.Ports.{is_root};
ghost use Rattle.pb_rstp.specs.Readings.{roles_of};
ghost use Rattle.pb_cmd_tree.specs.TreeTexts.{is_served, designated_at, port_words, port_line};
ghost use Rattle.pb_cmd_tree.specs.TreeTexts.{root_port_words, bridge_line, bridge_lines, protocol_lines};

use crate::names::{link_name_at, path_cost_at, put_id};
use pb_frame::Memory;
use pb_lan::{Plan, PortState};
use pb_names::{bridge_name, role_word, state_word};
use pb_net::Net;
use pb_rstp::{Role, Rstp};

/// Checks whether another port is the Designated port of the link of a port with this role.
fn is_served(role: Role) -> bool
    ensures { result ≡ is_served role }
{
    matches!(role, Role::Root | Role::Alternate | Role::Backup)
}

/// Returns the identifier of the Designated bridge of a port's link: the one in the vector that the port stores, if
/// another port serves the link, else the bridge's own (IEEE 802.1D-2004 clause 9.2.5). `role` is the role of the port.
pub fn designated_at(machine: &Rstp, port: u8, role: Role) -> u64
    requires { IsSome (port_of machine.now.ports port) }
    ensures { result ≡ designated_at machine.now port role }
{
    let own = machine.vector(port).bridge;
    if !is_served(role) {
        return own;
    }
    match machine.stored(port) {
        Some(vector) => vector.bridge,
        None => own,
    }
}

/// The parts of a port's line.
#[derive(Clone, Copy)]
struct Shown {
    port: u8,
    role: Role,
    state: PortState,
    /// The identifier of the Designated bridge of its link.
    from: u64,
}

/// Appends the line of a port.
fn put_port(out: &mut String, plan: &Plan, bridge: u8, shown: &Shown) -> Result<(), Memory>
    ensures { OnOk result (string_bytes out.new ≡ string_bytes out.old
        ++ port_words plan.now bridge shown.now.port shown.now.role shown.now.state shown.now.from) }
{
    let name = bridge_name(plan, bridge);
    let port = shown.port;
    let link = link_name_at(plan, bridge, port);
    let role = role_word(shown.role);
    let state = state_word(shown.state);
    let cost = path_cost_at(plan, bridge, port);
    write!(
        out,
        "port {name} {port} link {link} {role} {state} cost {cost} from "
    )?;
    put_id(out, plan, shown.from)?;
    writeln!(out)?;
    Ok(())
}

/// Appends the lines of a bridge's ports, in the order of the protocol machine.
fn put_ports(out: &mut String, plan: &Plan, bridge: u8, machine: &Rstp) -> Result<(), Memory>
    ensures { OnOk result (string_bytes out.new ≡ string_bytes out.old
        ++ flat_map (port_line plan.now bridge machine.now) machine.now.ports) }
{
    let roles = machine.roles();
    let states = machine.states();
    for place in 0..roles.len() {
        let (port, role) = roles[place];
        let shown = Shown {
            port,
            role,
            state: states[place].1,
            from: designated_at(machine, port, role),
        };
        put_port(out, plan, bridge, &shown)?;
    }
    Ok(())
}

/// Appends ` port N` for the Root port, if there is one.
fn put_root_port(out: &mut String, roles: &[(u8, Role)]) -> Result<(), Memory>
    ensures { OnOk result (string_bytes out.new ≡ string_bytes out.old
        ++ root_port_words (first (λ p. is_root p.1) roles.now)) }
{
    for (port, role) in roles {
        if matches!(*role, Role::Root) {
            write!(out, " port {port}")?;
            return Ok(());
        }
    }
    Ok(())
}

/// Appends the line of a bridge: its root, its root path cost and its Root port.
fn put_bridge(out: &mut String, plan: &Plan, bridge: u8, machine: &Rstp) -> Result<(), Memory>
    ensures { OnOk result (string_bytes out.new ≡ string_bytes out.old ++ bridge_line plan.now bridge machine.now) }
{
    let name = bridge_name(plan, bridge);
    let root = machine.root();
    let cost = root.cost;
    write!(out, "bridge {name} root ")?;
    put_id(out, plan, root.root)?;
    write!(out, " cost {cost}")?;
    put_root_port(out, machine.roles())?;
    writeln!(out)?;
    Ok(())
}

/// Appends the lines of a bridge and its ports.
fn put_tree(out: &mut String, plan: &Plan, bridge: u8, machine: &Rstp) -> Result<(), Memory>
    ensures { OnOk result (string_bytes out.new ≡ string_bytes out.old ++ bridge_lines plan.now bridge machine.now) }
{
    put_bridge(out, plan, bridge, machine)?;
    put_ports(out, plan, bridge, machine)
}

/// Appends the lines of all bridges, in the plan's order.
pub(crate) fn put_protocol(out: &mut String, plan: &Plan, net: &Net) -> Result<(), Memory>
    requires sound { IsSound plan.now }
    requires plan { net.now.plan ≡ plan.now }
    requires protocol { plan.now.spanning ≡ by_protocol }
    ensures { OnOk result (string_bytes out.new ≡ string_bytes out.old ++ protocol_lines plan.now net.now.rec) }
{
    for place in 0..plan.bridges.len() {
        let bridge = place as u8 + 1;
        let Some(machine) = net.rstp(bridge) else {
            unreachable!();
        };
        put_tree(out, plan, bridge, machine)?;
    }
    Ok(())
}
