//! The view of a bridge's ports while it works.

ghost use Rattle.std.specs.Option.{option_copied};
ghost use Rattle.std.specs.Prelude.{◌≡◌, unwrap_or};
ghost use Rattle.pb_lan.specs.Numbering.{numbered};
ghost use Rattle.pb_lan.specs.declared.shape.PortState.TheVariants.{Discarding};
ghost use Rattle.pb_workers.specs.Bridges.{role_among, role_in, view_of};

use pb_frame::index_of;
use pb_lan::PortState;
use pb_relay::Bridge;
use pb_rstp::{Role, Rstp};
use pb_threads::PortView;

/// Returns the role of a port in a list of a bridge's ports with their roles.
fn role_at(roles: &[(u8, Role)], port: u8) -> Option<Role>
    ensures { result ≡ role_among roles.now port }
{
    for (number, role) in roles {
        if *number == port {
            return Some(*role);
        }
    }
    None
}

/// Returns the role of a port, if a spanning tree decides the states of ports.
fn role_of(machine: Option<&Rstp>, port: u8) -> Option<Role>
    ensures { result ≡ role_in (option_copied machine.entry) port }
{
    match machine {
        Some(machine) => role_at(machine.roles(), port),
        None => None,
    }
}

/// Returns the state of a port in a list by local port, or Discarding if the list has no such port.
fn state_at(states: &[PortState], port: u8) -> PortState
    ensures { result ≡ unwrap_or (numbered states.now port) Discarding }
{
    if port == 0 {
        return PortState::Discarding;
    }
    match states.get(index_of(port)) {
        Some(state) => *state,
        None => PortState::Discarding,
    }
}

/// Returns the view of a bridge's port after the steps that the bridge took, or `None` if the port leads to no other
/// bridge.
pub(crate) fn view_of(bridge: &Bridge, port: u8) -> Option<PortView>
    ensures { result ≡ view_of bridge.now port }
{
    if !bridge.has_link(port) {
        return None;
    }
    let states = bridge.shape();
    Some(PortView {
        role: role_of(bridge.rstp(), port),
        state: state_at(&states, port),
    })
}
