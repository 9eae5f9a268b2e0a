//! What follows each call: roles, agreements, stored information and states are brought into line, in place.

ghost use Rattle.std.specs.Prelude.{◌≡◌, if◌then◌else◌};
ghost use Rattle.pb_rstp.specs.Ports.{is_designated};
ghost use Rattle.pb_rstp.specs.Roles.{root_vector};
ghost use Rattle.pb_rstp.specs.Vectors.{is_same_vector};
ghost use Rattle.pb_rstp.specs.Settling.{befores, each, moved_on, with_role, without_agreement, without_info};
ghost use Rattle.pb_rstp.specs.Settling.{with_infos, held_back, forwarding_if_agreed, designated_state, state_by};
ghost use Rattle.pb_rstp.specs.Settling.{with_state, with_states, in_line};

use crate::moving::Moving;
use crate::port::{Port, fwd_delay_of};
use crate::role::Role;
use crate::roles::{role_by, root_vector};
use crate::vector::Vector;
use pb_lan::PortState;

/// Gives the port its role.
fn give_role(id: u64, root: &Vector, p: &mut Moving)
    ensures { p.exit.now ≡ moved_on (with_role id root.now) p.entry.now }
{
    p.now.role = role_by(id, root, &p.now);
}

/// Gives each port its role under this root vector: step 1 of 8 (IEEE 802.1D-2004 clause 17.21.25, updtRolesTree).
fn give_roles(id: u64, root: &Vector, ports: &mut [Moving])
    ensures { ports.new ≡ each (with_role id root.now) ports.old }
{
    for p in ports.iter_mut() {
        give_role(id, root, p);
    }
}

/// Clears `agreed` and `agree`.
fn clear_agreement(p: &mut Moving)
    ensures { p.exit.now ≡ moved_on without_agreement p.entry.now }
{
    p.now.agreed = false;
    p.now.agree = false;
}

/// Clears all agreements if the root vector is not the one before the call: step 2 of 8 (IEEE 802.1D-2004 clause
/// 17.27).
fn clear_agreements(before: &Vector, root: &Vector, ports: &mut [Moving])
    ensures { ports.new
        ≡ (if is_same_vector before.now root.now then ports.old else each without_agreement ports.old) }
{
    if before.is_same(root) {
        return;
    }
    for p in ports.iter_mut() {
        clear_agreement(p);
    }
}

/// Clears what the port stores and sets `new_info`, if it is Designated and stores something.
fn clear_info(p: &mut Moving)
    ensures { p.exit.now ≡ moved_on without_info p.entry.now }
{
    if p.now.role.is_designated() && p.now.info.is_some() {
        p.now.info = None;
        p.now.new_info = true;
    }
}

/// Clears the information that Designated ports store: step 3 of 8 (IEEE 802.1D-2004 clause 17.27).
fn clear_infos(ports: &mut [Moving])
    ensures { ports.new ≡ with_infos ports.old }
{
    for p in ports.iter_mut() {
        clear_info(p);
    }
}

/// Makes the port Discarding, starts `fd_while` and sets `new_info`.
pub(crate) fn hold_back(fwd_delay: u16, p: &mut Port)
    ensures { p.new ≡ held_back fwd_delay p.old }
{
    p.state = PortState::Discarding;
    p.fd_while = fwd_delay;
    p.new_info = true;
}

/// Holds back a Designated port that had another role before the call.
fn hold_back_new(fwd_delay: u16, was: &Port, p: &mut Port)
    ensures { p.new ≡ (if is_designated was.now.role then p.old else held_back fwd_delay p.old) }
{
    if !was.role.is_designated() {
        hold_back(fwd_delay, p);
    }
}

/// Makes a Designated port Forwarding, if the neighbour has agreed.
fn forward_if_agreed(p: &mut Port)
    ensures { p.new ≡ forwarding_if_agreed p.old }
{
    if p.agreed {
        p.state = PortState::Forwarding;
    }
}

/// Puts a Designated port into its state.
fn enter_designated_state(fwd_delay: u16, was: &Port, p: &mut Port)
    ensures { p.new ≡ designated_state fwd_delay was.now p.old }
{
    hold_back_new(fwd_delay, was, p);
    forward_if_agreed(p);
}

/// Puts the port into the state of a role.
fn enter_state(fwd_delay: u16, role: Role, was: &Port, p: &mut Port)
    ensures { p.new ≡ state_by fwd_delay role was.now p.old }
{
    match role {
        Role::Root => p.state = PortState::Forwarding,
        Role::Designated => enter_designated_state(fwd_delay, was, p),
        Role::Disabled | Role::Alternate | Role::Backup => p.state = PortState::Discarding,
    }
}

/// Puts the port into the state of its role.
fn give_state(fwd_delay: u16, p: &mut Moving)
    ensures { p.exit.now ≡ moved_on (with_state fwd_delay) p.entry.now }
{
    enter_state(fwd_delay, p.now.role, &p.was, &mut p.now);
}

/// Puts each port into the state of its role: step 4 of 8 (IEEE 802.1D-2004 clause 17.29).
fn give_states(ports: &mut [Moving])
    ensures { ports.new ≡ with_states ports.old }
{
    let fwd_delay = fwd_delay_of(ports);
    for p in ports.iter_mut() {
        give_state(fwd_delay, p);
    }
}

/// Runs steps 1 to 4, given the root vector before the call.
pub(crate) fn bring_in_line(id: u64, before: &Vector, ports: &mut [Moving])
    requires { before.now ≡ root_vector id (befores ports.old) }
    ensures { ports.new ≡ in_line id ports.old }
{
    let root = root_vector(id, ports);
    give_roles(id, &root, ports);
    clear_agreements(before, &root, ports);
    clear_infos(ports);
    give_states(ports);
}
