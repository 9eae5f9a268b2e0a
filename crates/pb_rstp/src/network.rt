//! Whether the bridges of a network are settled, and whether they have converged.

ghost use Rattle.std.specs.Prelude.{◌≡◌, ◌↔◌, ℕ, map, IsTrue, Some};
ghost use Rattle.std.specs.List.{list_all, AllByRecursion};
ghost use Rattle.std.specs.Option.{option_copied, option_map};
ghost use Rattle.pb_lan.specs.Numbering.{numbered};
ghost use Rattle.pb_lan.specs.Plans.{IsSound};
ghost use Rattle.pb_rstp.specs.Laws.{IsInLine};
ghost use Rattle.pb_rstp.specs.Tree.{IsSettled, AreMachines, NoneHeld, AreForests, offered, is_quiet, stores_test};
ghost use Rattle.pb_rstp.specs.Tree.{leads_test, place_at, is_settled_between, IsConverged, are_forwarding};
ghost use Rattle.pb_rstp.specs.Tree.{is_converged_by, is_converged_between};
ghost use Rattle.pb_rstp.specs.Places.{place_of};
ghost use Rattle.pb_rstp.specs.Settling.{nows};

use crate::moving::Moving;
use crate::port::{Port, is_discarding, is_forwarding, port_of};
use crate::rstp::Rstp;
use pb_lan::{End, LinkPlan, Plan};

/// The bridge at an end of a link, and its port.
#[derive(Clone, Copy)]
struct Standing<'a> {
    bridge: &'a Rstp,
    port: Port,
}

/// Returns whether the port is Root or Designated, or Discarding.
fn is_quiet(p: &Port) -> bool
    ensures { result ≡ is_quiet p.now }
{
    p.role.is_root_or_designated() || is_discarding(p.state)
}

fn are_quiet(ports: &[Moving]) -> bool
    ensures { result ≡ list_all is_quiet (nows ports.now) }
{
    for p in ports {
        if !is_quiet(&p.now) {
            return false;
        }
    }
    true
}

/// Returns whether each port has the role that follows from the root vector, and only Root and Designated ports do more
/// than discard. Every call leaves a bridge so.
fn is_in_line(bridge: &Rstp) -> bool
    ensures { IsTrue result ↔ IsInLine bridge.now }
{
    are_quiet(&bridge.ports)
}

/// Returns the item of this number, if there is one. The first has number 1.
fn numbered<T>(things: &[T], number: usize) -> Option<&T>
    ensures { option_copied result ≡ numbered things.now number }
{
    if number == 0 {
        return None;
    }
    things.get(number - 1)
}

/// Returns the bridge of this number.
fn bridge_at<'a>(bridges: &[&'a Rstp], number: u8) -> Option<&'a Rstp>
    ensures { option_copied result ≡ numbered (map (λ m. m.now) bridges.now) number }
{
    numbered(bridges, number as usize).copied()
}

/// Returns the bridge and the port at an end of a link.
fn place_at<'a>(bridges: &[&'a Rstp], end: &End) -> Option<Standing<'a>>
    ensures { option_map place_of result ≡ place_at (map (λ m. m.now) bridges.now) end.now }
{
    let bridge = bridge_at(bridges, end.bridge)?;
    let port = port_of(&bridge.ports, end.port)?;
    Some(Standing { bridge, port })
}

/// Returns whether the second port stores what the first one offers.
fn stores(offering: &Standing, port: &Port) -> bool
    ensures { result ≡ stores_test port.now.info (offered offering.now.bridge.now offering.now.port) }
{
    let Some(info) = port.info else {
        return false;
    };
    let bridge = offering.bridge;
    let root = bridge.root();
    info.root == root.root
        && info.cost == root.cost
        && info.bridge == bridge.id
        && info.port == offering.port.id()
}

/// Returns whether only the first port is Designated, and the second stores what it offers.
fn leads(here: &Standing, there: &Standing) -> bool
    ensures { result ≡ leads_test here.now.bridge.now here.now.port there.now.port }
{
    here.port.role.is_designated() && !there.port.role.is_designated() && stores(here, &there.port)
}

/// Returns whether an end is disabled, or one end leads and the other stores its offer.
fn is_settled_between(a: &Standing, b: &Standing) -> bool
    ensures { result ≡ is_settled_between (Some (place_of a.now)) (Some (place_of b.now)) }
{
    !(a.port.port_enabled && b.port.port_enabled) || leads(a, b) || leads(b, a)
}

/// Returns whether the link has one Designated end and the other end stores its offer, or an end is disabled.
fn is_settled_link(bridges: &[&Rstp], link: &LinkPlan) -> bool
    ensures { result ≡ is_settled_between (place_at (map (λ m. m.now) bridges.now) link.now.a)
        (place_at (map (λ m. m.now) bridges.now) link.now.b) }
{
    match (place_at(bridges, &link.a), place_at(bridges, &link.b)) {
        (Some(a), Some(b)) => is_settled_between(&a, &b),
        _ => true,
    }
}

fn are_in_line(bridges: &[&Rstp]) -> bool
    ensures { IsTrue result ↔ AllByRecursion IsInLine (map (λ m. m.now) bridges.now) }
{
    for bridge in bridges {
        if !is_in_line(bridge) {
            return false;
        }
    }
    true
}

fn are_settled_links(bridges: &[&Rstp], links: &[LinkPlan]) -> bool
    ensures { result ≡ list_all (λ link. is_settled_between (place_at (map (λ m. m.now) bridges.now) link.a)
        (place_at (map (λ m. m.now) bridges.now) link.b)) links.now }
{
    links.iter().all(|link| is_settled_link(bridges, link))
}

/// Returns whether the bridges of a plan are settled: each port has the role that follows from the vectors, only Root
/// and Designated ports are Forwarding, and each link with both ends enabled has exactly one Designated end, whose
/// vector the other end stores (IEEE 802.1D-2004 clause 17). Allocates nothing.
///
/// An end of a link at which no machine has a port counts as settled. The clause on forests requires one machine for
/// each bridge, in the plan's order, made for that plan. The result holds for this moment: bridges may settle and
/// unsettle again.
pub fn is_settled(bridges: &[&Rstp], plan: &Plan) -> bool
    ensures settled { IsTrue result ↔ IsSettled plan.now (map (λ m. m.now) bridges.now) }

    // If no Root port's path costs more than a BPDU can carry, the links of a sound plan whose ends are both
    // Forwarding are one forest, those of each service are one, and root path cost rises along them.
    ensures forest { let machines = map (λ m. m.now) bridges.now in
        IsTrue result → IsSound plan.now → AreMachines plan.now machines → NoneHeld machines
        → AreForests plan.now machines }
{
    are_in_line(bridges) && are_settled_links(bridges, plan.links.as_slice())
}

/// Returns whether both ports are Forwarding, or neither is a Root port.
fn are_forwarding(a: &Port, b: &Port) -> bool
    ensures { result ≡ are_forwarding a.now b.now }
{
    !(a.role.is_root() || b.role.is_root()) || (is_forwarding(a.state) && is_forwarding(b.state))
}

/// Returns whether a link between these ports has converged: a port that is enabled alone is Designated, and if both
/// are enabled and one is a Root port, both are Forwarding.
fn is_converged_by(a: &Port, b: &Port) -> bool
    ensures { result ≡ is_converged_by a.now.port_enabled b.now.port_enabled a.now b.now }
{
    match (a.port_enabled, b.port_enabled) {
        (true, true) => are_forwarding(a, b),
        (true, false) => a.role.is_designated(),
        (false, true) => b.role.is_designated(),
        (false, false) => true,
    }
}

/// Returns whether a link has converged. One with an end at which no machine has a port has.
fn is_converged_link(bridges: &[&Rstp], link: &LinkPlan) -> bool
    ensures { result ≡ is_converged_between (place_at (map (λ m. m.now) bridges.now) link.now.a)
        (place_at (map (λ m. m.now) bridges.now) link.now.b) }
{
    match (place_at(bridges, &link.a), place_at(bridges, &link.b)) {
        (Some(a), Some(b)) => is_converged_by(&a.port, &b.port),
        _ => true,
    }
}

fn are_converged_links(bridges: &[&Rstp], links: &[LinkPlan]) -> bool
    ensures { result ≡ list_all (λ link. is_converged_between (place_at (map (λ m. m.now) bridges.now) link.a)
        (place_at (map (λ m. m.now) bridges.now) link.b)) links.now }
{
    links.iter().all(|link| is_converged_link(bridges, link))
}

/// Returns whether the bridges of a plan have converged: they are settled ([`is_settled`]), an end that is enabled
/// alone is Designated, so what it heard from the other end has aged out, and both ends of each enabled link with a
/// Root port are Forwarding (IEEE 802.1D-2004 clause 17). Allocates nothing.
///
/// Settled bridges may still have a Designated port that waits for the agreement of the Root port at its link, and
/// carries no frame until then. Bridges that have converged carry frames over every link of the tree.
///
/// An end of a link at which no machine has a port counts as converged. The clause on forests requires one machine for
/// each bridge, in the plan's order, made for that plan. The result holds for this moment: later calls may change it.
pub fn is_converged(bridges: &[&Rstp], plan: &Plan) -> bool
    ensures converged { IsTrue result ↔ IsConverged plan.now (map (λ m. m.now) bridges.now) }

    // If no Root port's path costs more than a BPDU can carry, the links of a sound plan whose ends are both
    // Forwarding are one forest, those of each service are one, and root path cost rises along them.
    ensures forest { let machines = map (λ m. m.now) bridges.now in
        IsTrue result → IsSound plan.now → AreMachines plan.now machines → NoneHeld machines
        → AreForests plan.now machines }
{
    is_settled(bridges, plan) && are_converged_links(bridges, plan.links.as_slice())
}
