//! The rules: when a warning is due.

ghost use Rattle.std.specs.Prelude.{◌≡◌, ◌≢◌, ◌<◌, ◌↔◌, false, length, IsTrue};
ghost use Rattle.std.specs.List.{list_any};
ghost use Rattle.pb_lan.specs.Plans.{IsSound, IsNumber};
ghost use Rattle.pb_lan.specs.declared.plan.Spanning.TheVariants.{Rstp};
ghost use Rattle.pb_warnings.specs.Links.{is_member, touches};
ghost use Rattle.pb_warnings.specs.Marks.{is_apart, are_apart};
ghost use Rattle.pb_warnings.specs.Rules.{NeverTick, IsUnlinked, IsTooFar, IsUnequal, HasUnequalEnds, IsSplit};
ghost use Rattle.pb_warnings.specs.Rules.{port_count, Holds};

use crate::hops::{FARTHEST, hops};
use crate::links::{Links, is_member, marks_by, touches};
use crate::root::root_of;
use crate::warning::Warning;
use pb_frame::index_of;
use pb_joins::mark_at;
use pb_lan::{Limits, LinkPlan, Plan, ServicePlan, Spanning};

/// Checks whether bridges never tick in a run, although the plan has a spanning tree.
fn never_tick(plan: &Plan, limits: &Limits) -> bool
    ensures { IsTrue result ↔ NeverTick plan.now limits.now }
{
    plan.spanning == Spanning::Rstp && limits.tick_ms == 0 && limits.tick_every == 0
}

/// Checks whether a link ends at a bridge.
fn is_touched(plan: &Plan, bridge: u8) -> bool
    ensures { result ≡ list_any (touches bridge) plan.now.links }
{
    plan.links.as_slice().iter().any(|l| touches(bridge, l))
}

/// Checks whether no link ends at a bridge, although the plan has others.
fn is_unlinked(plan: &Plan, bridge: u8) -> bool
    ensures { IsTrue result ↔ IsUnlinked plan.now bridge }
{
    if plan.bridges.len() <= 1 {
        return false;
    }
    !is_touched(plan, bridge)
}

/// Checks whether a bridge can have this number.
fn is_number(bridge: u8) -> bool
    ensures { IsTrue result ↔ IsNumber bridge 32 }
{
    1 <= bridge && bridge <= 32
}

/// Checks whether the plan has a spanning tree, and whether two bridges can have these numbers.
fn have_tree(plan: &Plan, root: u8, bridge: u8) -> bool
    ensures { IsTrue result ↔ ((plan.now.spanning ≡ Rstp) × IsNumber root 32 × IsNumber bridge 32) }
{
    plan.spanning == Spanning::Rstp && is_number(root) && is_number(bridge)
}

/// Checks whether paths lead from the root of the spanning tree to a bridge, and all are too long for its information.
fn is_too_far(plan: &Plan, bridge: u8) -> bool
    requires { IsSound plan.now }
    ensures { IsTrue result ↔ IsTooFar plan.now bridge }
{
    let root = root_of(plan);
    if !have_tree(plan, root, bridge) {
        return false;
    }
    let marks = marks_by(plan, Links::All);
    if mark_at(&marks, root) != mark_at(&marks, bridge) {
        return false;
    }
    FARTHEST < mark_at(&hops(plan, root), bridge)
}

/// Checks whether one end of a link is a member of a service, and the other is not.
fn are_different(service: u8, link: &LinkPlan) -> bool
    ensures different { IsTrue result → is_member service link.now.a ≢ is_member service link.now.b }
    ensures same { result ≡ false → is_member service link.now.a ≡ is_member service link.now.b }
{
    if is_member(service, &link.a) {
        return !is_member(service, &link.b);
    }
    is_member(service, &link.b)
}

/// Checks whether the ends of a link are members of different services.
fn is_unequal(services: &[ServicePlan], link: &LinkPlan) -> bool
    requires { length services.now < 256 }
    ensures { IsTrue result ↔ IsUnequal (length services.now) link.now }
{
    for (place, _) in services.iter().enumerate() {
        if are_different(place as u8 + 1, link) {
            return true;
        }
    }
    false
}

/// Checks whether the link with this number has ends that are members of different services.
fn has_unequal_ends(plan: &Plan, number: u8) -> bool
    requires { IsSound plan.now }
    ensures { IsTrue result ↔ HasUnequalEnds plan.now number }
{
    if number == 0 {
        return false;
    }
    match plan.links.as_slice().get(index_of(number)) {
        Some(link) => is_unequal(plan.services.as_slice(), link),
        None => false,
    }
}

/// Returns the number of customer ports of a service.
fn port_count(plan: &Plan, service: u8) -> usize
    ensures { result ≡ port_count plan.now service }
{
    plan.customers
        .as_slice()
        .iter()
        .filter(|c| c.service == service)
        .count()
}

/// Checks whether a port of the service has another mark than this one.
fn is_apart(plan: &Plan, marks: &[u8; 32], service: u8, mark: u8) -> bool
    ensures { result ≡ is_apart plan.now marks.now service mark }
{
    plan.customers.as_slice().iter().any(|c| c.service == service
        && mark_at(marks, c.bridge) != mark)
}

/// Checks whether two customer ports of a service have different marks.
fn are_apart(plan: &Plan, marks: &[u8; 32], service: u8) -> bool
    ensures { result ≡ are_apart plan.now marks.now service }
{
    plan.customers.as_slice().iter().any(|c| c.service == service
        && is_apart(plan, marks, service, mark_at(marks, c.bridge)))
}

/// Checks whether two customer ports of a service are at bridges that no links of its members join.
fn is_split(plan: &Plan, service: u8) -> bool
    requires { IsSound plan.now }
    ensures { IsTrue result ↔ IsSplit plan.now service }
{
    are_apart(plan, &marks_by(plan, Links::Service(service)), service)
}

/// Checks whether a warning about a sound plan is due.
pub(crate) fn holds(plan: &Plan, limits: &Limits, warning: Warning) -> bool
    requires { IsSound plan.now }
    ensures { IsTrue result ↔ Holds plan.now limits.now warning }
{
    match warning {
        Warning::NeverTicks => never_tick(plan, limits),
        Warning::Unlinked(bridge) => is_unlinked(plan, bridge),
        Warning::TooFar(bridge) => is_too_far(plan, bridge),
        Warning::Unequal(link) => has_unequal_ends(plan, link),
        Warning::NoPort(service) => port_count(plan, service) == 0,
        Warning::OnePort(service) => port_count(plan, service) == 1,
        Warning::Split(service) => is_split(plan, service),
    }
}
