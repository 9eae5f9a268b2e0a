//! The customer port or lane at a bridge's port.

ghost use Rattle.std.specs.Prelude.{◌≡◌, ◌≤◌};
ghost use Rattle.pb_lan.specs.Events.{customer_there, lane_from, link_a, link_b};
ghost use Rattle.pb_lan.specs.Plans.{IsSound};

use pb_lan::Plan;
use pb_names::is_end_at;

/// Returns the number of the customer port at a bridge's port, or 0 if none is there.
pub(crate) fn customer_there(plan: &Plan, bridge: u8, port: u8) -> u8
    requires { IsSound plan.now }
    ensures { result ≡ customer_there plan.now bridge port }
{
    for (place, customer) in plan.customers.as_slice().iter().enumerate() {
        if customer.bridge == bridge && customer.port == port {
            return place as u8 + 1;
        }
    }
    0
}

/// Returns the number of the link whose end a is a bridge's port, or 0 if there is none.
fn link_a(plan: &Plan, bridge: u8, port: u8) -> u8
    requires { IsSound plan.now }
    ensures number { result ≡ link_a plan.now bridge port }
    ensures few { result ≤ 64 }
{
    for (place, link) in plan.links.as_slice().iter().enumerate() {
        if is_end_at(bridge, port, &link.a) {
            return place as u8 + 1;
        }
    }
    0
}

/// Returns the number of the link whose end b is a bridge's port, or 0 if there is none.
fn link_b(plan: &Plan, bridge: u8, port: u8) -> u8
    requires { IsSound plan.now }
    ensures number { result ≡ link_b plan.now bridge port }
    ensures few { result ≤ 64 }
{
    for (place, link) in plan.links.as_slice().iter().enumerate() {
        if is_end_at(bridge, port, &link.b) {
            return place as u8 + 1;
        }
    }
    0
}

/// Returns the number of the lane that starts at a bridge's port, or 0 if there is none.
pub(crate) fn lane_from(plan: &Plan, bridge: u8, port: u8) -> u8
    requires { IsSound plan.now }
    ensures { result ≡ lane_from plan.now bridge port }
{
    let link = link_a(plan, bridge, port);
    if 0 < link {
        return 2 * link - 1;
    }
    2 * link_b(plan, bridge, port)
}
