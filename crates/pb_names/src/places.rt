//! The customer port or the link at a local port of a bridge. Bridges and local ports are numbered from 1.

ghost use Rattle.std.specs.Option.{option_copied};
ghost use Rattle.std.specs.Prelude.{◌≡◌};
ghost use Rattle.pb_lan.specs.Ports.{is_end_at};
ghost use Rattle.pb_names.specs.Places.{customer_at, link_at};

use pb_lan::{CustomerPlan, End, LinkPlan, Plan};

/// Returns the customer port at a local port of a bridge, if there is one. A sound plan has at most one.
pub fn customer_at(plan: &Plan, bridge: u8, port: u8) -> Option<&CustomerPlan>
    ensures { option_copied result ≡ customer_at plan.now bridge port }
{
    for customer in plan.customers.as_slice() {
        if customer.bridge == bridge && customer.port == port {
            return Some(customer);
        }
    }
    None
}

/// Returns whether the end of a link is at this local port of this bridge.
pub fn is_end_at(bridge: u8, port: u8, end: &End) -> bool
    ensures { result ≡ is_end_at bridge port end.now }
{
    end.bridge == bridge && end.port == port
}

/// Returns the link with an end at a local port of a bridge, if there is one. A sound plan has at most one.
pub fn link_at(plan: &Plan, bridge: u8, port: u8) -> Option<&LinkPlan>
    ensures { option_copied result ≡ link_at plan.now bridge port }
{
    for link in plan.links.as_slice() {
        if is_end_at(bridge, port, &link.a) || is_end_at(bridge, port, &link.b) {
            return Some(link);
        }
    }
    None
}
