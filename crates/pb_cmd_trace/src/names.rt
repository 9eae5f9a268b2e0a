//! Names in a trace.

ghost use Rattle.std.specs.Prelude.{◌≡◌, ◌==◌};
ghost use Rattle.pb_cmd_trace.specs.Places.{name_of_vid, neighbour};

use pb_lan::Plan;
use pb_names::{customer_at, link_at};

/// Returns the name of the service with a VID, or `no service` if the plan has none.
pub(crate) fn name_of_vid(plan: &Plan, vid: u16) -> &str
    ensures { result.now ≡ name_of_vid plan.now vid }
{
    for service in plan.services.as_slice() {
        if service.vid == vid {
            return service.name.as_str();
        }
    }
    "no service"
}

/// Returns the name of the customer port or the link at a bridge's port, or an empty text if none is there.
pub(crate) fn neighbour(plan: &Plan, bridge: u8, port: u8) -> &str
    ensures { result.now ≡ neighbour plan.now bridge port }
{
    if let Some(customer) = customer_at(plan, bridge, port) {
        return customer.name.as_str();
    }
    match link_at(plan, bridge, port) {
        Some(link) => link.name.as_str(),
        None => "",
    }
}
