//! The numbers of the parts of a plan, from 1.

ghost use Rattle.std.specs.Prelude.{◌≡◌};
ghost use Rattle.pb_lan.specs.Plans.{IsSound};
ghost use Rattle.pb_names.specs.Numbers.{service_named, port_named, service_at};

use pb_forest::numbered;
use pb_lan::Plan;

/// Returns the number of the service with this name, or 0 if the plan has none. The plan is sound.
pub fn service_named(plan: &Plan, name: &str) -> u8
    requires { IsSound plan.now }
    ensures { result ≡ service_named plan.now name.now }
{
    for (place, service) in plan.services.as_slice().iter().enumerate() {
        if name == service.name.as_str() {
            return place as u8 + 1;
        }
    }
    0
}

/// Returns the number of the customer port with this name, or 0 if the plan has none. The plan is sound.
pub fn port_named(plan: &Plan, name: &str) -> u8
    requires { IsSound plan.now }
    ensures { result ≡ port_named plan.now name.now }
{
    for (place, customer) in plan.customers.as_slice().iter().enumerate() {
        if name == customer.name.as_str() {
            return place as u8 + 1;
        }
    }
    0
}

/// Returns the number of the service of the customer port with this number, or 0 if the plan has no such port.
pub fn service_at(plan: &Plan, port: u8) -> u8
    ensures { result ≡ service_at plan.now port }
{
    match numbered(plan.customers.as_slice(), port as usize) {
        None => 0,
        Some(customer) => customer.service,
    }
}
