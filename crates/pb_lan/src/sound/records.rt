//! Checks of the parts of a plan, one by one.

ghost use Rattle.std.specs.Prelude.{◌↔◌, IsTrue, IfSome, length};
ghost use Rattle.std.specs.List.{AllByRecursion};
ghost use Rattle.pb_lan.specs.Ports.{all_ends};
ghost use Rattle.pb_lan.specs.Plans.{IsNumber, IsSoundBridge, IsSoundEnd, IsSoundCustomer};
ghost use Rattle.pb_frame.specs.Lists.{Rises};

use crate::plan::{BridgePlan, CustomerPlan, End, LinkPlan, Plan, ServicePlan};
use pb_frame::Seq;

/// Checks whether a number is 1 to the highest one.
pub(crate) fn is_number(n: u64, highest: u64) -> bool
    ensures { IsTrue result ↔ IsNumber n highest }
{
    1 <= n && n <= highest
}

/// Checks whether the list has an entry of this number, counted from 1.
fn numbers_one_of<T>(n: u8, list: &[T]) -> bool
    ensures { IsTrue result ↔ IsNumber n (length list.now) }
{
    1 <= n && n as usize <= list.len()
}

/// Checks whether the numbers of items ascend strictly.
fn rises(numbers: &[u64]) -> bool
    ensures { IsTrue result ↔ Rises numbers.now }
{
    for k in 1..numbers.len() {
        if numbers[k] <= numbers[k - 1] {
            return false;
        }
    }
    true
}

/// Checks whether the numbers of services ascend strictly.
fn services_rise(numbers: &[u8]) -> bool
    ensures { IsTrue result ↔ Rises numbers.now }
{
    for k in 1..numbers.len() {
        if numbers[k] <= numbers[k - 1] {
            return false;
        }
    }
    true
}

/// Checks whether a bridge's address, priority and queue size are allowed.
fn is_sound_bridge(bridge: &BridgePlan) -> bool
    ensures { IsTrue result ↔ IsSoundBridge bridge.now }
{
    !bridge.address.is_group()
        && bridge.priority % 4096 == 0
        && bridge.priority <= 61440
        && is_number(bridge.queue as u64, 4096)
}

/// Checks whether each bridge is sound.
pub(crate) fn are_sound_bridges(bridges: &[BridgePlan]) -> bool
    ensures { IsTrue result ↔ AllByRecursion IsSoundBridge bridges.now }
{
    bridges.iter().all(|bridge| is_sound_bridge(bridge))
}

/// Checks whether each number is that of a service.
fn number_services(numbers: &[u8], services: &[ServicePlan]) -> bool
    ensures { IsTrue result ↔ AllByRecursion (λ s. IsNumber s (length services.now)) numbers.now }
{
    numbers
        .iter()
        .all(|number| numbers_one_of(*number, services))
}

/// Checks whether the services of an end are all of them, or a strictly ascending list of service numbers.
fn are_end_services(numbers: &Option<Seq<u8>>, services: &[ServicePlan]) -> bool
    ensures { IsTrue result ↔ IfSome numbers.now (λ numbers. Rises numbers
        × AllByRecursion (λ s. IsNumber s (length services.now)) numbers) }
{
    match numbers {
        None => true,
        Some(numbers) => {
            services_rise(numbers.as_slice()) && number_services(numbers.as_slice(), services)
        }
    }
}

/// Checks whether an end names a bridge, a port and services of the plan, with an allowed cost and priority.
fn is_sound_end(plan: &Plan, end: &End) -> bool
    ensures { IsTrue result ↔ IsSoundEnd plan.now end.now }
{
    numbers_one_of(end.bridge, plan.bridges.as_slice())
        && is_number(end.port as u64, 16)
        && is_number(end.cost as u64, 200_000_000)
        && end.priority % 16 == 0
        && end.priority <= 240
        && are_end_services(&end.services, plan.services.as_slice())
}

/// Checks whether both ends of each link are sound.
pub(crate) fn are_sound_ends(plan: &Plan) -> bool
    ensures { IsTrue result ↔ AllByRecursion (IsSoundEnd plan.now) (all_ends plan.now) }
{
    plan.links.as_slice().iter().all(|link| is_sound_end(plan, &link.a)
        && is_sound_end(plan, &link.b))
}

/// Checks whether the losses of each link ascend strictly.
pub(crate) fn are_sound_losses(links: &[LinkPlan]) -> bool
    ensures { IsTrue result ↔ AllByRecursion (λ l. Rises l.lost_ab × Rises l.lost_ba) links.now }
{
    links.iter().all(|link| rises(link.lost_ab.as_slice()) && rises(link.lost_ba.as_slice()))
}

/// Checks whether each VID is 1 to 4,094.
pub(crate) fn are_sound_vids(services: &[ServicePlan]) -> bool
    ensures { IsTrue result ↔ AllByRecursion (λ s. IsNumber s.vid 4094) services.now }
{
    services
        .iter()
        .all(|service| is_number(service.vid as u64, 4094))
}

/// Checks whether a customer port names a bridge, a port and a service of the plan, with an allowed priority and queue
/// size.
fn is_sound_customer(plan: &Plan, customer: &CustomerPlan) -> bool
    ensures { IsTrue result ↔ IsSoundCustomer plan.now customer.now }
{
    numbers_one_of(customer.bridge, plan.bridges.as_slice())
        && is_number(customer.port as u64, 16)
        && numbers_one_of(customer.service, plan.services.as_slice())
        && customer.pcp <= 7
        && is_number(customer.queue as u64, 4096)
}

/// Checks whether each customer port is sound.
pub(crate) fn are_sound_customers(plan: &Plan) -> bool
    ensures { IsTrue result ↔ AllByRecursion (IsSoundCustomer plan.now) plan.now.customers }
{
    plan.customers
        .as_slice()
        .iter()
        .all(|customer| is_sound_customer(plan, customer))
}
