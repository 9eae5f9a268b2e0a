//! The local ports of a bridge that its plan uses.

ghost use Rattle.std.specs.Prelude.{◌≡◌, ◌||◌, true, IsTrue, IfOk};
ghost use Rattle.std.specs.List.{list_any};
ghost use Rattle.pb_lan.specs.Ports.{port_at, is_used, is_customer_at, is_end_at};
ghost use Rattle.pb_workers.specs.Bridges.{AreUsed};

use pb_frame::Memory;
use pb_lan::{CustomerPlan, LinkPlan, Plan};
use std::alloc::Global;

/// Checks whether a customer port is at a bridge's port.
fn is_customer_there(customers: &[CustomerPlan], bridge: u8, port: u8) -> bool
    ensures { result ≡ list_any (is_customer_at bridge port) customers.now }
{
    customers.iter().any(|customer| customer.bridge == bridge && customer.port == port)
}

/// Checks whether a link ends at a bridge's port.
fn is_end_there(links: &[LinkPlan], bridge: u8, port: u8) -> bool
    ensures { result ≡ list_any (λ l. is_end_at bridge port l.a || is_end_at bridge port l.b) links.now }
{
    links.iter().any(|link| {
        (link.a.bridge == bridge && link.a.port == port)
            || (link.b.bridge == bridge && link.b.port == port)
    })
}

/// Checks whether the plan uses a bridge's port.
pub fn is_used(plan: &Plan, bridge: u8, port: u8) -> bool
    ensures { IsTrue result → is_used (port_at plan.now bridge port) ≡ true }
{
    is_customer_there(plan.customers.as_slice(), bridge, port)
        || is_end_there(plan.links.as_slice(), bridge, port)
}

/// Returns the local ports of a bridge that the plan uses, from 1 to `count`.
///
/// # Errors
///
/// `Memory` if an allocation failed.
pub(crate) fn used_ports(
    alloc: Global,
    plan: &Plan,
    bridge: u8,
    count: usize,
) -> Result<Vec<u8>, Memory>
    ensures { IfOk result (λ ports. AreUsed plan.now bridge count ports.items) }
{
    let mut ports = Vec::new(alloc);
    for port in 1..17u8 {
        if usize::from(port) <= count && is_used(plan, bridge, port) {
            ports.push(port)?;
        }
    }
    Ok(ports)
}
