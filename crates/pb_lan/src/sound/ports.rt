//! The check that no local port is used twice.

ghost use Rattle.std.specs.Prelude.{◌≡◌, ◌↔◌, ◌||◌, IsTrue, map};
ghost use Rattle.std.specs.List.{list_any, IsDistinct};
ghost use Rattle.pb_lan.specs.Plans.{is_same_port, ports_in};
ghost use Rattle.pb_lan.specs.UsedPorts.{HasFreeEnds};

use crate::plan::{CustomerPlan, End, LinkPlan};

/// The number of a bridge, and one of its local ports.
type LocalPort = (u8, u8);

/// Checks whether two local ports are the same.
fn is_same(a: LocalPort, b: LocalPort) -> bool
    ensures { result ≡ is_same_port a b }
{
    a.0 == b.0 && a.1 == b.1
}

/// Checks whether a link has an end at the port.
fn is_link_port(port: LocalPort, links: &[LinkPlan]) -> bool
    ensures { result ≡ list_any (λ l. is_same_port port (l.a.bridge, l.a.port)
        || is_same_port port (l.b.bridge, l.b.port)) links.now }
{
    links.iter().any(|link| {
        is_same(port, (link.a.bridge, link.a.port)) || is_same(port, (link.b.bridge, link.b.port))
    })
}

/// Checks whether a customer port is at the port.
fn is_customer_port(port: LocalPort, customers: &[CustomerPlan]) -> bool
    ensures { result ≡ list_any (λ c. is_same_port port (c.bridge, c.port)) customers.now }
{
    customers
        .iter()
        .any(|customer| is_same(port, (customer.bridge, customer.port)))
}

/// Checks whether a link or a customer port uses the port.
fn is_used(port: LocalPort, links: &[LinkPlan], customers: &[CustomerPlan]) -> bool
    ensures { result ≡ list_any (is_same_port port) (ports_in links.now customers.now) }
{
    is_link_port(port, links) || is_customer_port(port, customers)
}

/// Checks whether the ends of a link are at two ports that no other link and no customer port uses.
fn has_free_ends(link: &LinkPlan, others: &[LinkPlan], customers: &[CustomerPlan]) -> bool
    ensures { IsTrue result ↔ HasFreeEnds link.now (ports_in others.now customers.now) }
{
    let a = (link.a.bridge, link.a.port);
    let b = (link.b.bridge, link.b.port);
    !is_same(a, b) && !is_used(a, others, customers) && !is_used(b, others, customers)
}

/// Checks whether no two customer ports are at the same local port.
fn customer_ports_differ(customers: &[CustomerPlan]) -> bool
    ensures { IsTrue result ↔ IsDistinct is_same_port (map (λ c. (c.bridge, c.port)) customers.now) }
{
    let mut rest = customers;
    while let [first, others @ ..] = rest {
        if is_customer_port((first.bridge, first.port), others) {
            return false;
        }
        rest = others;
    }
    true
}

/// Checks whether no local port is used twice, by links or customer ports.
pub(crate) fn ports_differ(links: &[LinkPlan], customers: &[CustomerPlan]) -> bool
    ensures { IsTrue result ↔ IsDistinct is_same_port (ports_in links.now customers.now) }
{
    let mut rest = links;
    while let [first, others @ ..] = rest {
        if !has_free_ends(first, others, customers) {
            return false;
        }
        rest = others;
    }
    customer_ports_differ(customers)
}
