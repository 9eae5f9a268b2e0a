//! The links that a path may take.

ghost use Rattle.std.specs.Prelude.{◌≡◌, ◌==◌};
ghost use Rattle.std.specs.List.{list_any};
ghost use Rattle.pb_joins.specs.Joins.{TellsJoined};
ghost use Rattle.pb_lan.specs.Plans.{IsSound};
ghost use Rattle.pb_warnings.specs.Links.{is_member, passes, touches};

use pb_joins::marks;
use pb_lan::{End, LinkPlan, Plan};

/// The links that a path may take.
#[derive(Clone, Copy)]
pub(crate) enum Links {
    /// All links.
    All,
    /// The links whose two ends are members of the service with this number.
    Service(u8),
}

/// Checks whether a service is among these.
fn is_among(services: &[u8], service: u8) -> bool
    ensures { result ≡ list_any (λ s. s == service) services.now }
{
    services.iter().any(|s| *s == service)
}

/// Checks whether an end of a link is a member of a service. An end that lists no services is a member of all.
pub(crate) fn is_member(service: u8, end: &End) -> bool
    ensures { result ≡ is_member service end.now }
{
    match &end.services {
        None => true,
        Some(services) => is_among(services.as_slice(), service),
    }
}

/// Checks whether a path may take the link.
pub(crate) fn passes(links: Links, link: &LinkPlan) -> bool
    ensures { result ≡ passes links link.now }
{
    match links {
        Links::All => true,
        Links::Service(service) => is_member(service, &link.a) && is_member(service, &link.b),
    }
}

/// Returns a mark for each bridge. Two bridges have the same mark if and only if these links join them.
pub(crate) fn marks_by(plan: &Plan, links: Links) -> [u8; 32]
    requires { IsSound plan.now }
    ensures { TellsJoined plan.now (passes links) result }
{
    marks(plan, &|link: &LinkPlan| passes(links, link))
}

/// Checks whether the link ends at the bridge.
pub(crate) fn touches(bridge: u8, link: &LinkPlan) -> bool
    ensures { result ≡ touches bridge link.now }
{
    link.a.bridge == bridge || link.b.bridge == bridge
}
