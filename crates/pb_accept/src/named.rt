//! The numbers of the parts that acceptances name, from 1.

ghost use Rattle.std.specs.Prelude.{◌≡◌, ◌<◌, length, map};
ghost use Rattle.toml.specs.View.{view};
ghost use Rattle.pb_service.specs.Told.{number_from};
ghost use Rattle.pb_lan.specs.Plans.{IsSound};
ghost use Rattle.pb_accept.specs.Acceptances.{link_told, bridge_told, service_told};

use pb_lan::Plan;
use toml::Value;

/// Returns the number of the link with this name, if the plan has one.
pub(crate) fn link_named(plan: &Plan, name: &str) -> Option<u8>
    requires { length plan.now.links < 256 }
    ensures { result ≡ number_from 1 (map (λ l. l.name) plan.now.links) name.now }
{
    for (index, link) in plan.links.as_slice().iter().enumerate() {
        if name == link.name.as_str() {
            return Some(index as u8 + 1);
        }
    }
    None
}

/// Returns the number of the bridge with this name, if the plan has one.
pub(crate) fn bridge_named(plan: &Plan, name: &str) -> Option<u8>
    requires { length plan.now.bridges < 256 }
    ensures { result ≡ number_from 1 (map (λ b. b.name) plan.now.bridges) name.now }
{
    for (index, bridge) in plan.bridges.as_slice().iter().enumerate() {
        if name == bridge.name.as_str() {
            return Some(index as u8 + 1);
        }
    }
    None
}

/// Returns the number of the service with this name, if the plan has one.
pub(crate) fn service_named(plan: &Plan, name: &str) -> Option<u8>
    requires { length plan.now.services < 256 }
    ensures { result ≡ number_from 1 (map (λ s. s.name) plan.now.services) name.now }
{
    for (index, service) in plan.services.as_slice().iter().enumerate() {
        if name == service.name.as_str() {
            return Some(index as u8 + 1);
        }
    }
    None
}

/// Returns the number of the link that a value names.
pub(crate) fn link_told(plan: &Plan, value: &Value) -> Option<u8>
    requires { IsSound plan.now }
    ensures { result ≡ link_told plan.now (view value.now) }
{
    match value.as_str() {
        Some(name) => link_named(plan, name),
        None => None,
    }
}

/// Returns the number of the bridge that a value names.
pub(crate) fn bridge_told(plan: &Plan, value: &Value) -> Option<u8>
    requires { IsSound plan.now }
    ensures { result ≡ bridge_told plan.now (view value.now) }
{
    match value.as_str() {
        Some(name) => bridge_named(plan, name),
        None => None,
    }
}

/// Returns the number of the service that a value names.
pub(crate) fn service_told(plan: &Plan, value: &Value) -> Option<u8>
    requires { IsSound plan.now }
    ensures { result ≡ service_told plan.now (view value.now) }
{
    match value.as_str() {
        Some(name) => service_named(plan, name),
        None => None,
    }
}
