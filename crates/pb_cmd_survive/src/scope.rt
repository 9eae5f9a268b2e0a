//! The services to analyse.

ghost use Rattle.std.specs.Prelude.{◌≡◌, ◌++◌, ◌∷◌, [], string_bytes, IfOk, OnOk};
ghost use Rattle.pb_lan.specs.Numbering.{numbers_from};
ghost use Rattle.pb_lan.specs.Plans.{IsSound};
ghost use Rattle.pb_cmd_survive.specs.Scopes.{services_of, from_of, is_found, no_such_line};

use pb_frame::Memory;
use pb_lan::Plan;
use pb_names::{port_named, service_at, service_named};
use std::alloc::Global;

/// The services to analyse.
#[derive(Clone, Copy)]
pub enum Scope<'a> {
    /// All of them.
    All,
    /// The one with this name.
    Service(&'a str),
    /// The service of the customer port with this name, and of it only what that port reaches.
    From(&'a str),
}

/// Returns the numbers of all services of a plan, from 1.
///
/// # Errors
///
/// `Memory` if an allocation failed.
pub fn all_services(alloc: Global, plan: &Plan) -> Result<Vec<u8>, Memory>
    requires { IsSound plan.now }
    ensures { IfOk result (λ services. services.items ≡ numbers_from 1 plan.now.services) }
{
    let mut services = Vec::new(alloc);
    for (place, _) in plan.services.as_slice().iter().enumerate() {
        services.push(place as u8 + 1)?;
    }
    Ok(services)
}

/// Returns the list of one service.
fn one_service(alloc: Global, service: u8) -> Result<Vec<u8>, Memory>
    ensures { IfOk result (λ services. services.items ≡ service ∷ []) }
{
    let mut services = Vec::new(alloc);
    services.push(service)?;
    Ok(services)
}

/// Returns the numbers of the services to analyse.
pub(crate) fn services_of(alloc: Global, plan: &Plan, scope: &Scope<'_>) -> Result<Vec<u8>, Memory>
    requires { IsSound plan.now }
    ensures { IfOk result (λ services. services.items ≡ services_of plan.now scope.now) }
{
    match scope {
        Scope::All => all_services(alloc, plan),
        Scope::Service(name) => one_service(alloc, service_named(plan, name)),
        Scope::From(name) => one_service(alloc, service_at(plan, port_named(plan, name))),
    }
}

/// Returns the number of the requested customer port, if there is one.
pub(crate) fn from_of(plan: &Plan, scope: &Scope<'_>) -> Option<u8>
    requires { IsSound plan.now }
    ensures { result ≡ from_of plan.now scope.now }
{
    match scope {
        Scope::All | Scope::Service(_) => None,
        Scope::From(name) => Some(port_named(plan, name)),
    }
}

/// Checks whether the plan has the service or port of the scope.
pub(crate) fn is_found(plan: &Plan, scope: &Scope<'_>) -> bool
    requires { IsSound plan.now }
    ensures { result ≡ is_found plan.now scope.now }
{
    match scope {
        Scope::All => true,
        Scope::Service(name) => 0 < service_named(plan, name),
        Scope::From(name) => 0 < port_named(plan, name),
    }
}

/// Appends that the plan lacks the service or port of the scope.
pub(crate) fn put_no_such(out: &mut String, scope: &Scope<'_>) -> Result<(), Memory>
    ensures { OnOk result (string_bytes out.new ≡ string_bytes out.old ++ no_such_line scope.now) }
{
    match scope {
        Scope::All => {}
        Scope::Service(name) => writeln!(out, "no such service {name}")?,
        Scope::From(name) => writeln!(out, "no such port {name}")?,
    }
    Ok(())
}
