//! The services to compare.

ghost use Rattle.std.specs.Prelude.{◌≡◌, ◌++◌, map, string_bytes, IfOk, OnOk};
ghost use Rattle.pb_lan.specs.Plans.{IsSound};
ghost use Rattle.pb_cmd_diff.specs.Compared.{service_in, is_asked, is_compared, old_services};
ghost use Rattle.pb_cmd_diff.specs.Compared.{is_found, no_such_line};

use pb_frame::Memory;
use pb_lan::Plan;
use pb_names::{service_name, service_named};
use std::alloc::Global;

/// The services to compare, of those that both plans have.
#[derive(Clone, Copy)]
pub enum Compared<'a> {
    /// All of them.
    All,
    /// The one with this name.
    Service(&'a str),
}

/// Returns the number that a service of OLD has in NEW, by its name, or 0 if NEW has none.
fn service_in(old: &Plan, new: &Plan, number: u8) -> u8
    requires { IsSound new.now }
    ensures { result ≡ service_in old.now new.now number }
{
    service_named(new, service_name(old, number))
}

/// Checks whether the service with this name is requested.
fn is_asked(compared: &Compared<'_>, name: &str) -> bool
    ensures { result ≡ is_asked compared.now name.now }
{
    match compared {
        Compared::All => true,
        Compared::Service(asked) => *asked == name,
    }
}

/// Checks whether a service of OLD is to be compared.
fn is_compared(old: &Plan, new: &Plan, compared: &Compared<'_>, number: u8) -> bool
    requires { IsSound new.now }
    ensures { result ≡ is_compared old.now new.now compared.now number }
{
    let (there, asked) = (
        service_in(old, new, number),
        is_asked(compared, service_name(old, number)),
    );
    0 < there && asked
}

/// Returns the numbers in OLD of the services to compare, in its order.
pub(crate) fn old_services(
    alloc: Global,
    old: &Plan,
    new: &Plan,
    compared: &Compared<'_>,
) -> Result<Vec<u8>, Memory>
    requires old { IsSound old.now }
    requires new { IsSound new.now }
    ensures { IfOk result (λ services. services.items ≡ old_services old.now new.now compared.now) }
{
    let mut services = Vec::new(alloc);
    for (place, _) in old.services.as_slice().iter().enumerate() {
        if is_compared(old, new, compared, place as u8 + 1) {
            services.push(place as u8 + 1)?;
        }
    }
    Ok(services)
}

/// Returns the numbers in NEW of services of OLD, by their names.
pub(crate) fn services_in(
    alloc: Global,
    old: &Plan,
    new: &Plan,
    services: &[u8],
) -> Result<Vec<u8>, Memory>
    requires { IsSound new.now }
    ensures { IfOk result (λ news. news.items ≡ map (service_in old.now new.now) services.now) }
{
    let mut news = Vec::new(alloc);
    for service in services {
        news.push(service_in(old, new, *service))?;
    }
    Ok(news)
}

/// Checks whether one of the plans has the requested service.
pub(crate) fn is_found(old: &Plan, new: &Plan, compared: &Compared<'_>) -> bool
    requires old { IsSound old.now }
    requires new { IsSound new.now }
    ensures { result ≡ is_found old.now new.now compared.now }
{
    match compared {
        Compared::All => true,
        Compared::Service(name) => 0 < service_named(old, name) || 0 < service_named(new, name),
    }
}

/// Appends that neither plan has the requested service.
pub(crate) fn put_no_such(out: &mut String, compared: &Compared<'_>) -> Result<(), Memory>
    ensures { OnOk result (string_bytes out.new ≡ string_bytes out.old ++ no_such_line compared.now) }
{
    match compared {
        Compared::All => {}
        Compared::Service(name) => writeln!(out, "no such service {name}")?,
    }
    Ok(())
}
