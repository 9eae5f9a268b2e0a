//! The services of a starter plan: names, VIDs and local ports.

ghost use Rattle.std.specs.Prelude.{◌≡◌, ◌≤◌, ◌++◌, flat_map, string_bytes, OnOk};
ghost use Rattle.std.specs.List.{range_with_len};
ghost use Rattle.pb_cmd_init.specs.PlanTexts.{service_text, services_text};
ghost use Rattle.pb_cmd_init.specs.Services.{service_count, service_name, service_vid, service_port, name_end};

use pb_frame::Memory;

/// The most services: four have a customer port at each of 32 sites, which are the 128 customer ports of a plan.
const MOST_SERVICES: u8 = 4;

/// The comment on services.
const SERVICES: &str = "\
\n\
# A service connects customer ports: a frame that enters one of them can leave only the others of this\n\
# service. Between bridges its frames have an S-tag with this VID, 1 to 4094.\n";

/// The comment on customer ports.
const PORTS: &str = "\
# The customer ports. Each is a port of a bridge.\n";

/// Returns the number of services, if there are to be so many: at most four.
pub(crate) fn services_of(asked: u8) -> u8
    ensures { result ≡ service_count asked }
{
    asked.min(MOST_SERVICES)
}

/// Returns the name of the service with this number.
pub(crate) fn service_name(service: u8) -> &'static str
    ensures { result.now ≡ service_name service }
{
    match service {
        1 => "red",
        2 => "blue",
        3 => "green",
        _ => "yellow",
    }
}

/// Returns the VID of a service.
fn service_vid(service: u8) -> u16
    ensures { result ≡ service_vid service }
{
    100 * u16::from(service)
}

/// Returns what follows the number of a site in the names of this service's customer ports.
pub(crate) fn name_end(service: u8) -> &'static str
    ensures { result.now ≡ name_end service }
{
    match service {
        1 => "",
        2 => "-blue",
        3 => "-green",
        _ => "-yellow",
    }
}

/// Returns the local port of a service's customer ports.
pub(crate) fn service_port(service: u8) -> u8
    requires { service ≤ 4 }
    ensures { result ≡ service_port service }
{
    service + 2
}

/// Appends a service to a text.
///
/// # Errors
///
/// `Memory` if an allocation failed. A part of it may follow the text then.
fn put_service(out: &mut String, service: u8) -> Result<(), Memory>
    ensures { OnOk result (string_bytes out.new ≡ string_bytes out.old ++ service_text service) }
{
    let name = service_name(service);
    let vid = service_vid(service);
    write!(out, "[[service]]\nname = \"{name}\"\nvid = {vid}\n\n")?;
    Ok(())
}

/// Appends the tables of all services to a text.
///
/// # Errors
///
/// `Memory` if an allocation failed. A part of them may follow the text then.
fn put_tables(out: &mut String, services: u8) -> Result<(), Memory>
    ensures { OnOk result (string_bytes out.new ≡ string_bytes out.old
        ++ flat_map service_text (range_with_len 1 services)) }
{
    for before in 0..services {
        put_service(out, before + 1)?;
    }
    Ok(())
}

/// Appends all services to a text, with the comments on services and on customer ports.
///
/// # Errors
///
/// `Memory` if an allocation failed. A part of them may follow the text then.
pub(crate) fn put_services(out: &mut String, services: u8) -> Result<(), Memory>
    ensures { OnOk result (string_bytes out.new ≡ string_bytes out.old ++ services_text services) }
{
    out.push_str(SERVICES)?;
    put_tables(out, services)?;
    out.push_str(PORTS)?;
    Ok(())
}
