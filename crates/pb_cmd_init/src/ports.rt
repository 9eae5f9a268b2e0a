//! The customer ports of a starter plan.

ghost use Rattle.std.specs.Prelude.{◌≡◌, ◌≤◌, ◌++◌, flat_map, string_bytes, OnOk};
ghost use Rattle.std.specs.List.{range_with_len};
ghost use Rattle.pb_cmd_init.specs.PlanTexts.{first_text, port_text, ports_text};
ghost use Rattle.pb_cmd_init.specs.Topologies.{site_count};

use crate::services::{name_end, service_name, service_port};
use crate::topology::Topology;
use pb_frame::Memory;

/// The further keys of the first customer port.
const FIRST: &str = "\
# The frames that enter here, in hexadecimal digits: one broadcast (destination, source, type, data).\n\
in = [\"ffffffffffff02000000010108004142\"]\n\
# The kind, the priority of frames without a priority tag, and the frames that wait for the device:\n\
#kind = \"memory\"\n\
#pcp = 0\n\
#queue = 64\n";

/// Returns the further keys of a service's customer port at a site: those of the first port, else nothing.
fn further_keys(service: u8, site: u8) -> &'static str
    ensures { result.now ≡ first_text service site }
{
    if service == 1 && site == 1 { FIRST } else { "" }
}

/// Appends a service's customer port at a site to a text.
///
/// # Errors
///
/// `Memory` if an allocation failed. A part of it may follow the text then.
fn put_port(out: &mut String, topology: Topology, service: u8, site: u8) -> Result<(), Memory>
    requires service { service ≤ 4 }
    requires site { site ≤ site_count topology }
    ensures { OnOk result (string_bytes out.new ≡ string_bytes out.old ++ port_text topology service site) }
{
    let end = name_end(service);
    let bridge = topology.site_bridge(site);
    let port = service_port(service);
    let name = service_name(service);
    let further = further_keys(service, site);
    write!(
        out,
        "\n[[port]]\nname = \"C{site}{end}\"\nbridge = \"B{bridge}\"\nport = {port}\nservice = \"{name}\"\n{further}"
    )?;
    Ok(())
}

/// Appends a service's customer ports at all sites to a text.
///
/// # Errors
///
/// `Memory` if an allocation failed. A part of them may follow the text then.
fn put_ports_of(out: &mut String, topology: Topology, service: u8) -> Result<(), Memory>
    requires { service ≤ 4 }
    ensures { OnOk result (string_bytes out.new ≡ string_bytes out.old ++ ports_text topology service) }
{
    for before in 0..topology.sites() {
        put_port(out, topology, service, before + 1)?;
    }
    Ok(())
}

/// Appends the customer ports of all services to a text.
///
/// # Errors
///
/// `Memory` if an allocation failed. A part of them may follow the text then.
pub(crate) fn put_ports(out: &mut String, topology: Topology, services: u8) -> Result<(), Memory>
    requires { services ≤ 4 }
    ensures { OnOk result (string_bytes out.new ≡ string_bytes out.old
        ++ flat_map (ports_text topology) (range_with_len 1 services)) }
{
    for before in 0..services {
        put_ports_of(out, topology, before + 1)?;
    }
    Ok(())
}
