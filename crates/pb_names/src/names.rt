//! The names of the parts of a plan, by their numbers.

ghost use Rattle.std.specs.Prelude.{◌≡◌};
ghost use Rattle.pb_rstp.specs.Vectors.{bridge_id};
ghost use Rattle.pb_names.specs.Names.{bridge_name, link_name, service_name, port_name};

use byteorder::{BigEndian, ByteOrder};
use pb_forest::numbered;
use pb_frame::Mac;
use pb_lan::Plan;

/// Returns the name of the bridge with this number, from 1, or the empty text if there is none.
pub fn bridge_name(plan: &Plan, number: u8) -> &str
    ensures { result.now ≡ bridge_name plan.now number }
{
    match numbered(plan.bridges.as_slice(), number as usize) {
        None => "",
        Some(bridge) => bridge.name.as_str(),
    }
}

/// Returns the name of the link with this number, from 1, or the empty text if there is none.
pub fn link_name(plan: &Plan, number: u8) -> &str
    ensures { result.now ≡ link_name plan.now number }
{
    match numbered(plan.links.as_slice(), number as usize) {
        None => "",
        Some(link) => link.name.as_str(),
    }
}

/// Returns the name of the service with this number, from 1, or the empty text if there is none.
pub fn service_name(plan: &Plan, number: u8) -> &str
    ensures { result.now ≡ service_name plan.now number }
{
    match numbered(plan.services.as_slice(), number as usize) {
        None => "",
        Some(service) => service.name.as_str(),
    }
}

/// Returns the name of the customer port with this number, from 1, or the empty text if there is none.
pub fn port_name(plan: &Plan, number: u8) -> &str
    ensures { result.now ≡ port_name plan.now number }
{
    match numbered(plan.customers.as_slice(), number as usize) {
        None => "",
        Some(customer) => customer.name.as_str(),
    }
}

/// Returns the identifier of a bridge with this priority and address: the priority times 2^48 plus the address (IEEE
/// 802.1D-2004 clause 9.2.5).
pub fn bridge_id(priority: u16, address: Mac) -> u64
    ensures { result ≡ bridge_id priority address.0 }
{
    priority as u64 * 0x1_0000_0000_0000 + BigEndian::read_uint(&address.0, 6)
}
