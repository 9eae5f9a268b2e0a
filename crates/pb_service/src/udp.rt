//! The addresses and the network of a customer port over datagrams.

ghost use Rattle.std.specs.Prelude.{◌≡◌, codes, IsSome, IfSome, IfNone, IfOk, IfErr};
ghost use Rattle.std.specs.declared.net.SocketAddr.{SocketAddr};
ghost use Rattle.toml.specs.View.{table_view};
ghost use Rattle.pb_service.specs.Values.{IsSocketAddress, HasSocketAddress};
ghost use Rattle.pb_service.specs.Tables.{text_at, AreOneFamily, AreAddressesOf, network_told};
ghost use Rattle.pb_service.specs.Refusals.{RefusesRemote};

use crate::fault::PlanFault;
use crate::formats::is_bare;
use crate::key_fault::KeyFault;
use crate::row::told;
use crate::section::{KeyTable, Section};
use crate::told::{number_at, text_at};
use std::alloc::Global;
use std::net::SocketAddr;
use std::str::FromStr;
use toml::Table;

/// Returns the socket address that the text denotes. Returns `None` if its port is 0, and for other texts.
pub(crate) fn socket_address(text: &str) -> Option<SocketAddr>
    ensures found { IfSome result (IsSocketAddress text.now) }
    ensures none { IfNone result (HasSocketAddress text.now → ⊥) }
    ensures some { HasSocketAddress text.now → IsSome result }
{
    match SocketAddr::from_str(text) {
        Err(_) => None,
        Ok(address) => {
            if address.port() == 0 {
                None
            } else {
                Some(address)
            }
        }
    }
}

/// Returns the two addresses of a port, that at which datagrams arrive first.
///
/// # Errors
///
/// `Range` if they are of different families, `Memory` if an allocation failed.
pub(crate) fn addresses_of(
    alloc: Global,
    row: &Table,
    index: usize,
) -> Result<(SocketAddr, SocketAddr), PlanFault>
    requires local { HasSocketAddress (text_at (table_view row.now) (codes "local")) }
    requires remote { HasSocketAddress (text_at (table_view row.now) (codes "remote")) }
    ensures ok { IfOk result (λ r. AreAddressesOf (table_view row.now) r.0 r.1 × AreOneFamily r.0 r.1) }
    ensures err { IfErr result (RefusesRemote index (table_view row.now)) }
{
    let local = socket_address(text_at(row, "local")).unwrap();
    let remote = socket_address(text_at(row, "remote")).unwrap();
    if local.is_ipv4() != remote.is_ipv4() {
        let key_table = KeyTable::Row(Section::Port, index);
        return Err(told(alloc, key_table, "remote", KeyFault::Range));
    }
    Ok((local, remote))
}

/// Returns the network in the header of each datagram, if datagrams have one.
pub(crate) fn network_of(row: &Table) -> Option<u32>
    ensures { result ≡ network_told (table_view row.now) }
{
    if is_bare(row) {
        None
    } else {
        Some(number_at(row, "vni", 0, 16_777_215) as u32)
    }
}
