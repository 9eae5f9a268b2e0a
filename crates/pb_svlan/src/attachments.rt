//! The ports with roles, ascending.

ghost use Rattle.std.specs.Prelude.{◌≡◌, insert, map, option_copied, OnOk, OnErr};
ghost use Rattle.pb_frame.specs.Lists.{Rises};
ghost use Rattle.pb_svlan.specs.ServiceTables.{kind_in, place_of};

use crate::port::{Attachment, PortKind};
use std::alloc::AllocError;

/// Returns the role of the port. If the ports from 1 to it all have roles, it is found without a search.
pub(crate) fn kind_at(ports: &[Attachment], port: u8) -> Option<&PortKind>
    requires { Rises (map (λ a. a.port) ports.now) }
    ensures { option_copied result ≡ kind_in ports.now port }
{
    match ports.get(usize::from(port.saturating_sub(1))) {
        Some(attachment) if attachment.port == port => Some(&attachment.kind),
        _ => searched(ports, port),
    }
}

/// Searches the ports for this one and returns its role.
fn searched(ports: &[Attachment], port: u8) -> Option<&PortKind>
    ensures { option_copied result ≡ kind_in ports.now port }
{
    for attachment in ports {
        if attachment.port == port {
            return Some(&attachment.kind);
        }
    }
    None
}

/// Inserts a port at its place among the ascending ports.
///
/// # Errors
///
/// `AllocError` if an allocation failed. The ports are unchanged then.
pub(crate) fn attach(ports: &mut Vec<Attachment>, attachment: Attachment) -> Result<(), AllocError>
    ensures ok { OnOk result (ports.new.items
        ≡ insert ports.old.items (place_of attachment.port ports.old.items) attachment) }
    ensures err { OnErr result (ports.new.items ≡ ports.old.items) }
{
    let place = place_of(ports, attachment.port);
    ports.insert(place, attachment)?;
    Ok(())
}

/// Returns the index at which a port is inserted to keep the ports ascending.
fn place_of(ports: &[Attachment], port: u8) -> usize
    ensures { result ≡ place_of port ports.now }
{
    let mut place = 0;
    for attachment in ports {
        if attachment.port >= port {
            return place;
        }
        place += 1;
    }
    place
}
