//! The addresses that ports bind.

ghost use Rattle.std.specs.Prelude.{◌≡◌, is_none, true, All, IfSome, MatchOption, MatchResult};
ghost use Rattle.pb_run_ports.specs.Addresses.{Admits, Exposes, IsExposed, IsExposure, IsInside};

use crate::open_fault::{ExposedPort, OpenFault};
use pb_service::PortSpec;
use std::net::SocketAddr;

/// Returns the address that a port binds, if it is not loopback.
fn exposed_at(spec: &PortSpec) -> Option<SocketAddr>
    ensures { MatchOption result (IsInside spec.now) (Exposes spec.now) }
{
    match spec {
        PortSpec::Udp { local, .. } => {
            if local.ip().is_loopback() {
                None
            } else {
                Some(*local)
            }
        }
        PortSpec::Memory(_)
        | PortSpec::Capture { .. }
        | PortSpec::Record { .. }
        | PortSpec::Replay { .. }
        | PortSpec::Socket { .. } => None,
    }
}

/// Returns the first port that binds an address that is not loopback, if there is one.
fn find_exposed(specs: &[PortSpec]) -> Option<ExposedPort>
    ensures none { is_none result ≡ true → All IsInside specs.now }
    ensures some { IfSome result (IsExposed specs.now) }
{
    for (place, spec) in specs.iter().enumerate() {
        if let Some(local) = exposed_at(spec) {
            return Some(ExposedPort { place, local });
        }
    }
    None
}

/// Checks that no port binds an address that is not loopback, unless the network is allowed.
///
/// # Errors
///
/// `Exposed` at the first port that does.
pub(crate) fn check_addresses(specs: &[PortSpec], allows_network: bool) -> Result<(), OpenFault>
    ensures { MatchResult result (λ _. Admits allows_network specs.now) (IsExposure allows_network specs.now) }
{
    if allows_network {
        return Ok(());
    }
    match find_exposed(specs) {
        Some(port) => Err(OpenFault::Exposed(port)),
        None => Ok(()),
    }
}
