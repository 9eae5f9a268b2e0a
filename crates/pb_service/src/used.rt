//! The local ports that are in use.

ghost use Rattle.std.specs.Prelude.{◌≡◌, ◌⊎◌, ◌++◌, ◌∷◌, [], true, false, OnOk, IfErr};
ghost use Rattle.pb_service.specs.UsedPorts.{is_used};
ghost use Rattle.pb_service.specs.declared.fault.PlanFault.TheVariants.{LinkEnd as link_end_fault};
ghost use Rattle.pb_service.specs.declared.fault.PlanFault.TheVariants.{Memory as memory_fault};

use crate::fault::PlanFault;

/// A local port of a bridge, by the bridge's number in the plan from 1.
#[derive(Clone, Copy)]
pub(crate) struct LocalPort {
    pub bridge: u8,
    pub port: u8,
}

/// Returns whether the port is in use.
pub(crate) fn is_used(used: &[LocalPort], port: LocalPort) -> bool
    ensures { result ≡ is_used used.now port }
{
    for other in used {
        if other.bridge == port.bridge && other.port == port.port {
            return true;
        }
    }
    false
}

/// Appends a port to those in use.
///
/// # Errors
///
/// `LinkEnd` if the port is in use already, `Memory` if an allocation failed.
pub(crate) fn use_port(used: &mut Vec<LocalPort>, port: LocalPort) -> Result<(), PlanFault>
    ensures ok { OnOk result (used.new.items ≡ used.old.items ++ port ∷ []) }
    ensures free { OnOk result (is_used used.old.items port ≡ false) }
    ensures err { IfErr result (λ e. (e ≡ memory_fault) ⊎ ((e ≡ link_end_fault)
        × (is_used used.old.items port ≡ true))) }
{
    if is_used(used, port) {
        return Err(PlanFault::LinkEnd);
    }
    used.push(port)?;
    Ok(())
}
