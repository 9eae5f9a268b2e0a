//! Copies of a bridge.

ghost use Rattle.std.specs.Prelude.{◌≡◌, IfOk};

use crate::bridge::Bridge;
use crate::forwarding::Forwarding;
use crate::ports::LocalPorts;
use pb_lan::Plan;
use pb_rstp::Rstp;
use std::alloc::AllocError;

/// Returns copies of a plan and of local ports.
fn copied_setting(plan: &Plan, ports: &LocalPorts) -> Result<(Plan, LocalPorts), AllocError>
    ensures plan { IfOk result (λ copies. copies.0 ≡ plan.now) }
    ensures ports { IfOk result (λ copies. copies.1 ≡ ports.now) }
{
    let copy = plan.clone()?;
    Ok((copy, ports.clone()?))
}

/// Returns copies of a forwarding state and of a spanning tree.
fn copied_state(
    forwarding: &Forwarding,
    rstp: &Option<Rstp>,
) -> Result<(Forwarding, Option<Rstp>), AllocError>
    ensures forwarding { IfOk result (λ copies. copies.0 ≡ forwarding.now) }
    ensures rstp { IfOk result (λ copies. copies.1 ≡ rstp.now) }
{
    let copy = forwarding.clone()?;
    Ok((copy, rstp.clone()?))
}

/// The copy is equal.
impl Clone for Bridge {
    ghost is_clone = { λ bridge copy. copy ≡ bridge };

    fn clone(&self) -> Result<Bridge, AllocError> {
        let (plan, ports) = copied_setting(&self.plan, &self.ports)?;
        let (forwarding, rstp) = copied_state(&self.forwarding, &self.rstp)?;
        Ok(Bridge {
            alloc: self.alloc,
            plan,
            number: self.number,
            ports,
            forwarding,
            limit: self.limit,
            clock: self.clock,
            address: self.address,
            rstp,
            steps: self.steps.clone()?,
        })
    }
}
