//! The spanning trees of a network's bridges, whether they are settled, and whether they have converged.

ghost use Rattle.std.specs.Option.{option_copied};
ghost use Rattle.std.specs.Prelude.{◌≡◌, true, map, IfOk};
ghost use Rattle.pb_lan.specs.Events.{has_place};
ghost use Rattle.pb_lan.specs.Records.{steps_of};
ghost use Rattle.pb_lan.specs.declared.plan.Spanning.TheVariants.{Rstp as by_protocol};
ghost use Rattle.pb_lan.specs.declared.step.Place.TheVariants.{Bridge};
ghost use Rattle.pb_relay.specs.Machines.{machine_in};
ghost use Rattle.pb_relay.specs.Settled.{TellsSettled, TellsConverged, machines_in};

use crate::net::Net;
use pb_frame::{Memory, index_of};
use pb_lan::Spanning;
use pb_rstp::{Rstp, is_converged, is_settled, planned_are_machines};
use std::alloc::Global;

impl Net {
    /// Returns the spanning trees of the bridges, in the plan's order.
    ///
    /// # Errors
    ///
    /// `Memory` if the allocation of the list failed.
    pub fn machines(&self, alloc: Global) -> Result<Vec<&Rstp>, Memory>
        requires { self.now.plan.spanning ≡ by_protocol }
        ensures { IfOk result (λ machines. map (λ m. m.now) machines.items ≡ machines_in self.now.plan self.now.rec) }
    {
        let mut machines = Vec::with_capacity(alloc, self.bridges.len())?;
        for bridge in &self.bridges {
            let Some(machine) = bridge.rstp() else {
                unreachable!();
            };
            machines.push(machine)?;
        }
        Ok(machines)
    }

    /// Returns the spanning tree of a bridge, which shows the roles of its ports (IEEE 802.1D-2004 clause 17.7), or
    /// `None` if the plan gives the states of the ports. Allocates nothing.
    pub fn rstp(&self, bridge: u8) -> Option<&Rstp>
        requires { has_place self.now.plan (Bridge bridge) ≡ true }
        ensures { option_copied result ≡ machine_in self.now.plan bridge (steps_of self.now.rec.bridges bridge) }
    {
        self.bridges[index_of(bridge)].rstp()
    }

    /// Checks whether the bridges are settled (IEEE 802.1D-2004 clause 17). Returns `None` if the plan gives the states
    /// of the ports.
    ///
    /// The bridges are settled if each link with both ends enabled has exactly one Designated end, the other end stores
    /// what that one offers, each port has the role that follows from the vectors, and only Root and Designated ports
    /// are Forwarding. A settled tree may still have a link that carries no frame: see [`Net::converged`]. The result
    /// holds for this moment: later steps may change it.
    ///
    /// # Errors
    ///
    /// `Memory` if the allocation of a list of the bridges failed.
    pub fn settled(&self, alloc: Global) -> Result<Option<bool>, Memory>
        ensures { IfOk result (TellsSettled self.now.plan self.now.rec) }
    {
        match self.plan.spanning {
            Spanning::Fixed => Ok(None),
            Spanning::Rstp => {
                planned_are_machines();
                let machines = self.machines(alloc)?;
                Ok(Some(is_settled(machines.as_slice(), &self.plan)))
            }
        }
    }

    /// Checks whether the bridges have converged (IEEE 802.1D-2004 clause 17). Returns `None` if the plan gives the
    /// states of the ports.
    ///
    /// The bridges have converged if they are settled ([`Net::settled`]), an end that is enabled alone is Designated,
    /// and both ends of each enabled link with a Root port are Forwarding: each link of the tree carries frames. The
    /// result holds for this moment: later steps may change it.
    ///
    /// # Errors
    ///
    /// `Memory` if the allocation of a list of the bridges failed.
    pub fn converged(&self, alloc: Global) -> Result<Option<bool>, Memory>
        ensures { IfOk result (TellsConverged self.now.plan self.now.rec) }
    {
        match self.plan.spanning {
            Spanning::Fixed => Ok(None),
            Spanning::Rstp => {
                planned_are_machines();
                let machines = self.machines(alloc)?;
                Ok(Some(is_converged(machines.as_slice(), &self.plan)))
            }
        }
    }
}
