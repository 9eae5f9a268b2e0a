//! Ticks and enabling of ports, if the protocol decides the states.

ghost use Rattle.std.specs.Prelude.{◌≡◌, ◌↔◌, length, true, OnOk, OnErr, IsErrOf};
ghost use Rattle.pb_lan.specs.Ports.{port_at, is_provider};
ghost use Rattle.pb_lan.specs.declared.plan.Spanning.TheVariants.{Rstp};
ghost use Rattle.pb_relay.specs.Changes.{HasTicked, HasSet};

use crate::bpdus::BpduRoom;
use crate::bridge::{Bridge, append};
use crate::fault::BridgeFault;
use crate::following::follow;
use crate::protocol::{admin, tick};
use pb_frame::Memory;
use pb_lan::Step;

impl Bridge {
    /// Advances the clock and the spanning tree by one tick. The bridge is unchanged after a fault.
    pub(crate) fn tick_tree(&mut self) -> Result<(), BridgeFault>
        requires { self.old.plan.spanning ≡ Rstp }
        ensures ok { OnOk result (HasTicked self.old self.new) }
        ensures err { OnErr result (self.new ≡ self.old) }
        ensures limit { IsErrOf result BridgeFault.StepLimit ↔ (length self.old.steps ≡ self.old.plan.steps) }
    {
        let was_reserved = self.steps.has_room();
        self.reserve_step()?;
        if self.advance_tree().is_err() {
            self.steps.keep_room(was_reserved);
            return Err(BridgeFault::Memory);
        }
        Ok(())
    }

    /// Advances the clock, applies what the spanning tree changes and appends the Tick step.
    fn advance_tree(&mut self) -> Result<(), Memory>
        requires reserved { self.old.is_reserved ≡ true }
        requires rstp { self.old.plan.spanning ≡ Rstp }
        ensures ok { OnOk result (HasTicked self.old self.new) }
        ensures err { OnErr result (self.new ≡ self.old) }
    {
        let room = BpduRoom::new(self.alloc, self.plan.queues)?;
        let Some(change) = tick(&mut self.rstp)? else {
            unreachable!();
        };
        self.clock += 1;
        self.forwarding.table.expire(self.clock);
        let moved = follow(&mut self.forwarding, change, room, self.address);
        append(
            &mut self.steps,
            Step::Tick {
                now: self.clock,
                moved,
            },
        );
        Ok(())
    }

    /// Enables or disables a port to another bridge. The bridge is unchanged after a fault.
    pub(crate) fn admin_tree(&mut self, port: u8, up: bool) -> Result<(), BridgeFault>
        requires rstp { self.old.plan.spanning ≡ Rstp }
        requires provider { is_provider (port_at self.old.plan self.old.number port) ≡ true }
        ensures ok { OnOk result (HasSet self.old port up self.new) }
        ensures err { OnErr result (self.new ≡ self.old) }
        ensures limit { IsErrOf result BridgeFault.StepLimit ↔ (length self.old.steps ≡ self.old.plan.steps) }
    {
        let was_reserved = self.steps.has_room();
        self.reserve_step()?;
        if self.set_tree(port, up).is_err() {
            self.steps.keep_room(was_reserved);
            return Err(BridgeFault::Memory);
        }
        Ok(())
    }

    /// Enables or disables a port, applies what the spanning tree changes and appends the Admin step.
    fn set_tree(&mut self, port: u8, up: bool) -> Result<(), Memory>
        requires reserved { self.old.is_reserved ≡ true }
        requires rstp { self.old.plan.spanning ≡ Rstp }
        requires provider { is_provider (port_at self.old.plan self.old.number port) ≡ true }
        ensures ok { OnOk result (HasSet self.old port up self.new) }
        ensures err { OnErr result (self.new ≡ self.old) }
    {
        let room = BpduRoom::new(self.alloc, self.plan.queues)?;
        let Some(change) = admin(&mut self.rstp, port, up)? else {
            unreachable!();
        };
        let moved = follow(&mut self.forwarding, change, room, self.address);
        append(&mut self.steps, Step::Admin { port, up, moved });
        Ok(())
    }
}
