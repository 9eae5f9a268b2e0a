//! A bridge: its ports, its steps and what it sends.

ghost use Rattle.std.specs.Option.{option_copied};
ghost use Rattle.std.specs.Prelude.{◌≡◌, ◌<◌, ◌↔◌, length, true, OnOk, OnErr, IsErrOf, IsOk};
ghost use Rattle.pb_lan.specs.BridgeLists.{IsLawfulBridge, Fits};
ghost use Rattle.pb_lan.specs.Ports.{port_at, is_used, is_provider};
ghost use Rattle.pb_lan.specs.Queues.{waiting, next_out};
ghost use Rattle.pb_relay.specs.Protocol.{spanning_tree};
ghost use Rattle.pb_lan.specs.Shapes.{states_after};
ghost use Rattle.pb_history.specs.StepLists.{with_step as steps_with};
ghost use Rattle.pb_lan.specs.declared.step.Step.TheVariants.{Transmit};
ghost use Rattle.pb_relay.specs.Machines.{machine_in};
ghost use Rattle.pb_relay.specs.Standing.{with_step};

use crate::departure::depart;
use crate::fault::BridgeFault;
use crate::forwarding::Forwarding;
use crate::ports::{LocalPorts, PORTS, is_bridge, is_customer};
use pb_frame::{Mac, index_of};
use pb_history::Steps;
use pb_lan::{Item, Plan, PortState, Step};
use pb_rstp::Rstp;
use std::alloc::Global;
use std::marker::Model;

/// A bridge of a sound plan. The plan or the Rapid Spanning Tree Protocol decides the states of its ports.
///
/// Contracts see the plan, the bridge's number there, the list of its steps, whether the steps are kept or only
/// counted, and whether a step is reserved. The list is always lawful. The states, the queues, the learning table and
/// the spanning tree follow from it.
#[derive(Drop)]
pub struct Bridge {
    pub(crate) alloc: Global,
    /// The whole plan, to which contracts refer.
    pub(crate) plan: Plan,
    /// The number of the bridge in the plan, from 1.
    pub(crate) number: u8,
    /// The kinds of the local ports 1 to 16.
    pub(crate) ports: LocalPorts,
    /// The states of the local ports, the learning table and the queues.
    pub(crate) forwarding: Forwarding,
    /// The most steps that the bridge takes.
    pub(crate) limit: u64,
    /// The number of ticks.
    pub(crate) clock: u64,
    /// The address of the bridge, the source address of its BPDUs.
    pub(crate) address: Mac,
    /// The spanning tree, if the protocol decides the states.
    pub(crate) rstp: Option<Rstp>,
    pub(crate) steps: Steps,
}

impl Model for Bridge {
    ghost use Rattle.std.specs.Prelude.{◌≡◌};
    ghost use Rattle.pb_relay.specs.Standing.{BridgeView, IsStanding, HasRoom};
    ghost use Rattle.pb_relay.specs.Tables.{IsTableOf};
    ghost use Rattle.pb_relay.specs.LocalPorts.{IsConfigured};
    ghost use Rattle.pb_relay.specs.Machines.{IsSpanning};

    ghost Value = { BridgeView };

    ghost view = { λ b. record {
      plan = b.plan;
      number = b.number;
      steps = b.steps.steps;
      is_kept = b.steps.is_kept;
      is_reserved = b.steps.is_reserved;
    } };

    ghost invariant = { λ b. IsConfigured b.plan b.number b.ports b.forwarding.backlog.capacity b.limit
        × IsStanding b.plan b.number b.steps.steps b.forwarding.states b.forwarding.backlog.ports b.clock
        b.forwarding.table.sightings
        × HasRoom b.steps.steps b.limit b.steps.is_reserved
        × IsTableOf b.plan b.clock b.forwarding.table
        × IsSpanning b.plan b.number b.steps.steps b.rstp b.address.0
        × (b.forwarding.backlog.is_kept ≡ b.steps.is_kept) };
}

/// Appends a step. A step that is only counted is dropped.
#[inline(always)]
pub(crate) fn append(steps: &mut Steps, step: Step)
    requires { steps.old.is_reserved ≡ true }
    ensures steps { steps.new ≡ steps_with steps.old step }
{
    let _ = steps.append(step);
}

impl Bridge {
    /// Returns the steps if they are kept, and none if they are only counted.
    pub fn steps(&self) -> &[Step]
        ensures steps { self.now.is_kept ≡ true → result.now ≡ self.now.steps }
        ensures lawful { IsLawfulBridge spanning_tree self.now.plan self.now.number self.now.steps }
    {
        self.steps.as_slice()
    }

    /// Returns the number of steps.
    #[inline(always)]
    pub fn step_count(&self) -> u64
        ensures { result ≡ length self.now.steps }
    {
        self.steps.len()
    }

    /// Returns the steps, kept or counted, and drops the rest of the bridge. Allocates nothing.
    pub fn into_steps(self) -> Steps
        ensures steps { result.steps ≡ self.steps }
        ensures kept { result.is_kept ≡ self.is_kept }
        ensures lawful { IsLawfulBridge spanning_tree self.plan self.number self.steps }
    {
        let Bridge {
            alloc: _,
            plan: _,
            number: _,
            ports: _,
            forwarding: _,
            limit: _,
            clock: _,
            address: _,
            rstp: _,
            steps,
        } = self;
        steps
    }

    /// Reserves memory for one step. After that `pop_out` allocates nothing.
    ///
    /// Succeeds if a step is reserved already.
    ///
    /// # Errors
    ///
    /// `StepLimit` if and only if the list has as many steps as the plan allows. `Memory` if an allocation failed. The
    /// bridge is unchanged then.
    pub fn reserve_step(&mut self) -> Result<(), BridgeFault>
        ensures ok { OnOk result (self.new ≡ record self.old { is_reserved = true }) }
        ensures err { OnErr result (self.new ≡ self.old) }
        ensures limit { IsErrOf result BridgeFault.StepLimit ↔ (length self.old.steps ≡ self.old.plan.steps) }
        ensures reserved { self.old.is_reserved ≡ true → IsOk result }
    {
        if self.steps.len() == self.limit {
            return Err(BridgeFault::StepLimit);
        }
        self.steps.reserve()?;
        Ok(())
    }

    /// Checks whether the bridge uses this local port, for a customer or for another bridge. Any number is allowed.
    pub fn has_port(&self, port: u8) -> bool
        ensures { result ≡ is_used (port_at self.now.plan self.now.number port) }
    {
        let ports = &self.ports;
        if port == 0 || port as usize > PORTS {
            return false;
        }
        let local = ports.at(index_of(port));
        is_customer(local) | is_bridge(local)
    }

    /// Checks whether this local port goes to another bridge. Any number is allowed.
    pub fn has_link(&self, port: u8) -> bool
        ensures { result ≡ is_provider (port_at self.now.plan self.now.number port) }
    {
        let ports = &self.ports;
        if port == 0 || port as usize > PORTS {
            return false;
        }
        is_bridge(ports.at(index_of(port)))
    }

    /// Returns the number of items that wait at a port, in all traffic classes together.
    pub fn waiting(&self, port: u8) -> u16
        requires { is_used (port_at self.now.plan self.now.number port) ≡ true }
        ensures { result ≡ length (waiting self.now.plan self.now.number port self.now.steps) }
    {
        self.forwarding.backlog.waiting(index_of(port)) as u16
    }

    /// Returns the item that leaves a port next, or None if nothing waits: the oldest of the highest class (IEEE 802.1Q
    /// clause 8, strict priority).
    pub fn peek_out(&self, port: u8) -> Option<&Item>
        requires { is_used (port_at self.now.plan self.now.number port) ≡ true }
        ensures { option_copied result ≡ next_out (waiting self.now.plan self.now.number port self.now.steps) }
    {
        self.forwarding.backlog.first(index_of(port))
    }

    /// Takes the item that leaves a port next, appends its Transmit step and returns it. Allocates nothing.
    ///
    /// A step must be reserved, and an item must wait at the port.
    #[inline(always)]
    pub fn pop_out(&mut self, port: u8) -> Item
        requires used { is_used (port_at self.old.plan self.old.number port) ≡ true }
        requires reserved { self.old.is_reserved ≡ true }
        requires some { 0 < length (waiting self.old.plan self.old.number port self.old.steps) }
        ensures step { self.new ≡ with_step self.old (Transmit port result) }
        ensures fits { Fits spanning_tree self.old.plan self.old.number self.old.steps (Transmit port result) }
    {
        let Some(departure) = self.forwarding.backlog.pop(index_of(port)) else {
            unreachable!();
        };
        depart(&mut self.steps, port, departure)
    }

    /// Returns the spanning tree of the bridge if the protocol decides the states of its ports, and None if the plan
    /// does. Allocates nothing.
    pub fn rstp(&self) -> Option<&Rstp>
        ensures { option_copied result ≡ machine_in self.now.plan self.now.number self.now.steps }
    {
        self.rstp.as_ref()
    }

    /// Returns the states of the local ports 1 to 16.
    pub fn shape(&self) -> [PortState; 16]
        ensures { result ≡ states_after self.now.plan self.now.number self.now.steps }
    {
        self.forwarding.states
    }
}
