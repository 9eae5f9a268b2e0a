//! A single bridge.

ghost use Rattle.std.specs.Prelude.{◌≡◌, ◌≤◌, ◌<◌, ◌-◌, ◌^◌, ◌⊎◌, ℕ, [], true, false, length, IfErr, OnOk, IsErrOf};
ghost use Rattle.std.specs.Prelude.{IfOk};
ghost use Rattle.pb_frame.specs.Hex.{IsHex};
ghost use Rattle.pb_lan.specs.BridgeLists.{IsLawfulBridge};
ghost use Rattle.pb_lan.specs.Ports.{port_at, is_used};
ghost use Rattle.pb_relay.specs.Protocol.{spanning_tree};
ghost use Rattle.pb_cmd_flat.specs.Faults.{of_bridge};
ghost use Rattle.pb_cmd_flat.specs.FlatPlans.{flat_plan};
ghost use Rattle.pb_relay.specs.Standing.{HasCounted};
ghost use Rattle.pb_cmd_flat.specs.Quiet.{IsToldBy, AreUsed, IsWaiting, IsDraining, HasDrained, Tells};
ghost use Rattle.pb_cmd_flat.specs.Quiet.{arriving, exits_of, waits};
ghost use Rattle.pb_cmd_flat.specs.Receipts.{receipts, IsClearOutcome};
ghost use Rattle.pb_cmd_flat.specs.Switches.{HasHandled};

use crate::flat_plan::flat_plan;
use crate::print::put_answer;
use bytes::Bytes;
use pb_frame::{Learnt, Memory};
use pb_lan::{Item, Outcome, PortList, Reason, Step};
use pb_messages::CommandFault;
use pb_relay::{Bridge, BridgeFault};
use std::alloc::Global;
use std::marker::Model;

/// A bridge whose ports are customer ports of one service. After a fault it takes no more frames.
#[derive(Drop)]
pub struct Switch {
    ports: u8,
    bridge: Bridge,
    is_ready: bool,
}

impl Model for Switch {
    ghost use Rattle.std.specs.Prelude.{◌≡◌, ◌≤◌, true};
    ghost use Rattle.pb_cmd_flat.specs.Quiet.{IsQuiet};
    ghost use Rattle.pb_cmd_flat.specs.Switches.{SwitchView};

    ghost Value = { SwitchView };

    ghost view = { λ s. record { ports = s.ports; steps = s.bridge.steps; is_ready = s.is_ready } };

    ghost invariant = { λ s. (2 ≤ s.ports) × (s.ports ≤ 16) × (s.is_ready ≡ true → IsQuiet s.ports s.bridge) };
}

/// Returns the fault of the command for a fault of the bridge.
fn fault_of(fault: BridgeFault) -> CommandFault
    ensures { result ≡ of_bridge fault }
{
    match fault {
        BridgeFault::StepLimit => CommandFault::Steps,
        BridgeFault::Memory => CommandFault::Memory,
    }
}

/// Has the bridge receive a frame at a port. Returns the step that reports it.
///
/// # Errors
///
/// `Steps` if the bridge has reached its limit of steps, `Memory` if an allocation failed.
fn admit(bridge: &mut Bridge, port: u8, frame: Bytes) -> Result<Step, CommandFault>
    requires used { is_used (port_at bridge.old.plan bridge.old.number port) ≡ true }
    requires counted { bridge.old.is_kept ≡ false }
    ensures ok { IfOk result (λ step. HasCounted bridge.old port (arriving frame) step bridge.new) }
    ensures kinds { IfErr result (λ e. (e ≡ CommandFault.Steps) ⊎ (e ≡ CommandFault.Memory)) }
    ensures limit { IsErrOf result CommandFault.Steps → length bridge.old.steps ≡ bridge.old.plan.steps }
{
    let item = Item {
        mark: None,
        hops: 0,
        wire: frame,
    };
    match bridge.receive_counted(port, item) {
        Ok(step) => Ok(step),
        Err((fault, _)) => Err(fault_of(fault)),
    }
}

/// Returns whether an allocation for the frame or for a copy of it failed. The queues of the bridge were empty, so a
/// copy is refused for no other reason.
fn is_lost(outcome: &Outcome) -> bool
    ensures lost { result ≡ true → IsClearOutcome outcome.now → ⊥ }
    ensures kept { result ≡ false → IsClearOutcome outcome.now }
{
    match outcome {
        Outcome::Relayed { refused, .. } => !refused.is_empty(),
        Outcome::Filtered(reason) => *reason == Reason::Memory,
        Outcome::Heard => false,
    }
}

/// Returns the ports to which a step relayed a frame.
fn exits_of(step: &Step) -> PortList
    ensures { result ≡ exits_of step.now }
{
    match step {
        Step::Receive {
            outcome: Outcome::Relayed { chosen, .. },
            ..
        } => chosen.list(),
        _ => PortList::new(),
    }
}

/// Appends the lines for the frame that a step received. `exits` are the ports to which it was relayed.
///
/// # Errors
///
/// `Memory` if an allocation failed, also one of the bridge for a source, the frame or a copy.
fn tell(
    alloc: Global,
    step: &Step,
    exits: &[u8],
    digits: &[u8],
    out: &mut Vec<u8>,
) -> Result<(), CommandFault>
    requires exits { exits.now ≡ exits_of step.now }
    requires digits { IsToldBy digits.now step.now }
    ensures ok { OnOk result (Tells step.now out.old.items out.new.items) }
    ensures err { IfErr result (λ e. e ≡ CommandFault.Memory) }
{
    let Step::Receive {
        port,
        item,
        learnt,
        outcome,
        ..
    } = step
    else {
        unreachable!();
    };
    if *learnt == Some(Learnt::Memory) || is_lost(outcome) {
        return Err(CommandFault::Memory);
    }
    put_answer(
        alloc,
        out,
        *port,
        item.wire.as_slice(),
        digits,
        exits,
        outcome,
    )?;
    Ok(())
}

/// Has a port send the item that waits there, if one does. At most one item waits.
///
/// # Errors
///
/// `Steps` if the bridge has reached its limit of steps, `Memory` if an allocation failed.
fn drain_at(bridge: &mut Bridge, port: u8) -> Result<(), CommandFault>
    requires used { is_used (port_at bridge.old.plan bridge.old.number port) ≡ true }
    ensures ok { OnOk result (HasDrained port bridge.old bridge.new) }
    ensures kinds { IfErr result (λ e. (e ≡ CommandFault.Steps) ⊎ (e ≡ CommandFault.Memory)) }
    ensures some { IsErrOf result CommandFault.Steps → 0 < waits bridge.old port }
    ensures limit { IsErrOf result CommandFault.Steps → length bridge.old.steps ≡ bridge.old.plan.steps }
{
    if bridge.waiting(port) == 0 {
        return Ok(());
    }
    if let Err(fault) = bridge.reserve_step() {
        return Err(fault_of(fault));
    }
    let _ = bridge.pop_out(port);
    Ok(())
}

/// Has each of these ports send the item that waits there.
///
/// # Errors
///
/// `Steps` if the bridge has reached its limit of steps, `Memory` if an allocation failed.
fn drain(bridge: &mut Bridge, exits: &[u8]) -> Result<(), CommandFault>
    requires { AreUsed bridge.old exits.now }
    ensures ok { OnOk result ((ports : ℕ) → IsWaiting ports exits.now bridge.old
        → IsDraining ports [] bridge.old bridge.new) }
    ensures kinds { IfErr result (λ e. (e ≡ CommandFault.Steps) ⊎ (e ≡ CommandFault.Memory)) }
    ensures lawful { OnOk result (IsLawfulBridge spanning_tree bridge.new.plan bridge.new.number bridge.new.steps) }
    ensures steps { IsErrOf result CommandFault.Steps → (ports : ℕ) → IsWaiting ports exits.now bridge.old
        → 2 ^ 60 ≤ length (receipts bridge.old.steps) }
{
    for exit in exits {
        drain_at(bridge, *exit)?;
    }
    let _steps = bridge.steps();
    Ok(())
}

impl Switch {
    /// Returns a bridge with 2 to 16 ports that has received nothing.
    ///
    /// # Errors
    ///
    /// `Memory` if an allocation failed.
    pub fn new(alloc: Global, ports: u8) -> Result<Switch, Memory>
        requires { (2 ≤ ports) × (ports ≤ 16) }
        ensures { IfOk result (λ s. s ≡ record { ports = ports; steps = []; is_ready = true }) }
    {
        let plan = flat_plan(alloc, ports)?;
        let bridge = Bridge::counting(alloc, &plan, 1)?;
        Ok(Switch {
            ports,
            bridge,
            is_ready: true,
        })
    }

    /// Returns the number of ports.
    pub fn ports(&self) -> u8
        ensures { result ≡ self.now.ports }
    {
        self.ports
    }

    /// Has the bridge handle a frame at a port, and appends the lines for it. `digits` are the hexadecimal digits of
    /// the frame.
    ///
    /// # Errors
    ///
    /// `Steps` if the bridge has taken 2^64-1 steps: it has received at least 2^60-1 frames before this one. `Memory`
    /// if an allocation failed. After either fault the bridge takes no more frames.
    pub fn handle(
        &mut self,
        alloc: Global,
        port: u8,
        frame: Bytes,
        digits: &[u8],
        out: &mut Vec<u8>,
    ) -> Result<(), CommandFault>
        requires digits { IsHex digits.now frame }
        requires from { 1 ≤ port }
        requires to { port ≤ self.old.ports }
        requires ready { self.old.is_ready ≡ true }
        ensures ok { OnOk result (HasHandled self.old port frame out.old.items self.new out.new.items) }
        ensures kinds { IfErr result (λ e. (e ≡ CommandFault.Steps) ⊎ (e ≡ CommandFault.Memory)) }
        ensures steps { IsErrOf result CommandFault.Steps → 2 ^ 60 - 1 ≤ length (receipts self.old.steps) }
    {
        self.is_ready = false;
        let step = admit(&mut self.bridge, port, frame)?;
        let exits = exits_of(&step);
        tell(alloc, &step, exits.as_slice(), digits, out)?;
        drain(&mut self.bridge, exits.as_slice())?;
        self.is_ready = true;
        Ok(())
    }
}
