//! Ticks of a bridge's clock, and ports that are enabled or disabled.

ghost use Rattle.std.specs.Prelude.{◌≡◌, ◌↔◌, ◌<◌, length, true, false, if◌then◌else◌, IfOk, OnOk, OnErr, IsErrOf};
ghost use Rattle.std.specs.Prelude.{IsOk};
ghost use Rattle.pb_fdb.specs.Tables.{flushed};
ghost use Rattle.pb_lan.specs.Ports.{port_at, is_provider};
ghost use Rattle.pb_lan.specs.Rules.{is_same, from_to};
ghost use Rattle.pb_lan.specs.declared.plan.Spanning.TheVariants.{Fixed};
ghost use Rattle.pb_relay.specs.Machines.{is_by_protocol};
ghost use Rattle.pb_relay.specs.Changes.{HasTicked, HasSet, unmoved, moved_by_setting, moved_to, state_set};
ghost use Rattle.pb_relay.specs.Changes.{ports_flushed};

use crate::bridge::{Bridge, append};
use crate::fault::BridgeFault;
use crate::ports::Local;
use pb_fdb::Fdb;
use pb_frame::{Memory, Seq, index_of};
use pb_lan::{Moved, PortState, Spanning, Step};
use std::alloc::Global;

impl Bridge {
    /// Advances the clock by one tick, which is one second, and appends the Tick step.
    ///
    /// If the protocol decides the states, its timers advance too, ports may change and BPDUs may be queued.
    ///
    /// # Errors
    ///
    /// `StepLimit` if and only if the list has as many steps as the plan allows. `Memory` if an allocation for the step
    /// or for the protocol failed. The bridge is unchanged then. After `reserve_step` the call cannot fail if the plan
    /// gives the states.
    ///
    /// # Examples
    ///
    /// ```
    /// use pb_lan::Step;
    /// use pb_relay::Bridge;
    /// use pb_service::read_plan;
    ///
    /// let file = b"bridge = [{ name = 'B1', address = '02-00-00-00-00-01' }]";
    /// let (plan, _) = read_plan(rt.alloc(), file)?;
    /// assert_eq!(rt; plan.bridges.len(), 1);
    /// let mut bridge = Bridge::new(rt.alloc(), &plan, 1)?;
    /// assert_eq!(rt; bridge.tick(), Ok(()));
    /// assert!(rt; matches!(bridge.steps(), [Step::Tick { now: 1, .. }]));
    /// ```
    pub fn tick(&mut self) -> Result<(), BridgeFault>
        ensures ok { OnOk result (HasTicked self.old self.new) }
        ensures err { OnErr result (self.new ≡ self.old) }
        ensures limit { IsErrOf result BridgeFault.StepLimit ↔ (length self.old.steps ≡ self.old.plan.steps) }
        ensures reserved { self.old.plan.spanning ≡ Fixed → self.old.is_reserved ≡ true → IsOk result }
    {
        if self.is_spanning() {
            return self.tick_tree();
        }
        self.reserve_step()?;
        self.advance();
        Ok(())
    }

    /// Checks whether the protocol decides the states.
    fn is_spanning(&self) -> bool
        ensures { result ≡ is_by_protocol self.now.plan.spanning }
    {
        matches!(self.plan.spanning, Spanning::Rstp)
    }

    /// Advances the clock and appends the Tick step, if the plan gives the states.
    fn advance(&mut self)
        requires reserved { self.old.is_reserved ≡ true }
        requires fixed { self.old.plan.spanning ≡ Fixed }
        ensures { HasTicked self.old self.new }
    {
        self.clock += 1;
        self.forwarding.table.expire(self.clock);
        append(
            &mut self.steps,
            Step::Tick {
                now: self.clock,
                moved: nothing_moved(self.alloc),
            },
        );
    }

    /// Enables or disables a port to another bridge, and appends the Admin step.
    ///
    /// If the plan gives the states, a disabled port becomes Discarding and its stations are flushed, and an enabled
    /// port gets its start state. If the protocol decides the states, the call sets portEnabled, and the bridge applies
    /// what the protocol changes. The protocol changes nothing if the port has that value already.
    ///
    /// # Errors
    ///
    /// `StepLimit` if and only if the list has as many steps as the plan allows. `Memory` if an allocation failed. The
    /// bridge is unchanged then.
    pub fn admin(&mut self, port: u8, up: bool) -> Result<(), BridgeFault>
        requires { is_provider (port_at self.old.plan self.old.number port) ≡ true }
        ensures ok { OnOk result (HasSet self.old port up self.new) }
        ensures err { OnErr result (self.new ≡ self.old) }
        ensures limit { IsErrOf result BridgeFault.StepLimit ↔ (length self.old.steps ≡ self.old.plan.steps) }
    {
        if self.is_spanning() {
            return self.admin_tree(port, up);
        }
        if self.steps.len() == self.limit {
            return Err(BridgeFault::StepLimit);
        }
        let Ok(moved) = self.moved_by_setting(port, up) else {
            return Err(BridgeFault::Memory);
        };
        self.reserve_step()?;
        self.set(port, up, moved);
        Ok(())
    }

    /// Returns the changes of a port that is enabled or disabled, if the plan gives the states.
    fn moved_by_setting(&self, port: u8, up: bool) -> Result<Moved, Memory>
        requires { is_provider (port_at self.now.plan self.now.number port) ≡ true }
        ensures { IfOk result (λ moved. moved ≡ moved_by_setting self.now.plan self.now.number self.now.steps port up) }
    {
        let ports = &self.ports;
        let place = index_of(port);
        let next = state_set(ports.at(place), up);
        moved_to(self.alloc, port, up, self.forwarding.states[place], next)
    }

    /// Enables or disables a port, and appends the step that reports these changes.
    fn set(&mut self, port: u8, up: bool, moved: Moved)
        requires provider { is_provider (port_at self.old.plan self.old.number port) ≡ true }
        requires fixed { self.old.plan.spanning ≡ Fixed }
        requires reserved { self.old.is_reserved ≡ true }
        requires moved { moved ≡ moved_by_setting self.old.plan self.old.number self.old.steps port up }
        ensures { HasSet self.old port up self.new }
    {
        let ports = &self.ports;
        let place = index_of(port);
        let next = state_set(ports.at(place), up);
        flush_unless(&mut self.forwarding.table, up, port);
        self.forwarding.states[place] = next;
        append(&mut self.steps, Step::Admin { port, up, moved });
    }
}

/// Returns a report of no change. Allocates nothing.
pub(crate) fn nothing_moved(alloc: Global) -> Moved
    ensures { result ≡ unmoved }
{
    Moved {
        states: Seq::from_vec(Vec::new(alloc)),
        flushed: Seq::from_vec(Vec::new(alloc)),
        queued: Seq::from_vec(Vec::new(alloc)),
        replaced: Seq::from_vec(Vec::new(alloc)),
        dropped: Seq::from_vec(Vec::new(alloc)),
    }
}

/// Returns the changes of a port that is enabled or disabled and goes from one state to another.
fn moved_to(
    alloc: Global,
    port: u8,
    up: bool,
    old: PortState,
    new: PortState,
) -> Result<Moved, Memory>
    ensures { IfOk result (λ moved. moved ≡ moved_to port up old new) }
{
    Ok(Moved {
        states: Seq::from_vec(change(alloc, port, old, new)?),
        flushed: Seq::from_vec(flushed(alloc, port, up)?),
        queued: Seq::from_vec(Vec::new(alloc)),
        replaced: Seq::from_vec(Vec::new(alloc)),
        dropped: Seq::from_vec(Vec::new(alloc)),
    })
}

/// Returns the state of a port after it is enabled or disabled.
fn state_set(local: Local, up: bool) -> PortState
    ensures { result ≡ state_set local up }
{
    match local {
        Local::Bridge { start } if up => start,
        _ => PortState::Discarding,
    }
}

/// Checks whether two states are equal.
fn is_same(a: PortState, b: PortState) -> bool
    ensures { result ≡ is_same a b }
{
    a == b
}

/// Returns the change of a port from one state to another, or no change if they are equal.
fn change(
    alloc: Global,
    port: u8,
    old: PortState,
    new: PortState,
) -> Result<Vec<(u8, PortState)>, Memory>
    ensures { IfOk result (λ changes. changes.items ≡ from_to port old new) }
{
    let mut changes = Vec::new(alloc);
    if !is_same(old, new) {
        changes.push((port, new))?;
    }
    Ok(changes)
}

/// Returns the port as one to flush if it is disabled, and no port if it is enabled.
fn flushed(alloc: Global, port: u8, up: bool) -> Result<Vec<u8>, Memory>
    ensures { IfOk result (λ ports. ports.items ≡ ports_flushed port up) }
{
    let mut ports = Vec::new(alloc);
    if !up {
        ports.push(port)?;
    }
    Ok(ports)
}

/// Flushes the stations of a port that is disabled.
fn flush_unless(table: &mut Fdb, up: bool, port: u8)
    ensures { table.new ≡ (if up then table.old else flushed table.old port) }
{
    if !up {
        table.flush(port);
    }
}
