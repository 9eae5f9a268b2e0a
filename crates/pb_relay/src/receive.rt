//! How a bridge receives a frame at a port (IEEE 802.1Q clause 8).

ghost use Rattle.std.specs.Prelude.{◌≡◌, ◌≤◌, ◌↔◌, length, true, false, IfOk, IfErr, OnOk, OnErr, IsErrOf, IsOk};
ghost use Rattle.std.specs.Prelude.{if◌then◌else◌, None};
ghost use Rattle.pb_frame.specs.Frames.{dst_of, is_group, shortest_frame};
ghost use Rattle.pb_lan.specs.BridgeLists.{ruling, Fits};
ghost use Rattle.pb_lan.specs.BridgeLists.Ruling.{Refuses, LearnsOnly, Carries};
ghost use Rattle.pb_lan.specs.Ports.{port_at, is_used};
ghost use Rattle.pb_history.specs.StepLists.{with_step, given_back};
ghost use Rattle.pb_relay.specs.Protocol.{spanning_tree};
ghost use Rattle.pb_lan.specs.declared.step.Outcome.TheVariants.{Filtered};
ghost use Rattle.pb_frame.specs.declared.reason.Reason.TheVariants.{Memory as WantOfMemory};
ghost use Rattle.pb_lan.specs.declared.step.Step.TheVariants.{Receive};
ghost use Rattle.pb_relay.specs.Loads.{IsLoadedAt};
ghost use Rattle.pb_relay.specs.Receptions.{HasTaken};
ghost use Rattle.pb_relay.specs.Standing.{HasReceived, HasCounted};
ghost use Rattle.pb_fdb.specs.Tables.{where_in};
ghost use Rattle.pb_relay.specs.Verdicts.{as_ruling};

use crate::bridge::Bridge;
use crate::choice::choose;
use crate::copies::queue_copies;
use crate::fault::BridgeFault;
use crate::load::Load;
use crate::outcomes::newest_outcome;
use crate::verdict::{Verdict, rule};
use pb_fdb::Fdb;
use pb_frame::{Learnt, destination_of, index_of, source_of};
use pb_history::Steps;
use pb_lan::{Item, Outcome, Reason, Step};

impl Bridge {
    /// Receives an item at a port, and returns its outcome.
    ///
    /// The bridge rules on the item, learns its source, queues its copies and appends the Receive step that reports
    /// this. The step also reports each allocation that fails after its own: the frame is filtered for
    /// [`Reason::Memory`], a chosen port gets no copy, a BPDU is dropped, or the source is not learnt.
    ///
    /// # Errors
    ///
    /// `StepLimit` if and only if the list has as many steps as the plan allows. `Memory` if the allocation for the
    /// step failed, which cannot happen after `reserve_step`. The bridge is unchanged then, and the item is returned.
    ///
    /// # Examples
    ///
    /// ```
    /// use bytes::Bytes;
    /// use pb_lan::{Item, Outcome, PortSet, Refusals};
    /// use pb_relay::Bridge;
    /// use pb_service::read_plan;
    ///
    /// let chosen = PortSet::from_slice(&[2]).ok_or("not local ports")?;
    /// let file = b"
    ///     bridge = [{ name = 'B1', address = '02-00-00-00-00-01' }]
    ///     service = [{ name = 'red', vid = 100 }]
    ///     port = [
    ///         { name = 'C1', bridge = 'B1', port = 1, service = 'red' },
    ///         { name = 'C2', bridge = 'B1', port = 2, service = 'red' },
    ///     ]";
    /// let (plan, _) = read_plan(rt.alloc(), file)?;
    /// assert_eq!(rt; plan.bridges.len(), 1);
    /// let mut bridge = Bridge::new(rt.alloc(), &plan, 1)?;
    /// assert!(rt; bridge.has_port(1));
    /// let wire = Bytes::from_static(b"\xff\xff\xff\xff\xff\xff\x02\0\0\0\0\x01\x08\0");
    /// let (mark, hops, refused) = (None, 0, Refusals::new());
    /// let outcome = bridge.receive(1, Item { mark, hops, wire });
    /// assert_eq!(rt; outcome, Ok(Outcome::Relayed { chosen, refused }));
    /// ```
    pub fn receive(&mut self, port: u8, item: Item) -> Result<Outcome, (BridgeFault, Item)>
        requires { is_used (port_at self.old.plan self.old.number port) ≡ true }
        ensures ok { IfOk result (λ outcome. HasReceived self.old port item outcome self.new) }
        ensures err { OnErr result (self.new ≡ self.old) }
        ensures handed { IfErr result (λ e. e.1 ≡ item) }
        ensures limit { IsErrOf result (BridgeFault.StepLimit, item) ↔ (length self.old.steps ≡ self.old.plan.steps) }
        ensures reserved { self.old.is_reserved ≡ true → IsOk result }
    {
        let given = self.admit(port, item)?;
        // The step owns the outcome, which is part of the record. It is read back here, as a copy of a few octets, for
        // the worker of a run. Returned through `relay` and `carry`, it would be moved twice for every caller.
        let outcome = newest_outcome(&given, self.steps.as_slice());
        Ok(outcome)
    }

    /// Receives an item as [`Bridge::receive`] does, without the outcome. The step reports it.
    ///
    /// # Errors
    ///
    /// `StepLimit` and `Memory`, with the item, as for [`Bridge::receive`].
    #[inline(always)]
    pub fn take_in(&mut self, port: u8, item: Item) -> Result<(), (BridgeFault, Item)>
        requires { is_used (port_at self.old.plan self.old.number port) ≡ true }
        ensures ok { OnOk result ((outcome : Outcome) × HasReceived self.old port item outcome self.new) }
        ensures err { OnErr result (self.new ≡ self.old) }
        ensures handed { IfErr result (λ e. e.1 ≡ item) }
        ensures limit { IsErrOf result (BridgeFault.StepLimit, item) ↔ (length self.old.steps ≡ self.old.plan.steps) }
        ensures reserved { self.old.is_reserved ≡ true → IsOk result }
    {
        let _ = self.admit(port, item)?;
        Ok(())
    }

    /// Receives an item as [`Bridge::receive`] does, and returns the step. The bridge must only count its steps.
    ///
    /// # Errors
    ///
    /// `StepLimit` and `Memory`, with the item, as for [`Bridge::receive`].
    #[inline(always)]
    pub fn receive_counted(&mut self, port: u8, item: Item) -> Result<Step, (BridgeFault, Item)>
        requires used { is_used (port_at self.old.plan self.old.number port) ≡ true }
        requires counted { self.old.is_kept ≡ false }
        ensures ok { IfOk result (λ step. HasCounted self.old port item step self.new) }
        ensures err { OnErr result (self.new ≡ self.old) }
        ensures handed { IfErr result (λ e. e.1 ≡ item) }
        ensures limit { IsErrOf result (BridgeFault.StepLimit, item) ↔ (length self.old.steps ≡ self.old.plan.steps) }
        ensures reserved { self.old.is_reserved ≡ true → IsOk result }
    {
        match self.admit(port, item)? {
            Some(step) => Ok(step),
            None => unreachable!(),
        }
    }

    /// Receives an item as [`Bridge::receive`] does, and returns the step if steps are only counted.
    fn admit(&mut self, port: u8, item: Item) -> Result<Option<Step>, (BridgeFault, Item)>
        requires { is_used (port_at self.old.plan self.old.number port) ≡ true }
        ensures ok { IfOk result (λ given. HasTaken self.old port item given self.new) }
        ensures err { OnErr result (self.new ≡ self.old) }
        ensures handed { IfErr result (λ e. e.1 ≡ item) }
        ensures limit { IsErrOf result (BridgeFault.StepLimit, item) ↔ (length self.old.steps ≡ self.old.plan.steps) }
        ensures reserved { self.old.is_reserved ≡ true → IsOk result }
    {
        if let Err(fault) = self.reserve_step() {
            return Err((fault, item));
        }
        match self.rule(port, &item) {
            Verdict::Refuse(reason) => Ok(self.refuse(port, item, reason)),
            Verdict::Hear => Ok(self.hear(port, item)),
            Verdict::Learn(vid) => Ok(self.learn_only(port, item, vid)),
            Verdict::Carry(vid) => Ok(self.relay(port, item, vid)),
        }
    }

    /// Returns what to do with an item that arrives at a port.
    pub(crate) fn rule(&self, port: u8, item: &Item) -> Verdict
        requires { is_used (port_at self.now.plan self.now.number port) ≡ true }
        ensures { as_ruling result ≡ ruling spanning_tree self.now.plan self.now.number self.now.steps port item.now }
    {
        let ports = &self.ports;
        let place = index_of(port);
        rule(ports, place, self.forwarding.states[place], item)
    }

    /// Appends the step of an item that is filtered.
    fn refuse(&mut self, port: u8, item: Item, reason: Reason) -> Option<Step>
        requires reserved { self.old.is_reserved ≡ true }
        requires ruling { ruling spanning_tree self.old.plan self.old.number self.old.steps port item ≡ Refuses reason }
        ensures { HasTaken self.old port item result self.new }
    {
        let outcome = Outcome::Filtered(reason);
        append_receive(&mut self.steps, port, item, None, outcome)
    }

    /// Appends the step of an item that is filtered because an allocation failed.
    pub(crate) fn give_up(&mut self, port: u8, item: Item) -> Option<Step>
        requires reserved { self.old.is_reserved ≡ true }
        requires fits { Fits spanning_tree self.old.plan self.old.number self.old.steps
            (Receive port item None (Filtered WantOfMemory) None) }
        ensures { HasTaken self.old port item result self.new }
    {
        let outcome = Outcome::Filtered(Reason::Memory);
        append_receive(&mut self.steps, port, item, None, outcome)
    }

    /// Learns the source of an item that is filtered, at a port that is Learning.
    fn learn_only(&mut self, port: u8, item: Item, vid: u16) -> Option<Step>
        requires reserved { self.old.is_reserved ≡ true }
        requires ruling { ruling spanning_tree self.old.plan self.old.number self.old.steps port item ≡ LearnsOnly vid }
        ensures { HasTaken self.old port item result self.new }
    {
        let source = source_of(item.wire.as_slice());
        let learnt = self.forwarding.table.learn(vid, source, port, self.clock);
        let outcome = Outcome::Filtered(Reason::NotForwarding);
        append_receive(&mut self.steps, port, item, Some(learnt), outcome)
    }

    /// Relays an item in its service, or filters it if an allocation for its forms failed.
    fn relay(&mut self, port: u8, item: Item, vid: u16) -> Option<Step>
        requires used { is_used (port_at self.old.plan self.old.number port) ≡ true }
        requires reserved { self.old.is_reserved ≡ true }
        requires ruling { ruling spanning_tree self.old.plan self.old.number self.old.steps port item ≡ Carries vid }
        ensures { HasTaken self.old port item result self.new }
    {
        let ports = &self.ports;
        let local = ports.at(index_of(port));
        if let Some(load) = Load::unchanged(ports, local, &item.wire) {
            return self.carry(port, item, vid, &load);
        }
        self.relay_formed(port, item, vid)
    }

    /// Relays an item as [`Bridge::relay`] does, in forms that it makes.
    ///
    /// It is never inlined, which keeps its caller short.
    #[inline(never)]
    fn relay_formed(&mut self, port: u8, item: Item, vid: u16) -> Option<Step>
        requires used { is_used (port_at self.old.plan self.old.number port) ≡ true }
        requires reserved { self.old.is_reserved ≡ true }
        requires ruling { ruling spanning_tree self.old.plan self.old.number self.old.steps port item ≡ Carries vid }
        ensures { HasTaken self.old port item result self.new }
    {
        let ports = &self.ports;
        let local = ports.at(index_of(port));
        let load = Load::new(self.alloc, ports, local, &item.wire);
        match &load {
            Ok(load) => self.carry(port, item, vid, load),
            Err(_) => self.give_up(port, item),
        }
    }

    /// Learns the source of an item, chooses its ports and queues its copies there.
    #[inline(always)]
    fn carry(&mut self, port: u8, item: Item, vid: u16, load: &Load) -> Option<Step>
        requires used { is_used (port_at self.old.plan self.old.number port) ≡ true }
        requires reserved { self.old.is_reserved ≡ true }
        requires ruling { ruling spanning_tree self.old.plan self.old.number self.old.steps port item ≡ Carries vid }
        requires load { IsLoadedAt self.old.plan self.old.number (port_at self.old.plan self.old.number port)
            item.wire load.now }
        ensures { HasTaken self.old port item result self.new }
    {
        let frame = item.wire.as_slice();
        let table = &mut self.forwarding.table;
        let learnt = table.learn(vid, source_of(frame), port, self.clock);
        let at = sought(table, vid, frame, self.clock);
        let chosen = choose(&self.ports, &self.forwarding.states, port, vid, at);
        let backlog = &mut self.forwarding.backlog;
        let refused = queue_copies(backlog, &chosen, &self.ports, load, &item);
        let outcome = Outcome::Relayed { chosen, refused };
        append_receive(&mut self.steps, port, item, Some(learnt), outcome)
    }
}

/// Appends the Receive step of an item, and returns the step if steps are only counted.
#[inline(always)]
fn append_receive(
    steps: &mut Steps,
    port: u8,
    item: Item,
    learnt: Option<Learnt>,
    outcome: Outcome,
) -> Option<Step>
    requires { steps.old.is_reserved ≡ true }
    ensures steps { steps.new ≡ with_step steps.old (Receive port item learnt outcome None) }
    ensures back { result ≡ given_back steps.old.is_kept (Receive port item learnt outcome None) }
{
    steps.append(Step::Receive {
        port,
        item,
        learnt,
        outcome,
        moved: None,
    })
}

/// Returns the port at which the destination of a frame was seen, or None. A group address has no port.
pub(crate) fn sought(table: &Fdb, vid: u16, frame: &[u8], now: u64) -> Option<u8>
    requires { shortest_frame ≤ length frame.now }
    ensures { result ≡ (if is_group (dst_of frame.now) then None else where_in table.now now vid (dst_of frame.now)) }
{
    let destination = destination_of(frame);
    if destination.is_group() {
        return None;
    }
    table.find(vid, destination, now)
}
