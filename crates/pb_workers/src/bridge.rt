//! The worker of a bridge.

ghost use Rattle.std.specs.Prelude.{◌≡◌, ◌&&◌, ◌<◌, ◌≤◌, ◌+◌, ◌-◌, ℕ, [], true, false, IsTrue, IfOk, OnErr};
ghost use Rattle.std.specs.Prelude.{length, map, vec_len, slice_get, slice_index_or, Some};
ghost use Rattle.std.specs.List.{list_any};
ghost use Rattle.rtrb.specs.Ring.{sent, received as received_over, known_items};
ghost use Rattle.pb_frame.specs.Lists.{IsBeginning};
ghost use Rattle.pb_lan.specs.LaneLists.{taken, put};
ghost use Rattle.pb_lan.specs.Laws.{is_setting};
ghost use Rattle.pb_lan.specs.PortLists.{fed, delivered};
ghost use Rattle.pb_lan.specs.Ports.{port_at, is_used, is_provider};
ghost use Rattle.pb_lan.specs.Plans.{IsSound, IsNumber};
ghost use Rattle.pb_lan.specs.Queues.{capacity_of};
ghost use Rattle.pb_lan.specs.Records.{received, transmitted};
ghost use Rattle.pb_relay.specs.Changes.{HasSet};
ghost use Rattle.pb_relay.specs.Standing.{at_start};
ghost use Rattle.pb_ring.specs.Rings.{shown_at};
ghost use Rattle.pb_workers.specs.Bridges.{AreUsed};
ghost use Rattle.pb_workers.specs.Lossless.{refuses_when_full};
ghost use Rattle.pb_workers.specs.Settings.{settings};

use crate::access::Access;
use crate::lane::LaneWorker;
use crate::mode::Mode;
use crate::receipt::received;
use crate::refusal::{Refusal, Taken, turn};
use crate::room::{queue_of, take_in};
use crate::used::used_ports;
use pb_frame::{Memory, index_of};
use pb_lan::{Item, Plan};
use pb_relay::{Bridge, BridgeFault};
use pb_ring::{Inlets, Outlets, Wiring};
use pb_threads::{Finish, Turn, TurnStatus, Wish};
use std::alloc::Global;

/// A bridge of a plan with the rings at its local ports. It receives by one ring of a port and sends by the other. The
/// rings of local port p are at index p-1.
#[derive(Drop)]
pub struct BridgeWorker<W: Wiring> {
    /// The bridge's number in the plan, from 1.
    pub number: u8,
    /// The bridge.
    pub bridge: Bridge,
    /// The ring ends from which it receives.
    pub ins: Inlets<W>,
    /// The ring ends onto which it sends.
    pub outs: Outlets<W>,
    /// The local ports that the plan uses.
    pub ports: Vec<u8>,
    /// The reason why the worker ended, once it has.
    pub finish: Option<Finish>,
    /// The index in `ports` at which the next search for work begins.
    pub(crate) next: usize,
    /// Whether the worker fulfils wishes.
    pub(crate) sets: bool,
    /// Whether an item waits on its ring while a queue is full to which the bridge relays it.
    pub(crate) waits: bool,
    /// The most items that wait at each port of the bridge.
    pub(crate) queue: u16,
    pub(crate) alloc: Global,
    pub ghost used: { AreUsed bridge.plan bridge.number (vec_len ins.ends) ports.items },
    pub ghost sides: { vec_len outs.ends ≡ vec_len ins.ends },
    pub ghost took: { (q : ℕ) → shown_at (λ i. received_over i.end) ins.ends.items q ≡ received (q + 1) bridge.steps },
    pub ghost gave: { (q : ℕ) → shown_at (λ o. sent o.end) outs.ends.items q ≡ transmitted (q + 1) bridge.steps },
    pub ghost wishes: { sets ≡ true → W.sets ≡ true },
    pub ghost unset: { W.sets ≡ false → list_any is_setting bridge.steps ≡ false },
    pub ghost kept: { W.keeps ≡ true → bridge.is_kept ≡ true },
    pub ghost patient: { W.waits ≡ true → waits ≡ true },
    pub ghost capacity: { queue ≡ capacity_of bridge.plan bridge.number },
    pub ghost whole: { W.waits ≡ true → list_any refuses_when_full bridge.steps ≡ false },
}

impl From<BridgeFault> for Refusal {
    fn from(fault: BridgeFault) -> Refusal {
        match fault {
            BridgeFault::StepLimit => Refusal::Limit,
            BridgeFault::Memory => Refusal::Memory,
        }
    }
}

/// Returns the bridge of this number, without steps. It keeps its steps, or only counts them.
///
/// # Errors
///
/// `Memory` if an allocation failed.
fn new_bridge(alloc: Global, plan: &Plan, number: u8, keeps: bool) -> Result<Bridge, Memory>
    requires sound { IsSound plan.now }
    requires bridge { IsNumber number (length plan.now.bridges) }
    ensures { IfOk result (λ bridge. bridge ≡ at_start plan.now number keeps) }
{
    if keeps {
        Bridge::new(alloc, plan, number)
    } else {
        Bridge::counting(alloc, plan, number)
    }
}

impl<W: Wiring> BridgeWorker<W> {
    ghost use Rattle.pb_workers.specs.Rooms.{may_receive};
    ghost use Rattle.pb_workers.specs.Workers.{IsModeFor, AreNewSides, IsSameBridge, KeepsRings, HasRings};

    /// Returns the worker of the bridge of this number, which has taken no step, over rings that nothing has passed. It
    /// serves the local ports that the plan uses and that have rings. Its mode says whether it keeps its steps, whether
    /// it fulfils wishes, and whether items wait for full queues.
    ///
    /// # Errors
    ///
    /// `Memory` if an allocation for the bridge or for the list of its ports failed.
    pub fn new(
        alloc: Global,
        plan: &Plan,
        number: u8,
        ins: Inlets<W>,
        outs: Outlets<W>,
        mode: Mode,
    ) -> Result<BridgeWorker<W>, Memory>
        requires mode { IsModeFor W.keeps W.sets W.waits mode }
        requires sound { IsSound plan.now }
        requires bridge { IsNumber number (length plan.now.bridges) }
        requires sides { AreNewSides ins outs }
        ensures number { IfOk result (λ worker. worker.number ≡ number) }
        ensures bridge { IfOk result (λ worker. worker.bridge ≡ at_start plan.now number mode.keeps) }
        ensures rings { IfOk result (λ worker. (worker.ins ≡ ins) × (worker.outs ≡ outs)) }
    {
        let ports = used_ports(alloc, plan, number, ins.ends.len())?;
        let bridge = new_bridge(alloc, plan, number, mode.keeps)?;
        Ok(BridgeWorker {
            number,
            bridge,
            ins,
            outs,
            ports,
            finish: None,
            next: 0,
            sets: mode.sets,
            waits: mode.waits,
            queue: queue_of(plan, number),
            alloc,
        })
    }

    /// Transmits the next item of a port, if one waits and the ring is not full. Returns whether it did.
    ///
    /// # Errors
    ///
    /// `Memory` if an allocation failed, `Limit` if the bridge has taken as many steps as it may.
    fn transmit(&mut self, port: u8) -> Taken
        requires port { (0 < port) × (port ≤ vec_len self.old.ins.ends) }
        requires used { is_used (port_at self.old.bridge.plan self.old.bridge.number port) ≡ true }
        ensures { IsSameBridge self.old self.new }
    {
        let place = index_of(port);
        if self.bridge.waiting(port) == 0 || !self.outs.has_room(place) {
            return Ok(false);
        }
        self.bridge.reserve_step()?;
        let item = self.bridge.pop_out(port);
        self.outs.push(place, item);
        Ok(true)
    }

    /// Checks whether the worker may receive the first item that came to a port. If items wait for full queues, it may
    /// if each port to which the bridge relays this item has room for one more.
    ///
    /// If the plan counts each traffic class by itself, all classes of a port together must have this room. So each
    /// class has it. An item that the bridge filters or reads as a BPDU waits for no queue.
    fn may_receive(&self, port: u8) -> bool
        requires port { (0 < port) × (port ≤ vec_len self.now.ins.ends) }
        requires used { is_used (port_at self.now.bridge.plan self.now.bridge.number port) ≡ true }
        requires item { 0 < length (shown_at (λ i. known_items i.end) self.now.ins.ends.items (port - 1)) }
        ensures { (item : Item) → slice_get (shown_at (λ i. known_items i.end) self.now.ins.ends.items (port - 1)) 0
            ≡ Some item → result ≡ may_receive self.now port item }
    {
        if !self.waits {
            return true;
        }
        let item = self.ins.first(index_of(port));
        self.bridge.has_room_for(port, item, self.queue)
    }

    /// Receives the first item that came to a port, if there is one and the worker may receive it.
    fn receive(&mut self, port: u8) -> Turn
        requires port { (0 < port) × (port ≤ vec_len self.old.ins.ends) }
        requires used { is_used (port_at self.old.bridge.plan self.old.bridge.number port) ≡ true }
        ensures { IsSameBridge self.old self.new }
    {
        let place = index_of(port);
        if !self.ins.has_item(place) || !self.may_receive(port) {
            return turn(Ok(false), 0, 0);
        }
        if let Err(fault) = self.bridge.reserve_step() {
            return turn(Err(Refusal::from(fault)), 0, 0);
        }
        let Some(item) = self.ins.pop(place) else {
            return turn(Ok(false), 0, 0);
        };
        let is_marked = item.mark.is_some();
        let outcome = take_in(&mut self.bridge, port, item);
        received(is_marked, &outcome)
    }

    /// Ticks the bridge's clock.
    ///
    /// # Errors
    ///
    /// `Memory` if an allocation failed, `Limit` if the bridge has taken as many steps as it may.
    pub(crate) fn tick(&mut self) -> Taken
        ensures same { KeepsRings self.old self.new }
        ensures settings { settings self.new.bridge.steps ≡ settings self.old.bridge.steps }
    {
        self.bridge.tick()?;
        Ok(true)
    }

    /// Enables or disables a port to another bridge, if the worker fulfils wishes and the bridge has such a port.
    /// Returns whether it did, and changes nothing if it did not.
    ///
    /// # Errors
    ///
    /// `Memory` if an allocation failed, `Limit` if the bridge has taken as many steps as it may. The bridge is
    /// unchanged then.
    pub(crate) fn set(&mut self, wish: Wish) -> Taken
        ensures whether { IfOk result (λ has_set. has_set
            ≡ (self.old.sets && is_provider (port_at self.old.bridge.plan self.old.bridge.number wish.port))) }
        ensures done { IfOk result (λ has_set. has_set ≡ true
            → HasSet self.old.bridge wish.port wish.up self.new.bridge) }
        ensures left { IfOk result (λ has_set. has_set ≡ false → self.new.bridge ≡ self.old.bridge) }
        ensures err { OnErr result (self.new.bridge ≡ self.old.bridge) }
        ensures same { KeepsRings self.old self.new }
    {
        if !self.sets || !self.bridge.has_link(wish.port) {
            return Ok(false);
        }
        self.bridge.admin(wish.port, wish.up)?;
        Ok(true)
    }

    /// Transmits at a port, or receives there: the first that has something to do.
    fn serve(&mut self, port: u8) -> Turn
        requires port { (0 < port) × (port ≤ vec_len self.old.ins.ends) }
        requires used { is_used (port_at self.old.bridge.plan self.old.bridge.number port) ≡ true }
        ensures { IsSameBridge self.old self.new }
    {
        let sent = self.transmit(port);
        if sent != Ok(false) {
            return turn(sent, 0, 0);
        }
        self.receive(port)
    }

    /// Serves the first port with something to do, beginning after the port that was served last.
    pub(crate) fn look(&mut self) -> Turn
        ensures { IsSameBridge self.old self.new }
    {
        let count = self.ports.len();
        for ahead in 0..count {
            let place = self.next.wrapping_add(ahead) % count;
            let port = self.ports[place];
            let served = self.serve(port);
            if served.status != TurnStatus::Idle {
                self.next = place.wrapping_add(1);
                return Turn { port, ..served };
            }
        }
        turn(Ok(false), 0, 0)
    }

    /// Checks whether an item waits at a port.
    pub(crate) fn has_waiting(&self) -> bool {
        for place in 0..self.ports.len() {
            if self.bridge.waiting(self.ports[place]) > 0 {
                return true;
            }
        }
        false
    }

    /// Lets the ring ends of a customer port and of this bridge's local port meet, once both workers are back. What the
    /// bridge received is a beginning of what the port fed, and what the port delivered is a beginning of what the
    /// bridge transmitted.
    pub fn meet_customer(&mut self, port: u8, access: &mut Access<W>)
        requires { HasRings self.old port access.old.feed.number access.old.drain.number }
        ensures into { IsBeginning (received port self.old.bridge.steps) (fed access.old.place.steps) }
        ensures out { IsBeginning (delivered access.old.place.steps) (transmitted port self.old.bridge.steps) }
        ensures bridge { (self.new.bridge ≡ self.old.bridge) × (self.new.number ≡ self.old.number) }
        ensures ins { map (λ i. i.number) self.new.ins.ends.items ≡ map (λ i. i.number) self.old.ins.ends.items }
        ensures outs { map (λ o. o.number) self.new.outs.ends.items ≡ map (λ o. o.number) self.old.outs.ends.items }
        ensures access { (access.new.place ≡ access.old.place) × (access.new.book ≡ access.old.book)
            × (access.new.offered ≡ access.old.offered) }
        ensures rings { (access.new.feed.number ≡ access.old.feed.number)
            × (access.new.drain.number ≡ access.old.drain.number) }
    {
        self.ins.meet(index_of(port), &mut access.feed);
        self.outs.meet(index_of(port), &mut access.drain);
    }

    /// Lets the ends of the ring from this bridge's local port to a lane meet, once both workers are back. What the
    /// lane took is a beginning of what the bridge transmitted.
    pub fn meet_lane_away<P>(&mut self, port: u8, lane: &mut LaneWorker<W, P>)
        requires port { (0 < port) × (port ≤ vec_len self.old.ins.ends) }
        requires ring { slice_index_or (map (λ o. o.number) self.old.outs.ends.items) (port - 1) 0
            ≡ lane.old.from.number }
        ensures onto { IsBeginning (taken lane.old.lane.steps) (transmitted port self.old.bridge.steps) }
        ensures bridge { (self.new.bridge ≡ self.old.bridge) × (self.new.number ≡ self.old.number) }
        ensures ins { self.new.ins ≡ self.old.ins }
        ensures outs { map (λ o. o.number) self.new.outs.ends.items ≡ map (λ o. o.number) self.old.outs.ends.items }
        ensures lane { (lane.new.lane ≡ lane.old.lane) × (lane.new.number ≡ lane.old.number) }
        ensures rings { (lane.new.from.number ≡ lane.old.from.number) × (lane.new.to ≡ lane.old.to) }
    {
        self.outs.meet(index_of(port), &mut lane.from);
    }

    /// Lets the ends of the ring from a lane to this bridge's local port meet, once both workers are back. What the
    /// bridge received is a beginning of what the lane put.
    pub fn meet_lane_here<P>(&mut self, port: u8, lane: &mut LaneWorker<W, P>)
        requires port { (0 < port) × (port ≤ vec_len self.old.ins.ends) }
        requires ring { slice_index_or (map (λ i. i.number) self.old.ins.ends.items) (port - 1) 0 ≡ lane.old.to.number }
        ensures off { IsBeginning (received port self.old.bridge.steps) (put lane.old.lane.steps) }
        ensures bridge { (self.new.bridge ≡ self.old.bridge) × (self.new.number ≡ self.old.number) }
        ensures ins { map (λ i. i.number) self.new.ins.ends.items ≡ map (λ i. i.number) self.old.ins.ends.items }
        ensures outs { self.new.outs ≡ self.old.outs }
        ensures lane { (lane.new.lane ≡ lane.old.lane) × (lane.new.number ≡ lane.old.number) }
        ensures rings { (lane.new.to.number ≡ lane.old.to.number) × (lane.new.from ≡ lane.old.from) }
    {
        self.ins.meet(index_of(port), &mut lane.to);
    }
}
