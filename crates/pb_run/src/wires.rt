//! The rings of a run, and their ends before the places have them.

ghost use Rattle.std.specs.Prelude.{◌≡◌, ◌≢◌, ◌<◌, ◌*◌, ℕ, [], Some, None, IfOk, length, vec_len, slice_get, slice_set};
ghost use Rattle.rtrb.specs.Ring.{sent, received};
ghost use Rattle.pb_lan.specs.Plans.{IsSound};
ghost use Rattle.pb_run.specs.Wires.{ring_into, ring_out, AreNew, AreNamed, IsThere, HasInner, HasOuter};

use pb_frame::{Memory, index_of};
use pb_lan::{Item, Plan};
use pb_ring::{Inlet, Outlet, Wiring};
use pb_workers::is_used;
use rtrb::{Consumer, Producer, RingBuffer};
use std::alloc::Global;

/// The two ends of a ring.
pub(crate) type Ring = (Producer<Item>, Consumer<Item>);

/// Returns the number of the ring from which a bridge receives at a local port.
pub(crate) fn ring_into(bridge: u8, port: u8) -> usize
    requires { (0 < bridge) × (0 < port) }
    ensures { result ≡ ring_into bridge port }
{
    32 * index_of(bridge) + 2 * index_of(port)
}

/// Returns the number of the ring onto which a bridge sends at a local port.
pub(crate) fn ring_out(bridge: u8, port: u8) -> usize
    requires { (0 < bridge) × (0 < port) }
    ensures { result ≡ ring_out bridge port }
{
    ring_into(bridge, port) + 1
}

/// Returns the capacity of the ring of this number in items: the plan's ring size for a port that the plan uses, and 1
/// for any other.
fn capacity_of(plan: &Plan, number: usize) -> usize {
    let (bridge, port) = (number / 32 + 1, number % 32 / 2 + 1);
    if bridge < 256 && is_used(plan, bridge as u8, port as u8) {
        usize::from(plan.ring)
    } else {
        1
    }
}

/// Returns one ring into each local port of each bridge, and one out of it, by number.
///
/// # Errors
///
/// `Memory` if an allocation failed.
pub(crate) fn new_rings(alloc: Global, plan: &Plan) -> Result<Vec<Ring>, Memory>
    requires { IsSound plan.now }
    ensures new { IfOk result (λ rings. AreNew rings.items) }
    ensures count { IfOk result (λ rings. vec_len rings ≡ 32 * length plan.now.bridges) }
{
    let count = 32 * plan.bridges.len();
    let mut rings = Vec::with_capacity(alloc, count)?;
    for number in 0..count {
        rings.push(RingBuffer::<Item>::new(alloc, capacity_of(plan, number))?)?;
    }
    Ok(rings)
}

/// The sending ends and the receiving ends of rings, by the ring's number.
type Sides<W> = (Vec<Option<Outlet<W>>>, Vec<Option<Inlet<W>>>);

/// Returns the ends of rings, which are numbered in this order.
///
/// # Errors
///
/// `Memory` if an allocation failed.
fn ends_of<W: Wiring>(alloc: Global, rings: Vec<Ring>) -> Result<Sides<W>, Memory>
    requires new { AreNew rings.items }
    requires named { AreNamed W.rings rings.items }
    ensures sending { IfOk result (λ sides. (n : ℕ) (o : _) → slice_get sides.0.items n ≡ Some (Some o)
        → (o.number ≡ n) × (sent o.end ≡ [])) }
    ensures receiving { IfOk result (λ sides. (n : ℕ) (i : _) → slice_get sides.1.items n ≡ Some (Some i)
        → (i.number ≡ n) × (received i.end ≡ [])) }
    ensures all { IfOk result (λ sides. (n : ℕ) → n < vec_len rings
        → IsThere sides.0.items n × IsThere sides.1.items n) }
{
    let mut outlets = Vec::with_capacity(alloc, rings.len())?;
    let mut inlets = Vec::with_capacity(alloc, rings.len())?;
    for ring in rings {
        let number = outlets.len();
        let (producer, consumer) = ring;
        outlets.push(Some(Outlet::<W>::new(producer, number)))?;
        inlets.push(Some(Inlet::<W>::new(consumer, number)))?;
    }
    Ok((outlets, inlets))
}

/// The ends of a run's rings that no place has yet, by the ring's number. Nothing has passed them.
#[derive(Drop)]
pub(crate) struct Ends<W: Wiring> {
    outlets: Vec<Option<Outlet<W>>>,
    inlets: Vec<Option<Inlet<W>>>,
    ghost sending: { (n : ℕ) (o : _) → slice_get outlets.items n ≡ Some (Some o)
        → (o.number ≡ n) × (sent o.end ≡ []) },
    ghost receiving: { (n : ℕ) (i : _) → slice_get inlets.items n ≡ Some (Some i)
        → (i.number ≡ n) × (received i.end ≡ []) },
}

impl<W: Wiring> Ends<W> {
    /// Returns the ends of rings, which are numbered in this order.
    ///
    /// # Errors
    ///
    /// `Memory` if the allocation of a list failed.
    pub(crate) fn of(alloc: Global, rings: Vec<Ring>) -> Result<Ends<W>, Memory>
        requires new { AreNew rings.items }
        requires named { AreNamed W.rings rings.items }
        ensures { IfOk result (λ ends. (n : ℕ) → n < vec_len rings
            → IsThere ends.outlets.items n × IsThere ends.inlets.items n) }
    {
        let (outlets, inlets) = ends_of(alloc, rings)?;
        Ok(Ends { outlets, inlets })
    }

    /// Takes the sending end of the ring of this number.
    fn outlet(&mut self, number: usize) -> Outlet<W>
        requires { IsThere self.old.outlets.items number }
        ensures end { (result.number ≡ number) × (sent result.end ≡ []) }
        ensures outlets { self.new.outlets.items ≡ slice_set self.old.outlets.items number None }
        ensures inlets { self.new.inlets.items ≡ self.old.inlets.items }
    {
        let Some(outlet) = self.outlets[number].take() else {
            unreachable!();
        };
        outlet
    }

    /// Takes the receiving end of the ring of this number.
    fn inlet(&mut self, number: usize) -> Inlet<W>
        requires { IsThere self.old.inlets.items number }
        ensures end { (result.number ≡ number) × (received result.end ≡ []) }
        ensures inlets { self.new.inlets.items ≡ slice_set self.old.inlets.items number None }
        ensures outlets { self.new.outlets.items ≡ self.old.outlets.items }
    {
        let Some(inlet) = self.inlets[number].take() else {
            unreachable!();
        };
        inlet
    }

    /// Takes the two ends that a bridge has at a local port: it receives from the first, and sends onto the second.
    pub(crate) fn inner(&mut self, bridge: u8, port: u8) -> (Inlet<W>, Outlet<W>)
        requires { HasInner self.old.outlets.items self.old.inlets.items (bridge, port) }
        ensures inlet { (result.0.number ≡ ring_into bridge port) × (received result.0.end ≡ []) }
        ensures outlet { (result.1.number ≡ ring_out bridge port) × (sent result.1.end ≡ []) }
        ensures inner { (at : ℕ × ℕ) → at ≢ (bridge, port)
            → HasInner self.old.outlets.items self.old.inlets.items at
            → HasInner self.new.outlets.items self.new.inlets.items at }
        ensures outer { (at : ℕ × ℕ) → HasOuter self.old.outlets.items self.old.inlets.items at
            → HasOuter self.new.outlets.items self.new.inlets.items at }
    {
        let inlet = self.inlet(ring_into(bridge, port));
        let outlet = self.outlet(ring_out(bridge, port));
        (inlet, outlet)
    }

    /// Takes the other two ends of the rings at a bridge's local port: its neighbour sends onto the first, and receives
    /// from the second.
    pub(crate) fn outer(&mut self, bridge: u8, port: u8) -> (Outlet<W>, Inlet<W>)
        requires { HasOuter self.old.outlets.items self.old.inlets.items (bridge, port) }
        ensures outlet { (result.0.number ≡ ring_into bridge port) × (sent result.0.end ≡ []) }
        ensures inlet { (result.1.number ≡ ring_out bridge port) × (received result.1.end ≡ []) }
        ensures outer { (at : ℕ × ℕ) → at ≢ (bridge, port)
            → HasOuter self.old.outlets.items self.old.inlets.items at
            → HasOuter self.new.outlets.items self.new.inlets.items at }
    {
        let outlet = self.outlet(ring_into(bridge, port));
        let inlet = self.inlet(ring_out(bridge, port));
        (outlet, inlet)
    }
}
