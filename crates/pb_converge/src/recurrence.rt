//! Whether the machines of a network's bridges recur.

ghost use Rattle.std.specs.Prelude.{◌≡◌, ◌↔◌, ◌≤◌, ◌<◌, IsTrue, map, true, false, IfOk, IfErr, OnOk};
ghost use Rattle.std.specs.List.{list_all};
ghost use Rattle.pb_lan.specs.declared.plan.Spanning.TheVariants.{Rstp as by_protocol};
ghost use Rattle.pb_relay.specs.Settled.{machines_in};
ghost use Rattle.pb_converge.specs.Drives.{is_lossless};
ghost use Rattle.pb_converge.specs.Recurrence.{Notes};

use crate::fault::DriveFault;
use pb_frame::Memory;
use pb_lan::{LinkPlan, Plan};
use pb_net::Net;
use pb_rstp::Rstp;
use std::alloc::Global;

/// The fewest rounds between two marks.
const FEWEST: u32 = 4;

/// A watch over the rounds of a network that tells when they may end: the machines of the bridges are those that were
/// marked, so they go on as they did since then.
#[derive(Drop)]
pub(crate) struct Watch {
    /// Whether the machines are still compared with the marked ones.
    is_open: bool,
    /// The number of rounds before the mark.
    marked: u32,
    /// The machines at the mark.
    machines: Vec<Rstp>,
    /// The number of rounds that are allowed.
    most: u32,
    /// The number of rounds after which the machines are those after `most` rounds.
    pub(crate) end: u32,
}

/// Returns whether a link loses no frame.
fn is_lossless(link: &LinkPlan) -> bool
    ensures { result ≡ is_lossless link.now }
{
    link.lost_ab.len() == 0 && link.lost_ba.len() == 0
}

/// Returns whether no link of the plan loses a frame.
fn are_lossless(plan: &Plan) -> bool
    ensures { result ≡ list_all is_lossless plan.now.links }
{
    plan.links.as_slice().iter().all(|link| is_lossless(link))
}

/// Returns whether the machines are the marked ones, one after the other.
fn are_same(machines: &[&Rstp], marked: &[Rstp]) -> bool
    ensures { IsTrue result ↔ (map (λ m. m.now) machines.now ≡ marked.now) }
{
    if machines.len() != marked.len() {
        return false;
    }
    for i in 0..marked.len() {
        if !machines[i].is_same(&marked[i]) {
            return false;
        }
    }
    true
}

/// Returns copies of machines.
///
/// # Errors
///
/// `Memory` if an allocation failed.
fn copies_of(alloc: Global, machines: &[&Rstp]) -> Result<Vec<Rstp>, Memory>
    ensures { IfOk result (λ copies. copies.items ≡ map (λ m. m.now) machines.now) }
{
    let mut copies = Vec::with_capacity(alloc, machines.len())?;
    for i in 0..machines.len() {
        copies.push(machines[i].clone()?)?;
    }
    Ok(copies)
}

impl Watch {
    /// Returns a watch over at most `most` rounds, with the machines before the first of them marked. It finds nothing
    /// if the network keeps its steps, since the steps of all rounds are wanted then, or if a link of the plan loses
    /// frames: the machines alone do not determine then how they go on.
    ///
    /// # Errors
    ///
    /// `Memory` if an allocation failed.
    pub(crate) fn new(alloc: Global, net: &Net, plan: &Plan, most: u32) -> Result<Watch, Memory>
        requires { net.now.plan.spanning ≡ by_protocol }
        ensures marked { IfOk result (λ w. (w.marked ≡ 0) × (w.machines.items ≡ machines_in net.now.plan net.now.rec)) }
        ensures end { IfOk result (λ w. (w.end ≡ most) × (w.most ≡ most)) }
        ensures counted { IfOk result (λ w. w.is_open ≡ true → net.now.is_kept ≡ false) }
        ensures watched { IfOk result (λ w. w.is_open ≡ true → list_all is_lossless plan.now.links ≡ true) }
    {
        let machines = net.machines(alloc)?;
        Ok(Watch {
            is_open: !net.keeps_steps() && are_lossless(plan),
            marked: 0,
            machines: copies_of(alloc, machines.as_slice())?,
            most,
            end: most,
        })
    }

    /// Compares the machines after `rounds` rounds with the marked ones, and marks them if that was long ago.
    ///
    /// # Errors
    ///
    /// `Memory` if an allocation failed.
    pub(crate) fn note(&mut self, alloc: Global, net: &Net, rounds: u32) -> Result<(), DriveFault>
        requires protocol { net.now.plan.spanning ≡ by_protocol }
        requires later { self.old.marked < rounds }
        requires within { rounds ≤ self.old.most }
        ensures ok { OnOk result (Notes rounds (machines_in net.now.plan net.now.rec) self.old self.new) }
        ensures err { IfErr result (λ fault. fault ≡ DriveFault.Memory) }
    {
        if !self.is_open {
            return Ok(());
        }
        let machines = net.machines(alloc)?;
        let since = rounds - self.marked;
        if are_same(machines.as_slice(), self.machines.as_slice()) {
            self.is_open = false;
            self.end = rounds + (self.most - rounds) % since;
        } else if since >= FEWEST && since >= self.marked / 4 {
            self.machines = copies_of(alloc, machines.as_slice())?;
            self.marked = rounds;
        }
        Ok(())
    }
}
