//! Drives bridges to convergence.

ghost use Rattle.std.specs.Prelude.{◌≡◌, ◌≢◌, ◌≤◌, ◌∷◌, [], true, OnOk, IfOk, IfErr, Some};
ghost use Rattle.pb_lan.specs.Events.{has_place};
ghost use Rattle.pb_lan.specs.Plans.{IsSound};
ghost use Rattle.pb_lan.specs.declared.plan.Spanning.TheVariants.{Rstp as by_protocol};
ghost use Rattle.pb_lan.specs.declared.step.Place.TheVariants.{Bridge};
ghost use Rattle.pb_relay.specs.Settled.{TellsConverged};
ghost use Rattle.pb_converge.specs.Drives.{HaveDone, HasBeenDriven, HasTicked, IsRound, HasGoneRound, HasStood};
ghost use Rattle.pb_converge.specs.Drives.{HasFailed, EndsAs, IsRefusal};
ghost use Rattle.pb_converge.specs.Enough.{HasEnoughMemory};

use crate::convergence::Convergence;
use crate::draining::drain;
use crate::fault::DriveFault;
use crate::limit::fault_in;
use crate::recurrence::Watch;
use pb_lan::{Event, Plan, Spanning};
use pb_net::{Net, NetFault};
use pb_spanning_tree::read_addresses;
use std::alloc::Global;

/// Ticks a bridge's clock.
///
/// # Errors
///
/// `Steps` if the bridge has taken the plan's number of steps, `Memory` if an allocation failed. The network is
/// unchanged then.
fn tick(net: &mut Net, bridge: u8) -> Result<(), DriveFault>
    requires { has_place net.old.plan (Bridge bridge) ≡ true }
    ensures plan { net.new.plan ≡ net.old.plan }
    ensures ok { OnOk result (HaveDone net.old (Event.Tick bridge ∷ []) net.new) }
    ensures err { IfErr result (λ _. net.new ≡ net.old) }
    ensures refusal { IfErr result (λ fault. IsRefusal fault net.new) }
{
    match net.step(Event::Tick { bridge }) {
        Ok(_) => Ok(()),
        Err(NetFault::StepLimit) => Err(DriveFault::Steps),
        Err(NetFault::Memory) => Err(DriveFault::Memory),
        Err(NetFault::NoSuch) => unreachable!(),
    }
}

/// Ticks each bridge once, in the plan's order. Fails as [`tick`] does.
fn tick_all(net: &mut Net, plan: &Plan) -> Result<(), DriveFault>
    requires sound { IsSound plan.now }
    requires plan { net.old.plan ≡ plan.now }
    ensures plan { net.new.plan ≡ plan.now }
    ensures ok { OnOk result (HasTicked net.old net.new) }
    ensures err { IfErr result (λ _. HasBeenDriven 1 0 net.old net.new) }
    ensures refusal { IfErr result (λ fault. IsRefusal fault net.new) }
{
    for place in 0..plan.bridges.len() {
        tick(net, place as u8 + 1)?;
    }
    Ok(())
}

/// Ticks each bridge once, and performs what is due then. Returns how many events were due. Fails as [`tick`] and
/// [`drain`] do.
fn round(net: &mut Net, plan: &Plan, left: u64) -> Result<u64, DriveFault>
    requires sound { IsSound plan.now }
    requires plan { net.old.plan ≡ plan.now }
    ensures plan { net.new.plan ≡ plan.now }
    ensures within { IfOk result (λ done. done ≤ left) }
    ensures ok { IfOk result (λ done. IsRound done net.old net.new) }
    ensures err { IfErr result (λ fault. HasFailed 1 left fault net.old net.new) }
{
    tick_all(net, plan)?;
    drain(net, plan, left)
}

/// Checks whether the bridges have converged.
///
/// # Errors
///
/// `Memory` if an allocation failed.
fn look(alloc: Global, net: &Net) -> Result<bool, DriveFault>
    requires { net.now.plan.spanning ≡ by_protocol }
    ensures ok { IfOk result (λ yes. TellsConverged net.now.plan net.now.rec (Some yes)) }
    ensures err { IfErr result (λ fault. fault ≡ DriveFault.Memory) }
{
    let Some(converged) = net.converged(alloc)? else {
        unreachable!();
    };
    Ok(converged)
}

/// Drives bridges that run the spanning tree to convergence. Fails as [`converge`] does.
fn rounds(
    alloc: Global,
    net: &mut Net,
    plan: &Plan,
    most: u32,
    events: u64,
) -> Result<Convergence, DriveFault>
    requires sound { IsSound plan.now }
    requires plan { net.old.plan ≡ plan.now }
    requires protocol { plan.now.spanning ≡ by_protocol }
    ensures plan { net.new.plan ≡ plan.now }
    ensures ok { IfOk result (λ rest. EndsAs most events rest net.old net.new) }
    ensures err { IfErr result (λ fault. HasFailed most events fault net.old net.new) }
{
    read_addresses(plan);
    let mut had_converged = false;
    let mut done = 0;
    let mut watch = Watch::new(alloc, net, plan, most)?;
    for ticks in 0..most {
        if ticks == watch.end {
            return Ok(Convergence::NotConverged(most));
        }
        done += round(net, plan, events - done)?;
        let has_converged = look(alloc, net)?;
        if had_converged && has_converged {
            return Ok(Convergence::Converged(ticks + 1));
        }
        had_converged = has_converged;
        watch.note(alloc, net, ticks + 1)?;
    }
    Ok(Convergence::NotConverged(most))
}

/// Performs rounds, as many as `ticks`. Fails as [`converge`] does.
fn go_round(net: &mut Net, plan: &Plan, ticks: u32, events: u64) -> Result<(), DriveFault>
    requires sound { IsSound plan.now }
    requires plan { net.old.plan ≡ plan.now }
    ensures plan { net.new.plan ≡ plan.now }
    ensures ok { OnOk result (HasGoneRound ticks events net.old net.new) }
    ensures err { IfErr result (λ fault. HasFailed ticks events fault net.old net.new) }
{
    let mut done = 0;
    for _tick in 0..ticks {
        done += round(net, plan, events - done)?;
    }
    Ok(())
}

/// Lets the bridges of a network go on for `ticks` ticks of each, so that their timers and hold counts are those of a
/// network that has been up for a while.
///
/// In each round every bridge ticks once, in the plan's order, and [`drain`] performs all that is due then. Nothing is
/// done if the plan gives the states of the ports.
///
/// # Errors
///
/// Those of [`converge`].
pub fn stand(net: &mut Net, plan: &Plan, ticks: u32, events: u64) -> Result<(), DriveFault>
    requires sound { IsSound plan.now }
    requires plan { net.old.plan ≡ plan.now }
    ensures plan { net.new.plan ≡ plan.now }
    ensures ok { OnOk result (HasStood plan.now.spanning ticks events net.old net.new) }
    ensures err { IfErr result (λ fault. HasFailed ticks events fault net.old net.new) }
    ensures enough { IfErr result (λ fault. fault ≢ DriveFault.Memory → HasEnoughMemory net.new.rec) }
{
    match plan.spanning {
        Spanning::Fixed => Ok(()),
        Spanning::Rstp => match go_round(net, plan, ticks, events) {
            Ok(()) => Ok(()),
            Err(fault) => Err(fault_in(net, fault)),
        },
    }
}

/// Drives the bridges of a network to convergence (IEEE 802.1D-2004 clause 17).
///
/// In each round every bridge ticks once, in the plan's order, and [`drain`] performs all that is due then. The rounds
/// end when the bridges have converged after two in a row, or after `most` of them. They end earlier if the network only
/// counts its steps, no link loses frames, the machines of the bridges are again what they were some rounds before, and
/// a whole number of such periods is left: after `most` rounds the machines would be the same. The result is `Given`,
/// and nothing is done, if the plan gives the states of the ports. It is `NotConverged` for each `most` below 2, and else
/// only if the bridges had not converged after the last round or after the one before it.
///
/// # Errors
///
/// `Events` if more than `events` events besides the ticks are due. `Steps` if a place had to take more steps than the
/// plan allows. `Memory` if an allocation failed, and in place of the others if one failed in a step of a bridge. The
/// events performed before keep their effect.
pub fn converge(
    alloc: Global,
    net: &mut Net,
    plan: &Plan,
    most: u32,
    events: u64,
) -> Result<Convergence, DriveFault>
    requires sound { IsSound plan.now }
    requires plan { net.old.plan ≡ plan.now }
    ensures plan { net.new.plan ≡ plan.now }
    ensures ok { IfOk result (λ rest. EndsAs most events rest net.old net.new) }
    ensures err { IfErr result (λ fault. HasFailed most events fault net.old net.new) }
    ensures enough { IfErr result (λ fault. fault ≢ DriveFault.Memory → HasEnoughMemory net.new.rec) }
{
    match plan.spanning {
        Spanning::Fixed => Ok(Convergence::Given),
        Spanning::Rstp => match rounds(alloc, net, plan, most, events) {
            Ok(rest) => Ok(rest),
            Err(fault) => Err(fault_in(net, fault)),
        },
    }
}
