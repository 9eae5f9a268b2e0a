//! A network that is up before anything fails.

ghost use Rattle.std.specs.Prelude.{◌≡◌, IfOk};
ghost use Rattle.pb_converge.specs.Falls.{HaveFallen};
ghost use Rattle.pb_lan.specs.Plans.{IsSound};
ghost use Rattle.pb_cmd_survive.specs.Impacts.{IsStanding, Raises};

use pb_converge::{Convergence, DownFault, DriveFault, converge, copied, disables, fresh, stand};
use pb_lan::Plan;
use pb_net::Net;
use std::alloc::Global;

/// The ticks of each bridge for which the network is up before anything fails. The spanning tree's hold counts have run
/// down then.
const STANDING: u32 = 60;

/// The limits on driving a network to convergence.
#[derive(Clone, Copy, PartialEq, Eq, Debug)]
pub struct Patience {
    /// The most ticks of each bridge.
    pub ticks: u32,
    /// The most events besides the ticks.
    pub events: u64,
}

/// A plan's network whose bridges have converged, with nothing down but what names disable. It has not failed yet, and
/// each failure happens to a copy of it.
#[derive(Drop)]
pub struct Standing<'a> {
    /// The plan.
    pub plan: &'a Plan,
    /// The names of what is down.
    pub names: &'a [String],
    /// The limits on each convergence.
    pub patience: Patience,
    /// Whether the bridges converged, and after how many ticks of each.
    pub convergence: Convergence,
    /// The network when they had converged.
    pub calm: Net,
    /// The network after 60 more ticks of each bridge.
    pub up: Net,
}

/// Drives a network to convergence, and lets a copy of it go on for a while.
fn bring_up<'a>(
    alloc: Global,
    plan: &'a Plan,
    names: &'a [String],
    net: Net,
    patience: Patience,
) -> Result<Standing<'a>, DriveFault>
    requires sound { IsSound plan.now }
    requires planned { net.plan ≡ plan.now }
    requires fallen { HaveFallen plan.now names.now net }
    ensures { IfOk result (λ s. (s.plan.now ≡ plan.now) × (s.names.now ≡ names.now) × (s.patience ≡ patience)
        × IsStanding s) }
{
    let mut net = net;
    let convergence = converge(alloc, &mut net, plan, patience.ticks, patience.events)?;
    let mut up = copied(&net)?;
    stand(&mut up, plan, STANDING, patience.events)?;
    Ok(Standing {
        plan,
        names,
        patience,
        convergence,
        calm: net,
        up,
    })
}

/// Brings a plan's network up: disables what `names` names, drives the bridges to convergence (IEEE 802.1D-2004 clause
/// 17), and lets a copy go on for 60 ticks of each bridge. If the plan gives the states of the ports, no bridge ticks.
/// Returns why a name is refused, if one is unknown or ambiguous.
///
/// # Errors
///
/// `Memory` if an allocation failed, `Steps` if a place would take more steps than the plan allows, and `Events` if
/// more than `patience.events` events are due.
pub fn raise<'a>(
    alloc: Global,
    plan: &'a Plan,
    names: &'a [String],
    patience: Patience,
) -> Result<Result<Standing<'a>, DownFault>, DriveFault>
    requires { IsSound plan.now }
    ensures { IfOk result (Raises plan.now names.now patience) }
{
    let mut net = fresh(alloc, plan)?;
    match disables(alloc, &mut net, plan, names)? {
        Some(fault) => Ok(Err(fault)),
        None => Ok(Ok(bring_up(alloc, plan, names, net, patience)?)),
    }
}
