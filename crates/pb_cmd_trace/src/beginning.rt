//! Convergence before the first frame.

ghost use Rattle.std.specs.Prelude.{◌≡◌, unwrap_or, IfErr, IfOk};
ghost use Rattle.pb_converge.specs.Drives.{IsCaused};
ghost use Rattle.pb_lan.specs.Plans.{IsSound};
ghost use Rattle.pb_cmd_trace.specs.Stories.{HasBegun};

use pb_converge::{Convergence, DriveFault, converge};
use pb_lan::Plan;
use pb_net::Net;
use std::alloc::Global;

/// The most events besides ticks until convergence.
const MOST_EVENTS: u64 = 1_000_000_000;

/// Drives the network to convergence within these ticks of each bridge, if any, and returns the result.
pub(crate) fn begin(
    alloc: Global,
    plan: &Plan,
    net: &mut Net,
    most: Option<u32>,
) -> Result<Option<Convergence>, DriveFault>
    requires sound { IsSound plan.now }
    requires plan { net.old.plan ≡ plan.now }
    ensures plan { net.new.plan ≡ plan.now }
    ensures ok { IfOk result (HasBegun most net.old net.new) }
    ensures err { IfErr result (λ fault. IsCaused (unwrap_or most 0) 0 0 1000000 fault net.old) }
{
    let Some(ticks) = most else {
        return Ok(None);
    };
    let convergence = converge(alloc, net, plan, ticks, MOST_EVENTS)?;
    Ok(Some(convergence))
}
