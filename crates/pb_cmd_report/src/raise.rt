//! A network with nothing down.

ghost use Rattle.std.specs.Prelude.{◌≡◌, [], IfOk};
ghost use Rattle.pb_cmd_survive.specs.Impacts.{IsStanding};
ghost use Rattle.pb_lan.specs.Plans.{IsSound};
ghost use Rattle.pb_cmd_report.specs.Analyses.{patience_of};

use pb_cmd_survive::{Patience, Standing, raise};
use pb_converge::DriveFault;
use pb_lan::Plan;
use std::alloc::Global;

/// The most events besides ticks until convergence.
const MOST_EVENTS: u64 = 1_000_000_000;

/// Returns the limits on each convergence.
fn patience_of(ticks: u32) -> Patience
    ensures { result ≡ patience_of ticks }
{
    Patience {
        ticks,
        events: MOST_EVENTS,
    }
}

/// Brings the network of a plan up, with nothing down. Fails as [`raise`] does.
pub(crate) fn raise_whole<'a>(
    alloc: Global,
    plan: &'a Plan,
    none: &'a [String],
    ticks: u32,
) -> Result<Standing<'a>, DriveFault>
    requires sound { IsSound plan.now }
    requires none { none.now ≡ [] }
    ensures { IfOk result (λ s. (s.plan.now ≡ plan.now) × (s.names.now ≡ []) × (s.patience ≡ patience_of ticks)
        × IsStanding s) }
{
    match raise(alloc, plan, none, patience_of(ticks))? {
        Ok(standing) => Ok(standing),
        Err(_) => unreachable!(),
    }
}
