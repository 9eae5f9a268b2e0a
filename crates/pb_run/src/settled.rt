//! Checks whether the bridges of a run are settled.

ghost use Rattle.std.specs.Prelude.{◌≡◌, length, map, IfOk};
ghost use Rattle.pb_lan.specs.declared.plan.Spanning.TheVariants.{Rstp as by_protocol};
ghost use Rattle.pb_lan.specs.declared.record.Record.{Record};
ghost use Rattle.pb_lan.specs.Plans.{IsSound};
ghost use Rattle.pb_relay.specs.Settled.{TellsSettled, machines_in};
ghost use Rattle.pb_run.specs.Gifts.{AreBridges, given_bridge};

use pb_frame::Memory;
use pb_lan::{Plan, Spanning};
use pb_ring::Wiring;
use pb_rstp::{Rstp, is_settled, planned_are_machines};
use pb_workers::BridgeWorker;
use std::alloc::Global;

/// Returns the spanning trees of the bridges, in the plan's order.
///
/// # Errors
///
/// `Memory` if the allocation of the list failed.
fn machines_of<'a, W: Wiring>(
    alloc: Global,
    plan: &Plan,
    workers: &'a [BridgeWorker<W>],
) -> Result<Vec<&'a Rstp>, Memory>
    requires rstp { plan.now.spanning ≡ by_protocol }
    requires bridges { AreBridges plan.now (length plan.now.bridges) (map given_bridge workers.now) }
    ensures { IfOk result (λ machines. (rec : Record) → rec.bridges ≡ map (λ b. b.bridge.steps) workers.now
        → map (λ m. m.now) machines.items ≡ machines_in plan.now rec) }
{
    let mut machines = Vec::with_capacity(alloc, workers.len())?;
    for worker in workers {
        let Some(machine) = worker.bridge.rstp() else {
            unreachable!();
        };
        machines.push(machine)?;
    }
    Ok(machines)
}

/// Checks whether the bridges are settled (IEEE 802.1D-2004 clause 17) after the steps that they took. Returns `None`
/// if the plan gives the states of the ports.
///
/// # Errors
///
/// `Memory` if the allocation of a list of the bridges failed.
pub(crate) fn whether_settled<W: Wiring>(
    alloc: Global,
    plan: &Plan,
    workers: &[BridgeWorker<W>],
) -> Result<Option<bool>, Memory>
    requires sound { IsSound plan.now }
    requires bridges { AreBridges plan.now (length plan.now.bridges) (map given_bridge workers.now) }
    ensures { IfOk result (λ answer. (rec : Record) → rec.bridges ≡ map (λ b. b.bridge.steps) workers.now
        → TellsSettled plan.now rec answer) }
{
    match plan.spanning {
        Spanning::Fixed => Ok(None),
        Spanning::Rstp => {
            planned_are_machines();
            let machines = machines_of(alloc, plan, workers)?;
            Ok(Some(is_settled(machines.as_slice(), plan)))
        }
    }
}
