//! The loss report of a run, by its record.

ghost use Rattle.std.specs.Prelude.{◌≡◌, [], IfOk};

use bytes::Bytes;
use pb_cmd_run::lost_of;
use pb_frame::{Mac, Memory, Seq, Text};
use pb_history::Tallies;
use pb_lan::{
    BridgePlan, Item, NoRoom, Outcome, Plan, PortSet, Queues, Record, Refusals, Spanning, Step,
    plan_is_sound,
};
use pb_run::Held;
use std::alloc::Global;
use std::test::Fail;

/// Returns a bridge.
fn bridge(alloc: Global) -> Result<BridgePlan, Memory> {
    Ok(BridgePlan {
        name: Text::from_string(String::from_str(alloc, "B1")?),
        address: Mac([2, 0, 0, 0, 0, 1]),
        priority: 32_768,
        queue: 1,
    })
}

/// Returns the plan of one bridge, and nothing else.
fn alone(alloc: Global) -> Result<Plan, Memory>
    ensures { IfOk result (λ plan. plan.customers ≡ []) }
{
    let bridges = vec![in alloc; bridge(alloc)?]?;
    Ok(Plan {
        bridges: Seq::from_vec(bridges),
        links: Seq::from_vec(Vec::new(alloc)),
        services: Seq::from_vec(Vec::new(alloc)),
        customers: Seq::from_vec(Vec::new(alloc)),
        spanning: Spanning::Rstp,
        prompt: false,
        queues: Queues::PerPort,
        ageing: 300,
        ring: 64,
        steps: 1_000,
    })
}

/// Returns the step of a frame that was relayed to ports 2 and 3, without a copy at port 3.
fn step() -> Step {
    Step::Receive {
        port: 1,
        item: Item {
            mark: None,
            hops: 0,
            wire: Bytes::new(),
        },
        learnt: None,
        outcome: Outcome::Relayed {
            chosen: PortSet::from_slice(&[2, 3]).unwrap_or(PortSet::new()),
            refused: Refusals::from_slice(&[(3, NoRoom::Full)]).unwrap_or(Refusals::new()),
        },
        moved: None,
    }
}

/// Returns this step so many times.
fn steps(alloc: Global, times: u32) -> Result<Seq<Step>, Memory> {
    let mut steps = Vec::new(alloc);
    for _ in 0..times {
        steps.push(step())?;
    }
    Ok(Seq::from_vec(steps))
}

/// Returns the record of the plan's network, whose bridge took this step so many times.
fn refused(alloc: Global, times: u32) -> Result<Record, Memory>
    ensures { IfOk result (λ rec. rec.customers ≡ []) }
{
    let bridges = vec![in alloc; steps(alloc, times)?]?;
    Ok(Record {
        bridges: Seq::from_vec(bridges),
        lanes: Seq::from_vec(Vec::new(alloc)),
        customers: Seq::from_vec(Vec::new(alloc)),
    })
}

/// The number of refused copies, whether the bridges have converged, and the loss report.
type Lost = (u32, Result<Option<bool>, Memory>, &'static str);

/// Records with their loss reports.
const LOST: &[Lost] = &[
    (0, Ok(Some(true)), ""),
    (0, Ok(None), ""),
    (0, Ok(Some(false)), "bridges not converged\n"),
    (
        2,
        Err(Memory),
        "bridge B1 port 3: 2 copies not queued: full\n",
    ),
    (
        1,
        Ok(Some(false)),
        "bridge B1 port 3: 1 copies not queued: full\nbridges not converged\n",
    ),
];

/// Returns the counts of that record.
fn counts(alloc: Global, times: u32) -> Result<Tallies, Memory>
    ensures { IfOk result (λ counts. counts.customers ≡ []) }
{
    let record = refused(alloc, times)?;
    Ok(Tallies::of(alloc, &record)?)
}

/// Returns whether this is the loss report of such a run.
fn is_told(alloc: Global, (times, settled, wanted): Lost) -> Result<bool, Memory> {
    let counts = counts(alloc, times)?;
    let plan = alone(alloc)?;
    if !plan_is_sound(&plan) {
        return Ok(false);
    }
    let lost = lost_of::<Held>(alloc, &plan, &[], &counts, &settled)?;
    Ok(lost.as_str() == wanted)
}

#[test]
fn what_found_no_room_is_told_before_what_has_not_settled(rt: HostRuntime) -> Result<(), Fail> {
    for lost in LOST {
        assert!(rt; is_told(rt.alloc(), *lost)?, "{}", lost.2);
    }
    Ok(())
}
