//! The report of a run in which an allocation failed.

ghost use Rattle.std.specs.Prelude.{◌≡◌, []};

use super::sheet::Sheet;
use pb_cmd_run::write_report;
use pb_frame::{Memory, Seq};
use pb_history::Tallies;
use pb_lan::{Plan, Queues, Spanning, plan_is_sound};
use pb_port::MemoryPort;
use pb_run::{Ended, Ran};
use std::alloc::Global;

/// Returns the plan without places.
fn nothing(alloc: Global) -> Plan
    ensures { result.customers ≡ [] }
{
    Plan {
        bridges: Seq::from_vec(Vec::new(alloc)),
        links: Seq::from_vec(Vec::new(alloc)),
        services: Seq::from_vec(Vec::new(alloc)),
        customers: Seq::from_vec(Vec::new(alloc)),
        spanning: Spanning::Rstp,
        prompt: false,
        queues: Queues::PerPort,
        ageing: 300,
        ring: 64,
        steps: 1,
    }
}

/// Returns the counts of no places.
fn no_steps(alloc: Global) -> Tallies {
    Tallies::new(Vec::new(alloc), Vec::new(alloc), Vec::new(alloc))
}

#[test]
fn want_of_memory_is_told_last(rt: HostRuntime) {
    let alloc = rt.alloc();
    let plan = nothing(alloc);
    assert!(rt; plan_is_sound(&plan));
    let ran: Ran<MemoryPort> = Ran {
        counts: no_steps(alloc),
        ports: Vec::new(alloc),
        last: Vec::new(alloc),
        ended: Ended::NoMemory,
        settled: Err(Memory),
    };
    let mut output = Sheet::whole(b"ended memory\nforest yes\nfault: memory\n");
    let status = write_report(alloc, &plan, &ran, &mut output);
    assert_eq!(rt; (status, output.is_right()), (Ok(3), true));
}
