//! The loss report of copies, BPDUs and sources that bridges dropped.

use bytes::Bytes;
use pb_frame::{Held, Memory};
use pb_history::Tallies;
use pb_lan::{
    BridgePlan, Item, Learnt, Mac, Moved, NoRoom, Outcome, Plan, PortSet, Queues, Reason, Record,
    Refusals, Seq, Spanning, Step, Text,
};
use pb_run_losses::put_losses;
use std::alloc::Global;
use std::test::Fail;

/// Local ports, each with the reason why a copy or BPDU was not queued there.
type Ports = &'static [(u8, NoRoom)];

/// A step of a bridge.
#[derive(Clone, Copy)]
enum Performed {
    /// It relayed a frame, and these ports got no copy.
    Relay(Ports),
    /// It relayed a frame to no port, with this result of learning.
    Learn(Learnt),
    /// It relayed a frame with a new source that was not learnt, and these ports got no copy.
    Refuse(Ports, Learnt),
    /// It dropped a frame.
    Filter,
    /// It heard a BPDU, and its own BPDU was not queued at these ports.
    Hear(Ports),
    /// It heard a BPDU that changed nothing.
    HearNothing,
    /// Its clock ticked, and a BPDU was not queued at these ports.
    Tick(Ports),
    /// A port was enabled, and a BPDU was not queued at these ports.
    Admin(Ports),
    /// It sent a frame.
    Transmit,
}

use Performed::{Admin, Filter, Hear, HearNothing, Learn, Refuse, Relay, Tick, Transmit};

/// The bridges of the plan, in its order.
const NAMES: &[&str] = &["B2", "B1", "core"];

/// The steps of each bridge of the record, and the loss report.
type Row = (&'static [&'static [Performed]], &'static str);

/// The queue was full.
const FULL: NoRoom = NoRoom::Full;

/// An allocation failed.
const NO_MEMORY: NoRoom = NoRoom::Memory;

/// Steps without losses: none of them has a line.
const QUIET: &[Performed] = &[
    Relay(&[]),
    Learn(Learnt::New),
    Learn(Learnt::Kept),
    Learn(Learnt::Moved),
    Learn(Learnt::Group),
    Filter,
    Hear(&[]),
    HearNothing,
    Tick(&[]),
    Admin(&[]),
    Transmit,
];

/// Records with their loss reports.
const ROWS: &[Row] = &[
    (&[], ""),
    (&[&[], &[], &[]], ""),
    (&[QUIET, QUIET, QUIET], ""),
    // copies, at the lowest and at the highest port, for both reasons
    (
        &[&[
            Relay(&[(16, FULL)]),
            Relay(&[(1, NO_MEMORY), (16, FULL)]),
            Relay(&[(1, FULL), (16, NO_MEMORY)]),
            Relay(&[(1, FULL), (2, FULL), (16, FULL)]),
        ]],
        "bridge B2 port 1: 2 copies not queued: full\n\
         bridge B2 port 1: 1 copies not queued: memory\n\
         bridge B2 port 2: 1 copies not queued: full\n\
         bridge B2 port 16: 3 copies not queued: full\n\
         bridge B2 port 16: 1 copies not queued: memory\n",
    ),
    // more than nine
    (
        &[&[Relay(&[(3, FULL)]); 12]],
        "bridge B2 port 3: 12 copies not queued: full\n",
    ),
    // each step that may drop a BPDU, and one port twice in a step
    (
        &[
            &[],
            &[
                Hear(&[(4, FULL), (2, NO_MEMORY)]),
                Tick(&[(4, FULL), (4, FULL)]),
                Admin(&[(2, FULL)]),
            ],
        ],
        "bridge B1 port 2: 1 BPDUs not queued: full\n\
         bridge B1 port 2: 1 BPDUs not queued: memory\n\
         bridge B1 port 4: 3 BPDUs not queued: full\n",
    ),
    // no line for a number that no local port has
    (&[&[Tick(&[(0, FULL), (17, FULL), (255, NO_MEMORY)])]], ""),
    // sources
    (
        &[
            &[],
            &[],
            &[
                Learn(Learnt::Full),
                Learn(Learnt::Memory),
                Learn(Learnt::New),
                Learn(Learnt::Full),
            ],
        ],
        "bridge core: 2 sources not learnt: full\n\
         bridge core: 1 sources not learnt: memory\n",
    ),
    // the order: the plan's bridges, ports, copies before BPDUs, sources last
    (
        &[
            &[
                Refuse(&[(5, FULL), (7, NO_MEMORY)], Learnt::Memory),
                Tick(&[(5, NO_MEMORY), (1, FULL)]),
            ],
            QUIET,
            &[
                Learn(Learnt::Full),
                Admin(&[(5, FULL)]),
                Relay(&[(5, NO_MEMORY)]),
            ],
        ],
        "bridge B2 port 1: 1 BPDUs not queued: full\n\
         bridge B2 port 5: 1 copies not queued: full\n\
         bridge B2 port 5: 1 BPDUs not queued: memory\n\
         bridge B2 port 7: 1 copies not queued: memory\n\
         bridge B2: 1 sources not learnt: memory\n\
         bridge core port 5: 1 copies not queued: memory\n\
         bridge core port 5: 1 BPDUs not queued: full\n\
         bridge core: 1 sources not learnt: full\n",
    ),
    // a record with fewer lists than the plan has bridges
    (
        &[&[Refuse(&[(1, FULL)], Learnt::Full)]],
        "bridge B2 port 1: 1 copies not queued: full\n\
         bridge B2: 1 sources not learnt: full\n",
    ),
    // a record with more lists
    (
        &[QUIET, QUIET, &[Tick(&[(1, FULL)])], &[Tick(&[(1, FULL)])]],
        "bridge core port 1: 1 BPDUs not queued: full\n",
    ),
];

/// Returns the report of a step in which no port changed, but a BPDU was not queued at these ports.
fn moved_of(alloc: Global, ports: &[(u8, NoRoom)]) -> Result<Moved, Memory> {
    let dropped = Vec::from_slice(alloc, ports)?;
    Ok(Moved {
        states: Seq::from_vec(Vec::new(alloc)),
        flushed: Seq::from_vec(Vec::new(alloc)),
        queued: Seq::from_vec(Vec::new(alloc)),
        replaced: Seq::from_vec(Vec::new(alloc)),
        dropped: Seq::from_vec(dropped),
    })
}

/// Returns the ports that got no copy.
fn refusals_of(refused: &[(u8, NoRoom)]) -> Refusals {
    match Refusals::from_slice(refused) {
        Some(refusals) => refusals,
        None => Refusals::new(),
    }
}

/// Returns the outcome of a frame that was relayed, with the ports that got no copy.
fn relayed(refused: &[(u8, NoRoom)]) -> Outcome {
    Outcome::Relayed {
        chosen: PortSet::new(),
        refused: refusals_of(refused),
    }
}

/// Returns the result of learning and the outcome of a frame.
fn ruling_of(performed: Performed) -> (Option<Learnt>, Outcome) {
    match performed {
        Relay(ports) => (Some(Learnt::Kept), relayed(ports)),
        Learn(learnt) => (Some(learnt), relayed(&[])),
        Refuse(ports, learnt) => (Some(learnt), relayed(ports)),
        Filter => (None, Outcome::Filtered(Reason::NotMember)),
        _ => (None, Outcome::Heard),
    }
}

/// Returns an item of two octets.
fn item(alloc: Global) -> Result<Item, Memory> {
    let wire = Bytes::copy_from_slice(alloc, b"\xab\x01")?;
    Ok(Item {
        mark: None,
        hops: 0,
        wire,
    })
}

/// Returns the report of a BPDU that a bridge heard, if it changed something.
fn heard(alloc: Global, performed: Performed) -> Result<Option<Held<Moved>>, Memory> {
    let Hear(ports) = performed else {
        return Ok(None);
    };
    Ok(Some(Held::new(alloc, moved_of(alloc, ports)?)?))
}

/// Returns the step in which a bridge received a frame.
fn receipt(performed: Performed, item: Item, moved: Option<Held<Moved>>) -> Step {
    let (learnt, outcome) = ruling_of(performed);
    Step::Receive {
        port: 9,
        item,
        learnt,
        outcome,
        moved,
    }
}

/// Returns the Receive step of a bridge.
fn receipt_of(alloc: Global, performed: Performed) -> Result<Step, Memory> {
    let item = item(alloc)?;
    let moved = heard(alloc, performed)?;
    Ok(receipt(performed, item, moved))
}

/// Returns a Transmit step.
fn transmission(alloc: Global) -> Result<Step, Memory> {
    let item = item(alloc)?;
    Ok(Step::Transmit { port: 9, item })
}

/// Returns a Tick step with the BPDUs that were not queued.
fn tick(alloc: Global, ports: &[(u8, NoRoom)]) -> Result<Step, Memory> {
    let moved = moved_of(alloc, ports)?;
    Ok(Step::Tick { now: 1, moved })
}

/// Returns an Admin step with the BPDUs that were not queued.
fn admin(alloc: Global, ports: &[(u8, NoRoom)]) -> Result<Step, Memory> {
    let moved = moved_of(alloc, ports)?;
    Ok(Step::Admin {
        port: 3,
        up: true,
        moved,
    })
}

/// Returns the step of a bridge.
fn step_of(alloc: Global, performed: Performed) -> Result<Step, Memory> {
    match performed {
        Tick(ports) => tick(alloc, ports),
        Admin(ports) => admin(alloc, ports),
        Transmit => transmission(alloc),
        _ => receipt_of(alloc, performed),
    }
}

/// Returns the steps of a bridge.
fn steps_of(alloc: Global, all: &[Performed]) -> Result<Seq<Step>, Memory> {
    let mut steps = Vec::new(alloc);
    for performed in all {
        steps.push(step_of(alloc, *performed)?)?;
    }
    Ok(Seq::from_vec(steps))
}

/// Returns the record of bridges with these steps.
fn record_of(alloc: Global, bridges: &[&[Performed]]) -> Result<Record, Memory> {
    let mut lists = Vec::new(alloc);
    for all in bridges {
        lists.push(steps_of(alloc, all)?)?;
    }
    Ok(Record {
        bridges: Seq::from_vec(lists),
        lanes: Seq::from_vec(Vec::new(alloc)),
        customers: Seq::from_vec(Vec::new(alloc)),
    })
}

/// Returns a bridge with this name.
fn bridge(alloc: Global, name: &str) -> Result<BridgePlan, Memory> {
    let name = String::from_str(alloc, name)?;
    Ok(BridgePlan {
        name: Text::from_string(name),
        address: Mac([2, 0, 0, 0, 0, 1]),
        priority: 32768,
        queue: 1,
    })
}

/// Returns the bridges of the plan.
fn bridges(alloc: Global) -> Result<Seq<BridgePlan>, Memory> {
    let mut bridges = Vec::new(alloc);
    for name in NAMES {
        bridges.push(bridge(alloc, name)?)?;
    }
    Ok(Seq::from_vec(bridges))
}

/// Returns the plan of the bridges, without links.
fn plan_of(alloc: Global) -> Result<Plan, Memory> {
    let bridges = bridges(alloc)?;
    Ok(Plan {
        bridges,
        links: Seq::from_vec(Vec::new(alloc)),
        services: Seq::from_vec(Vec::new(alloc)),
        customers: Seq::from_vec(Vec::new(alloc)),
        spanning: Spanning::Fixed,
        prompt: false,
        queues: Queues::PerPort,
        ageing: 300,
        ring: 1,
        steps: 1000,
    })
}

/// Returns the counts of bridges with these steps.
fn tallies_of(alloc: Global, bridges: &[&[Performed]]) -> Result<Tallies, Memory> {
    let record = record_of(alloc, bridges)?;
    Tallies::of(alloc, &record)
}

/// Appends the loss report of bridges with these steps.
fn put(out: &mut String, alloc: Global, bridges: &[&[Performed]]) -> Result<(), Memory> {
    let plan = plan_of(alloc)?;
    let tallies = tallies_of(alloc, bridges)?;
    put_losses(out, &plan, &tallies)
}

/// Returns whether this is the loss report of bridges with these steps, and it follows the earlier text.
fn is_told(alloc: Global, bridges: &[&[Performed]], wanted: &str) -> Result<bool, Memory> {
    let mut out = String::from_str(alloc, "before\n")?;
    put(&mut out, alloc, bridges)?;
    Ok(out.as_str().strip_prefix("before\n") == Some(wanted))
}

#[test]
fn nothing_is_lost_in_silence(rt: HostRuntime) -> Result<(), Fail> {
    for (bridges, wanted) in ROWS {
        assert!(rt; is_told(rt.alloc(), bridges, wanted)?, "{wanted}");
    }
    Ok(())
}
