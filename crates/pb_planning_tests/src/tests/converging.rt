//! Networks of plan files that are driven until nothing is due, or to convergence.

ghost use Rattle.std.specs.Prelude.{◌≡◌};
ghost use Rattle.pb_lan.specs.Plans.{IsSound};

use bytes::Bytes;
use pb_cmd_init::{Topology, write_plan};
use pb_converge::{Convergence, DriveFault, converge, drain, stand};
use pb_frame::Memory;
use pb_lan::{Event, Place, Plan, Spanning, Step};
use pb_net::Net;
use pb_service::read_plan;
use std::alloc::{AllocError, Global};
use std::process::Abort;
use std::test::Fail;

/// A broadcast of sixteen octets.
const BROADCAST: &[u8] = &[255, 255, 255, 255, 255, 255, 2, 0, 0, 0, 1, 1, 8, 0, 65, 66];

/// Two bridges that a link joins, each with a customer port. Each place takes at most two steps.
const SHORT: &str = "\
network = { steps = 2 }
bridge = [{ name = \"B1\", address = \"02-00-00-00-00-01\" }, { name = \"B2\", address = \"02-00-00-00-00-02\" }]
link = [{ name = \"L1\", a = \"B1\", a_port = 1, b = \"B2\", b_port = 1 }]
service = [{ name = \"red\", vid = 100 }]
port = [{ name = \"C1\", bridge = \"B1\", port = 2, service = \"red\" }, { name = \"C2\", bridge = \"B2\", port = 2, \
service = \"red\" }]
";

/// An action on a network, with its result.
#[derive(Clone, Copy, Debug)]
enum Row {
    /// A broadcast is injected at a customer port.
    Enters(u8),
    /// A port to another bridge is disabled.
    Falls(u8, u8),
    /// At most so many events are done.
    Drains(u64, Result<u64, DriveFault>),
    /// The bridges tick at most so often, with at most so many events besides.
    Converges(u32, u64, Result<Convergence, DriveFault>),
}

/// Injects a broadcast at a customer port, and returns whether that was accepted.
fn enters(alloc: Global, net: &mut Net, port: u8) -> Result<bool, AllocError>
    ensures { net.new.plan ≡ net.old.plan }
{
    let frame = Bytes::copy_from_slice(alloc, BROADCAST)?;
    Ok(net.step(Event::Poll { port, frame }).is_ok())
}

/// Disables a port to another bridge, and returns whether that was accepted.
fn falls(net: &mut Net, bridge: u8, port: u8) -> bool
    ensures { net.new.plan ≡ net.old.plan }
{
    let up = false;
    net.step(Event::Admin { bridge, port, up }).is_ok()
}

/// Performs the action of a row, and returns whether the result is the expected one.
fn holds(alloc: Global, net: &mut Net, plan: &Plan, row: Row) -> Result<bool, AllocError>
    requires sound { IsSound plan.now }
    requires plan { net.old.plan ≡ plan.now }
    ensures { net.new.plan ≡ plan.now }
{
    Ok(match row {
        Row::Enters(port) => enters(alloc, net, port)?,
        Row::Falls(bridge, port) => falls(net, bridge, port),
        Row::Drains(most, want) => drain(net, plan, most) == want,
        Row::Converges(most, events, want) => converge(alloc, net, plan, most, events) == want,
    })
}

/// Checks all rows, in order, on the network of a plan file.
fn goes(rt: &impl Abort, alloc: Global, file: &[u8], rows: &[Row]) -> Result<(), Fail> {
    let Ok((plan, _ports)) = read_plan(alloc, file) else {
        panic!(rt; "no plan");
    };
    let mut net = Net::new(alloc, plan.clone()?)?;
    for (number, row) in rows.iter().enumerate() {
        assert!(rt;
            holds(alloc, &mut net, &plan, *row)?,
            "row {number}: {row:?}"
        );
    }
    Ok(())
}

/// Checks all rows on the network of a starter plan.
fn begins(rt: &impl Abort, alloc: Global, topology: Topology, rows: &[Row]) -> Result<(), Fail> {
    let mut file = Vec::new(alloc);
    assert_eq!(rt; write_plan(alloc, topology, 1, &mut file), Ok(()));
    goes(rt, alloc, file.as_slice(), rows)
}

/// Checks a frame from C1 over the link to C2: Feed, Receive, Transmit, Take, Put, Receive, Transmit, Deliver.
#[test]
fn a_frame_goes_as_far_as_it_goes(rt: HostRuntime) -> Result<(), Fail> {
    const ROWS: &[Row] = &[
        Row::Drains(0, Ok(0)),
        Row::Enters(1),
        Row::Drains(8, Ok(8)),
        Row::Drains(0, Ok(0)),
        Row::Enters(2),
        // The eighth event was one too many, and was done.
        Row::Drains(7, Err(DriveFault::Events)),
        Row::Drains(0, Ok(0)),
        Row::Enters(1),
        Row::Drains(0, Err(DriveFault::Events)),
        Row::Drains(100, Ok(7)),
        // The plan gives the states.
        Row::Converges(200, 0, Ok(Convergence::Given)),
    ];
    begins(&rt, rt.alloc(), Topology::Line(2), ROWS)
}

/// Checks the limit on steps. A bridge takes two steps for a frame; the third is due for the frame that comes back.
#[test]
fn a_place_has_so_many_steps(rt: HostRuntime) -> Result<(), Fail> {
    const ROWS: &[Row] = &[
        Row::Enters(1),
        Row::Drains(100, Ok(8)),
        Row::Enters(2),
        Row::Drains(100, Err(DriveFault::Steps)),
    ];
    goes(&rt, rt.alloc(), SHORT.as_bytes(), ROWS)
}

/// Checks the ticks to convergence. The root's BPDUs cross a small ring within a tick. In a ring of 32 bridges better
/// roots arrive one after the other, and a port sends at most six BPDUs in a tick; this takes more ticks.
///
/// Then one end of a link falls. The far end gets no sign of it: what it heard has to age out. The last of 32 bridges
/// is then too far from the root, since BPDUs pass at most 20 bridges.
#[test]
fn rings_converge(rt: HostRuntime) -> Result<(), Fail> {
    let again = Convergence::Converged(7);
    for (bridges, ticks, again) in [
        (3u8, 2, again),
        (6, 2, again),
        (32, 14, Convergence::NotConverged(200)),
    ] {
        let rows = [
            Row::Converges(200, 1_000_000, Ok(Convergence::Converged(ticks))),
            Row::Falls(1, 1),
            Row::Converges(200, 1_000_000, Ok(again)),
        ];
        begins(&rt, rt.alloc(), Topology::Ring(bridges), &rows)?;
    }
    Ok(())
}

/// Checks the limit on ticks. A network that has ticked once needs one tick less, but at least two: it must have
/// converged after two ticks in a row.
#[test]
fn ticks_have_a_limit(rt: HostRuntime) -> Result<(), Fail> {
    for (bridges, ticks) in [(3u8, 2), (6, 2), (32, 13)] {
        let rows = [
            Row::Converges(0, 0, Ok(Convergence::NotConverged(0))),
            Row::Converges(1, 1_000_000, Ok(Convergence::NotConverged(1))),
            Row::Converges(
                ticks - 1,
                1_000_000,
                Ok(Convergence::NotConverged(ticks - 1)),
            ),
        ];
        begins(&rt, rt.alloc(), Topology::Ring(bridges), &rows)?;
        let rows = [
            Row::Converges(1, 1_000_000, Ok(Convergence::NotConverged(1))),
            Row::Converges(ticks, 1_000_000, Ok(Convergence::Converged(ticks))),
        ];
        begins(&rt, rt.alloc(), Topology::Ring(bridges), &rows)?;
    }
    Ok(())
}

/// Checks the limit on events. The first BPDUs of three bridges are more than three events.
#[test]
fn events_have_a_limit(rt: HostRuntime) -> Result<(), Fail> {
    const ROWS: &[Row] = &[Row::Converges(200, 3, Err(DriveFault::Events))];
    begins(&rt, rt.alloc(), Topology::Ring(3), ROWS)
}

/// Returns how often the first bridge ticked.
fn ticks_of(net: &Net) -> usize {
    let first = Place::Bridge(1);
    if !net.has_place(first) || !net.keeps_steps() {
        return 0;
    }
    let steps = net.steps(first);
    steps
        .iter()
        .filter(|step| matches!(step, Step::Tick { .. }))
        .count()
}

/// Returns whether the machines of two networks are the same.
fn have_same_machines(alloc: Global, one: &Net, other: &Net, plan: &Plan) -> Result<bool, Memory>
    requires one { one.now.plan ≡ plan.now }
    requires other { other.now.plan ≡ plan.now }
{
    if plan.spanning != Spanning::Rstp {
        return Ok(false);
    }
    let (ones, others) = (one.machines(alloc)?, other.machines(alloc)?);
    let pairs = ones.iter().zip(others.iter());
    Ok(ones.len() == others.len() && pairs.into_iter().all(|(a, b)| a.is_same(b)))
}

/// Checks that two networks that keep their steps perform all rounds, by `converge` and by `stand`, and are the same
/// then.
fn perform_all_rounds(
    rt: &impl Abort,
    alloc: Global,
    plan: &Plan,
    net: &mut Net,
    long: &mut Net,
) -> Result<(), Fail>
    requires sound { IsSound plan.now }
    requires one { net.old.plan ≡ plan.now }
    requires other { long.old.plan ≡ plan.now }
{
    let ended = converge(alloc, net, plan, 200, 1_000_000);
    assert_eq!(rt; ended, Ok(Convergence::NotConverged(200)));
    assert_eq!(rt; stand(long, plan, 200, 1_000_000), Ok(()));
    assert_eq!(rt; (ticks_of(long), ticks_of(net)), (200, 200));
    assert!(rt; have_same_machines(alloc, net, long, plan)?);
    Ok(())
}

/// Disables the first link of a ring, and checks that the network and its copy perform all rounds.
fn go_round_without_a_link(rt: &impl Abort, alloc: Global, plan: &Plan) -> Result<(), Fail>
    requires { IsSound plan.now }
{
    let mut net = Net::new(alloc, plan.clone()?)?;
    assert!(rt; falls(&mut net, 1, 1) && falls(&mut net, 2, 2));
    let mut long = net.clone()?;
    perform_all_rounds(rt, alloc, plan, &mut net, &mut long)
}

/// Checks a ring of 24 bridges without a link, which is longer than information lasts: its bridges never converge.
/// Their machines recur, but a network that keeps its steps performs all rounds.
#[test]
fn a_network_that_keeps_its_steps_performs_all_rounds(rt: HostRuntime) -> Result<(), Fail> {
    let alloc = rt.alloc();
    let mut file = Vec::new(alloc);
    assert_eq!(rt; write_plan(alloc, Topology::Ring(24), 1, &mut file), Ok(()));
    let Ok((plan, _ports)) = read_plan(alloc, file.as_slice()) else {
        panic!(rt; "no plan");
    };
    go_round_without_a_link(&rt, alloc, &plan)
}
