//! A test bench that checks the premises of the laws on a finished record.

ghost use Rattle.std.specs.Prelude.{IfOk};
ghost use Rattle.pb_forest.specs.Benches.{CanArrive, TellsDelivered};
ghost use Rattle.pb_lan.specs.LastShapes.{last_shape};
ghost use Rattle.pb_lan.specs.Plans.{IsSound};
ghost use Rattle.pb_net_tests.specs.Benches.{TellsAllDelivered};

use super::draft::{Draft, Joint};
use super::networks::JOINED;
use super::plans::plan_of;
use super::records::{Done, FrameAction, Piece, record_of, tallies_of};
use pb_forest::{forest, is_drained};
use pb_frame::Memory;
use pb_history::{Tallies, last_shape};
use pb_lan::{
    Plan, Record, frames_arrive_exactly_once, left, plan_is_sound, planned_states_stay,
    start_shape, still_frames_are_traced,
};
use std::alloc::Global;
use std::test::Fail;

/// Checks whether the active links of the service are a forest at the end of the record, and no customer's frame is on
/// its way. Each frame of the service that was handled under that shape, and neither refused nor lost, then left each
/// other port of its tree as often as it should: a broadcast once.
fn arrives(alloc: Global, plan: &Plan, counts: &Tallies, service: u8) -> Result<bool, Memory>
    requires { IsSound plan.now }
    ensures { IfOk result (TellsDelivered plan.now (last_shape plan.now counts.now) counts.now service) }
{
    let shape = last_shape(alloc, plan, counts)?;
    let Some(_rooted) = forest(alloc, &shape, plan, service)? else {
        return Ok(false);
    };
    frames_arrive_exactly_once();
    Ok(is_drained(counts))
}

/// Checks whether the active links of the service are a forest at the start, and no customer's frame is on its way. If
/// the plan gives the states and no port was enabled or disabled, each frame of the service that was neither refused
/// nor lost then left each other port of its tree as often as it should, whatever the shape.
fn all_arrive(alloc: Global, plan: &Plan, counts: &Tallies, service: u8) -> Result<bool, Memory>
    requires { IsSound plan.now }
    ensures { IfOk result (TellsAllDelivered plan.now counts.now service) }
{
    let shape = start_shape(alloc, plan)?;
    let Some(_rooted) = forest(alloc, &shape, plan, service)? else {
        return Ok(false);
    };
    planned_states_stay();
    still_frames_are_traced();
    frames_arrive_exactly_once();
    Ok(is_drained(counts))
}

/// Shows that the premises of the law can all be met: a broadcast over a link meets them.
fn broadcasts_can_arrive()
    ensures { CanArrive }
{}

/// A broadcast of sixteen octets.
const BROADCAST: &[u8] = &[255, 255, 255, 255, 255, 255, 2, 0, 0, 0, 1, 1, 8, 0, 65, 66];

/// The broadcast with the S-tag of red.
const TAGGED: &[u8] = &[
    255, 255, 255, 255, 255, 255, 2, 0, 0, 0, 1, 1, 136, 168, 0, 100, 8, 0, 65, 66,
];

const CAME: Piece = (0, BROADCAST);

const CROSSED: Piece = (1, TAGGED);

const LEFT: Piece = (2, BROADCAST);

const AT_C1: &[FrameAction] = &[FrameAction::Poll(CAME), FrameAction::Feed(CAME)];

const AT_B1: &[FrameAction] = &[
    FrameAction::Receive(2, CAME, 1, &[]),
    FrameAction::Transmit(1, CROSSED),
];

/// The broadcast went from C1 to C2.
const FINISHED: Done = Done {
    bridges: &[
        AT_B1,
        &[
            FrameAction::Receive(1, CROSSED, 2, &[]),
            FrameAction::Transmit(2, LEFT),
        ],
    ],
    lanes: &[
        &[FrameAction::Take(CROSSED), FrameAction::Put(CROSSED)],
        &[],
    ],
    customers: &[AT_C1, &[FrameAction::Deliver(LEFT)], &[]],
};

/// It is in the hand of the lane.
const ON_ITS_WAY: Done = Done {
    bridges: &[AT_B1, &[]],
    lanes: &[&[FrameAction::Take(CROSSED)], &[]],
    customers: &[AT_C1, &[], &[]],
};

/// The network with a second link, which forms a loop.
const RINGED: Draft = Draft {
    links: &[Joint::Plain((1, 1), (2, 1)), Joint::Plain((1, 3), (2, 4))],
    ..JOINED
};

/// A network, the actions in it, and whether the bench says that the frames arrived.
const ROWS: &[(Draft, Done, bool)] = &[
    (JOINED, FINISHED, true),
    (JOINED, ON_ITS_WAY, false),
    (RINGED, FINISHED, false),
];

/// Returns the results of both benches for red.
fn said(alloc: Global, plan: &Plan, counts: &Tallies) -> Result<(bool, bool), Memory>
    requires { IsSound plan.now }
{
    let first = arrives(alloc, plan, counts, 1)?;
    Ok((first, all_arrive(alloc, plan, counts, 1)?))
}

/// Checks whether both benches have this result, and the plan is sound.
fn is_told(alloc: Global, draft: &Draft, done: &Done, wanted: bool) -> Result<bool, Memory> {
    let plan = plan_of(alloc, draft)?;
    if !plan_is_sound(&plan) {
        return Ok(false);
    }
    let counts = tallies_of(alloc, done)?;
    Ok(said(alloc, &plan, &counts)? == (wanted, wanted))
}

#[test]
fn a_bench_tells_what_arrived(rt: HostRuntime) -> Result<(), Fail> {
    broadcasts_can_arrive();
    for (number, (draft, done, wanted)) in ROWS.iter().enumerate() {
        assert!(rt; is_told(rt.alloc(), draft, done, *wanted)?, "row {number}");
    }
    Ok(())
}

/// Checks whether the broadcast alone left at customer port 2.
fn has_left(alloc: Global, rec: &Record) -> Result<bool, Memory> {
    let frames = left(alloc, rec, 2)?;
    match frames.first() {
        Some(frame) => Ok(frames.len() == 1 && frame.as_slice() == BROADCAST),
        None => Ok(false),
    }
}

#[test]
fn the_broadcast_left_as_it_came(rt: HostRuntime) -> Result<(), Fail> {
    let rec = record_of(rt.alloc(), &FINISHED)?;
    assert!(rt; has_left(rt.alloc(), &rec)?);
    Ok(())
}
