//! The states of ports, at the start and after a port went down.

use super::draft::{Draft, TWO_BRIDGES};
use super::made::{plan_of, seq};
use pb_frame::Memory;
use pb_history::{Tallies, last_shape};
use pb_lan::{Moved, PortState, Record, Seq, Shape, Spanning, Step, plan_is_sound, start_shape};
use std::alloc::{AllocError, Global};
use std::test::Fail;

/// Columns of tables, one for each local port of a bridge.
const D: PortState = PortState::Discarding;

const F: PortState = PortState::Forwarding;

/// Checks whether the ports of all bridges have these states.
fn are(shape: &Shape, wanted: &[&[PortState]]) -> bool {
    let bridges = shape.states.as_slice();
    for (bridge, states) in bridges.iter().zip(wanted) {
        if bridge.as_slice() != *states {
            return false;
        }
    }
    bridges.len() == wanted.len()
}

/// Checks whether the plan of a draft is sound, and its ports have these states at the start.
fn start(alloc: Global, draft: &Draft, wanted: &[&[PortState]]) -> Result<bool, Memory> {
    let plan = plan_of(alloc, draft)?;
    if !plan_is_sound(&plan) {
        return Ok(false);
    }
    let shape = start_shape(alloc, &plan)?;
    Ok(are(&shape, wanted))
}

#[test]
fn ports_start_as_planned(rt: HostRuntime) -> Result<(), Fail> {
    const STATES: &[&[PortState]] = &[
        &[F, F, D, D, D, D, D, D, D, D, D, D, D, D, D, D],
        &[F, F, F, D, D, D, D, D, D, D, D, D, D, D, D, D],
    ];
    assert!(rt; start(rt.alloc(), &TWO_BRIDGES, STATES)?);
    Ok(())
}

/// The two bridges under the spanning tree.
const UNDER_THE_TREE: Draft = Draft {
    spanning: Spanning::Rstp,
    ..TWO_BRIDGES
};

#[test]
fn provider_ports_start_discarding_under_the_spanning_tree(rt: HostRuntime) -> Result<(), Fail> {
    const STATES: &[&[PortState]] = &[
        &[D, F, D, D, D, D, D, D, D, D, D, D, D, D, D, D],
        &[D, F, F, D, D, D, D, D, D, D, D, D, D, D, D, D],
    ];
    assert!(rt; start(rt.alloc(), &UNDER_THE_TREE, STATES)?);
    Ok(())
}

/// Returns a change of these ports' states, with these ports flushed.
fn moved(alloc: Global, states: &[(u8, PortState)], flushed: &[u8]) -> Result<Moved, AllocError> {
    let states = seq(alloc, states)?;
    let flushed = seq(alloc, flushed)?;
    Ok(Moved {
        states,
        flushed,
        queued: Seq::from_vec(Vec::new(alloc)),
        replaced: Seq::from_vec(Vec::new(alloc)),
        dropped: Seq::from_vec(Vec::new(alloc)),
    })
}

/// Returns the steps of a bridge whose port 1 was disabled.
fn went_down(alloc: Global) -> Result<Vec<Step>, AllocError> {
    const STATES: &[(u8, PortState)] = &[(1, D)];
    let mut steps = Vec::new(alloc);
    steps.push(Step::Admin {
        port: 1,
        up: false,
        moved: moved(alloc, STATES, &[1])?,
    })?;
    Ok(steps)
}

/// Returns the steps of two bridges: port 1 of the first was disabled.
fn steps(alloc: Global) -> Result<Vec<Seq<Step>>, AllocError> {
    let mut bridges = Vec::new(alloc);
    bridges.push(Seq::from_vec(went_down(alloc)?))?;
    bridges.push(Seq::from_vec(Vec::new(alloc)))?;
    Ok(bridges)
}

/// Returns the record in which port 1 of the first bridge was disabled.
fn record(alloc: Global) -> Result<Record, AllocError> {
    let bridges = steps(alloc)?;
    Ok(Record {
        bridges: Seq::from_vec(bridges),
        lanes: Seq::from_vec(Vec::new(alloc)),
        customers: Seq::from_vec(Vec::new(alloc)),
    })
}

/// Checks whether the plan of a draft is sound, and its ports have these states at the end of the record.
fn end(
    alloc: Global,
    draft: &Draft,
    record: &Record,
    wanted: &[&[PortState]],
) -> Result<bool, Memory> {
    let plan = plan_of(alloc, draft)?;
    if !plan_is_sound(&plan) {
        return Ok(false);
    }
    let shape = last_shape(alloc, &plan, &Tallies::of(alloc, record)?)?;
    Ok(are(&shape, wanted))
}

#[test]
fn a_port_that_went_down_is_discarding(rt: HostRuntime) -> Result<(), Fail> {
    const STATES: &[&[PortState]] = &[
        &[D, F, D, D, D, D, D, D, D, D, D, D, D, D, D, D],
        &[F, F, F, D, D, D, D, D, D, D, D, D, D, D, D, D],
    ];
    let record = record(rt.alloc())?;
    assert!(rt; end(rt.alloc(), &TWO_BRIDGES, &record, STATES)?);
    Ok(())
}
