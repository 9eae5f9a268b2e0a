//! Two bridges that decide their own tree.

use super::draft::Draft;
use super::networks::{BROADCAST, JOINED};
use super::rows::{Act, Row};
use super::walk::walks;
use pb_lan::{Place, Spanning};
use std::test::Fail;

/// B1 and B2 under the protocol.
const TWO: Draft = Draft {
    spanning: Spanning::Rstp,
    ..JOINED
};

#[test]
fn the_plan_is_never_settled(rt: HostRuntime) -> Result<(), Fail> {
    const ROWS: &[Row] = &[
        Row::Settled(None),
        Row::Converged(None),
        Row::Roles(1, None),
    ];
    walks(&rt, rt.alloc(), &JOINED, ROWS)
}

#[test]
fn two_bridges_settle(rt: HostRuntime) -> Result<(), Fail> {
    const ROWS: &[Row] = &[
        Row::Settled(Some(false)),
        Row::Does(Act::Tick(1)),
        Row::Crosses(1),
        // B2 has heard B1, and B1 waits for its agreement.
        Row::Settled(Some(true)),
        Row::Converged(Some(false)),
        // B2 agrees, and B1 says that its port is open.
        Row::Crosses(2),
        Row::Converged(Some(true)),
        Row::Crosses(1),
        Row::Settled(Some(true)),
        Row::Idle(Act::Transmit(2, 1)),
    ];
    walks(&rt, rt.alloc(), &TWO, ROWS)
}

#[test]
fn a_silent_neighbour_is_forgotten(rt: HostRuntime) -> Result<(), Fail> {
    const ROWS: &[Row] = &[
        Row::Does(Act::Tick(1)),
        Row::Crosses(1),
        Row::Crosses(2),
        Row::Crosses(1),
        Row::Does(Act::Tick(2)),
        Row::Does(Act::Tick(2)),
        Row::Does(Act::Tick(2)),
        Row::Does(Act::Tick(2)),
        Row::Does(Act::Tick(2)),
        Row::Does(Act::Tick(2)),
        Row::Settled(Some(false)),
    ];
    walks(&rt, rt.alloc(), &TWO, ROWS)
}

#[test]
fn frames_cross_once_all_have_agreed(rt: HostRuntime) -> Result<(), Fail> {
    const ROWS: &[Row] = &[
        Row::Does(Act::Tick(1)),
        Row::Crosses(1),
        Row::Crosses(2),
        Row::Crosses(1),
        Row::Enters(1, BROADCAST),
        Row::Crosses(1),
        Row::Leaves(2),
        Row::Moved(Place::Customer(2), BROADCAST),
    ];
    walks(&rt, rt.alloc(), &TWO, ROWS)
}
