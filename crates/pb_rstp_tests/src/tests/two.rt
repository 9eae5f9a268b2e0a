//! Two bridges on one link.

use super::walk::{ANY, Call, Row, Speech, Told, walk};
use super::{PROPOSAL, heard, with_one_port, with_two_ports};
use pb_lan::PortState;
use pb_rstp::{Change, Role, Rstp, Vector};
use std::alloc::Global;
use std::test::Fail;

/// The identifiers of the bridges.
const FIRST: u64 = 0x8000_0200_0000_0001;

const SECOND: u64 = 0x8000_0200_0000_0002;

/// The vector that the first bridge's port 1 offers to the second's.
const OFFERED: Vector = Vector {
    root: FIRST,
    cost: 0,
    bridge: FIRST,
    port: 0x8001,
    receiving: 0x8001,
};

/// The second bridge hears the first's proposal.
const AGREES: Row = Row::Does(Call::Hear(1, Speech::First(0x0e)), ANY);

/// The second bridge hears that the first's port is Forwarding.
const HEARS_AGAIN: Row = Row::Does(Call::Hear(1, Speech::First(0x3d)), ANY);

/// A tick of which nothing is checked.
const TICKS: Row = Row::Does(Call::Tick, ANY);

/// A tick at which no state changes.
const STILL: Row = Row::Does(
    Call::Tick,
    Told {
        states: Some(&[]),
        ..ANY
    },
);

#[test]
fn the_first_proposes(rt: HostRuntime) -> Result<(), Fail> {
    const ROWS: &[Row] = &[
        Row::Does(
            Call::Tick,
            Told {
                states: Some(&[]),
                flush: Some(&[]),
                sent: Some(Some(Speech::First(0x0e))),
            },
        ),
        Row::Does(
            Call::Hear(1, Speech::Answer),
            Told {
                states: Some(&[(1, PortState::Forwarding)]),
                sent: Some(Some(Speech::First(0x3d))),
                ..ANY
            },
        ),
    ];
    walk(&rt, rt.alloc(), &mut with_one_port(rt.alloc(), 1)?, ROWS)
}

/// Returns the second bridge after the first's proposal, and the change of that call.
pub(crate) fn agreed(alloc: Global) -> Result<(Rstp, Change), Fail> {
    let mut second = with_one_port(alloc, 2)?;
    let change = second.hear(1, &heard(&PROPOSAL)?)?;
    Ok((second, change))
}

#[test]
fn the_second_agrees(rt: HostRuntime) -> Result<(), Fail> {
    const ROWS: &[Row] = &[
        Row::Does(
            Call::Hear(1, Speech::First(0x0e)),
            Told {
                states: Some(&[(1, PortState::Forwarding)]),
                sent: Some(Some(Speech::Answer)),
                ..ANY
            },
        ),
        Row::Roles(&[(1, Role::Root)]),
        Row::States(&[(1, PortState::Forwarding)]),
        Row::Does(
            Call::Hear(1, Speech::First(0x3d)),
            Told {
                states: Some(&[]),
                flush: Some(&[]),
                sent: Some(None),
            },
        ),
    ];
    walk(&rt, rt.alloc(), &mut with_one_port(rt.alloc(), 2)?, ROWS)
}

#[test]
fn vectors_are_read(rt: HostRuntime) -> Result<(), Fail> {
    const ROWS: &[Row] = &[
        AGREES,
        Row::Root(FIRST, 20_000, 0x8001),
        Row::Stored(1, Some(OFFERED)),
        Row::Stored(2, None),
    ];
    walk(&rt, rt.alloc(), &mut with_one_port(rt.alloc(), 2)?, ROWS)
}

#[test]
fn an_offer_is_the_own_one(rt: HostRuntime) -> Result<(), Fail> {
    let first = with_two_ports(rt.alloc(), 1)?;
    assert!(rt; first.stored(1) == None);
    assert!(rt; first.root().root == FIRST);
    Ok(())
}

#[test]
fn six_silent_ticks_end_it(rt: HostRuntime) -> Result<(), Fail> {
    const ROWS: &[Row] = &[
        AGREES,
        HEARS_AGAIN,
        STILL,
        STILL,
        STILL,
        STILL,
        STILL,
        Row::Does(
            Call::Tick,
            Told {
                states: Some(&[(1, PortState::Discarding)]),
                flush: Some(&[1]),
                sent: Some(Some(Speech::Alone)),
            },
        ),
    ];
    walk(&rt, rt.alloc(), &mut with_one_port(rt.alloc(), 2)?, ROWS)
}

#[test]
fn greatest_costs_are_held(rt: HostRuntime) -> Result<(), Fail> {
    const ROWS: &[Row] = &[
        Row::Does(
            Call::Hear(1, Speech::Costly(0xffff_ffff)),
            Told {
                sent: Some(Some(Speech::CostlyAnswer)),
                ..ANY
            },
        ),
        Row::Root(FIRST, 0xffff_ffff, 0x8001),
    ];
    walk(&rt, rt.alloc(), &mut with_one_port(rt.alloc(), 2)?, ROWS)
}

#[test]
fn old_bpdus_are_not_stored(rt: HostRuntime) -> Result<(), Fail> {
    const ROWS: &[Row] = &[
        Row::Does(Call::Hear(1, Speech::Aged(20 * 256)), ANY),
        Row::Stored(1, None),
        Row::Does(Call::Hear(1, Speech::Aged(19 * 256)), ANY),
        Row::Stored(1, Some(OFFERED)),
    ];
    walk(&rt, rt.alloc(), &mut with_one_port(rt.alloc(), 2)?, ROWS)
}

/// The vector that port 1 of the second bridge offers while the bridge is the root.
const OWN: Vector = Vector {
    root: SECOND,
    cost: 0,
    bridge: SECOND,
    port: 0x8001,
    receiving: 0x8001,
};

/// The vector that it offers with the first bridge as the root.
const BEHIND: Vector = Vector {
    root: FIRST,
    cost: 20_000,
    ..OWN
};

#[test]
fn ports_offer_the_way_to_the_root(rt: HostRuntime) -> Result<(), Fail> {
    const ROWS: &[Row] = &[
        Row::Offers(1, Some(OWN)),
        Row::Offers(2, None),
        AGREES,
        Row::Offers(1, Some(BEHIND)),
        TICKS,
        TICKS,
        TICKS,
        TICKS,
        TICKS,
        TICKS,
        Row::Offers(1, Some(OWN)),
    ];
    walk(&rt, rt.alloc(), &mut with_one_port(rt.alloc(), 2)?, ROWS)
}

#[test]
fn a_copy_of_a_bridge_goes_on_alone(rt: HostRuntime) -> Result<(), Fail> {
    const OPENS: &[Row] = &[
        Row::Does(Call::Tick, ANY),
        Row::Does(Call::Hear(1, Speech::Answer), ANY),
    ];
    let bridge = with_one_port(rt.alloc(), 1)?;
    let mut copy = bridge.clone()?;
    assert!(rt; copy.roles() == bridge.roles() && copy.states() == bridge.states());
    walk(&rt, rt.alloc(), &mut copy, OPENS)?;
    assert_eq!(rt; copy.states(), [(1, PortState::Forwarding)].as_slice());
    assert_eq!(rt; bridge.states(), [(1, PortState::Discarding)].as_slice());
    Ok(())
}
