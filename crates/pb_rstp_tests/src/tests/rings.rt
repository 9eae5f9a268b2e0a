//! Three bridges in a ring: port 1 of the first to port 1 of the second, port 2 of the second to port 2
//! of the third, port 1 of the third to port 2 of the first.

use super::settling::{Joint, plan};
use super::with_two_ports;
use pb_bpdu::Bpdu;
use pb_frame::Memory;
use pb_lan::PortState;
use pb_rstp::{Change, Role, Rstp, is_settled};
use std::alloc::{AllocError, Global};
use std::collections::VecDeque;
use std::test::Fail;

/// A BPDU on its way to a port of a bridge.
#[derive(Clone, Copy)]
struct Carried {
    bridge: usize,
    port: u8,
    bpdu: Bpdu,
}

/// Returns the far end of the link at a port of a bridge.
fn far_end(bridge: usize, port: u8) -> (usize, u8) {
    match (bridge, port) {
        (0, 1) => (1, 1),
        (1, 1) => (0, 1),
        (1, _) => (2, 2),
        (2, 2) => (1, 2),
        (2, _) => (0, 2),
        _ => (2, 1),
    }
}

/// Appends the BPDUs that a bridge sends to those on their way.
fn carry(way: &mut VecDeque<Carried>, bridge: usize, change: &Change) -> Result<(), Memory> {
    for (port, bpdu) in change.send.as_slice() {
        let (bridge, port) = far_end(bridge, *port);
        way.push_back(Carried {
            bridge,
            port,
            bpdu: *bpdu,
        })?;
    }
    Ok(())
}

/// Delivers the BPDUs on their way, at most a thousand.
fn deliver(ring: &mut Vec<Rstp>, way: &mut VecDeque<Carried>) -> Result<(), Memory> {
    for _ in 0..1000u16 {
        let Some(c) = way.pop_front() else {
            return Ok(());
        };
        if c.bridge < ring.len() {
            let change = ring[c.bridge].hear(c.port, &c.bpdu)?;
            carry(way, c.bridge, &change)?;
        }
    }
    Ok(())
}

/// Returns the ring after ten rounds, in each of which every bridge ticks once.
fn ring(alloc: Global) -> Result<Vec<Rstp>, Memory> {
    let mut ring = Vec::new(alloc);
    for last in 1..=3u8 {
        ring.push(with_two_ports(alloc, last)?)?;
    }
    let mut way = VecDeque::new(alloc);
    for _ in 0..10u8 {
        for bridge in 0..ring.len() {
            let change = ring[bridge].tick()?;
            carry(&mut way, bridge, &change)?;
        }
        deliver(&mut ring, &mut way)?;
    }
    Ok(ring)
}

/// The links of the ring.
const LINKS: &[Joint] = &[
    ("L1", (1, 1), (2, 1)),
    ("L2", (2, 2), (3, 2)),
    ("L3", (3, 1), (1, 2)),
];

/// Checks whether the bridges of the ring are settled.
fn are_settled(alloc: Global, ring: &[Rstp]) -> Result<bool, AllocError> {
    let [first, second, third] = ring else {
        return Ok(false);
    };
    let plan = plan(alloc, LINKS)?;
    Ok(is_settled(&[first, second, third], &plan))
}

const OPEN: &[(u8, PortState)] = &[(1, PortState::Forwarding), (2, PortState::Forwarding)];

const CUT: &[(u8, PortState)] = &[(1, PortState::Forwarding), (2, PortState::Discarding)];

/// The states of each bridge's ports in the end.
const STATES: &[&[(u8, PortState)]] = &[OPEN, OPEN, CUT];

/// Checks whether the bridges' ports have these states.
fn have_states(ring: &[Rstp], wanted: &[&[(u8, PortState)]]) -> bool {
    for (bridge, states) in ring.iter().zip(wanted) {
        if bridge.states() != *states {
            return false;
        }
    }
    ring.len() == wanted.len()
}

#[test]
fn a_ring_settles(rt: HostRuntime) -> Result<(), Fail> {
    let ring = ring(rt.alloc())?;
    assert!(rt; are_settled(rt.alloc(), &ring)?);
    assert!(rt; have_states(&ring, STATES));
    Ok(())
}

/// The roles of each bridge's ports in the end.
const ROLES: &[&[(u8, Role)]] = &[
    &[(1, Role::Designated), (2, Role::Designated)],
    &[(1, Role::Root), (2, Role::Designated)],
    &[(1, Role::Root), (2, Role::Alternate)],
];

/// Checks whether the bridges' ports have these roles.
fn have_roles(ring: &[Rstp], wanted: &[&[(u8, Role)]]) -> bool {
    for (bridge, roles) in ring.iter().zip(wanted) {
        if bridge.roles() != *roles {
            return false;
        }
    }
    ring.len() == wanted.len()
}

#[test]
fn a_ring_is_cut_once(rt: HostRuntime) -> Result<(), Fail> {
    let ring = ring(rt.alloc())?;
    assert!(rt; have_roles(&ring, ROLES));
    Ok(())
}
