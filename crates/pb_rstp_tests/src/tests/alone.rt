//! One bridge by itself.

use super::walk::{ANY, Call, Row, Speech, Told, walk};
use super::{first_with, heard, sends, with_one_port, with_two_ports};
use pb_lan::PortState;
use pb_rstp::{Change, Role, Rstp};
use std::alloc::Global;
use std::test::Fail;

/// Returns the flags of the BPDU that is sent at a tick of the first thirty, if there is one.
fn flags_at(tick: u8) -> Option<u8> {
    if tick == 30 {
        Some(0x3d)
    } else if tick > 1 && tick % 2 == 1 {
        None
    } else if tick < 15 {
        Some(0x0e)
    } else {
        Some(0x1e)
    }
}

/// Checks whether the BPDU that is sent at a tick is the expected one.
fn is_sent(alloc: Global, change: &Change, tick: u8) -> Result<bool, Fail> {
    match flags_at(tick) {
        None => Ok(change.send.len() == 0),
        Some(flags) => Ok(sends(alloc, change, 1, &first_with(flags))?),
    }
}

/// Checks whether the states that change at a tick are the expected ones.
fn is_moved(change: &Change, tick: u8) -> bool {
    let states = change.states.as_slice();
    match tick {
        15 => states == [(1, PortState::Learning)].as_slice(),
        30 => states == [(1, PortState::Forwarding)].as_slice(),
        _ => states.is_empty(),
    }
}

#[test]
fn thirty_ticks_lead_to_forwarding(rt: HostRuntime) -> Result<(), Fail> {
    let mut first = with_one_port(rt.alloc(), 1)?;
    for tick in 1..=30u8 {
        let change = first.tick()?;
        assert!(rt; is_sent(rt.alloc(), &change, tick)?);
        assert!(rt; is_moved(&change, tick));
    }
    Ok(())
}

/// Returns a bridge whose port 2 has heard the BPDU of its port 1.
fn looped(alloc: Global) -> Result<Rstp, Fail> {
    let mut first = with_two_ports(alloc, 1)?;
    let _ = first.hear(2, &heard(&first_with(0x0e))?)?;
    Ok(first)
}

#[test]
fn a_link_to_itself_has_a_backup(rt: HostRuntime) -> Result<(), Fail> {
    let first = looped(rt.alloc())?;
    assert!(rt; first.roles() == [(1, Role::Designated), (2, Role::Backup)].as_slice());
    Ok(())
}

#[test]
fn parallel_links_have_an_alternate(rt: HostRuntime) -> Result<(), Fail> {
    const ROWS: &[Row] = &[
        Row::Does(Call::Hear(1, Speech::First(0x0e)), ANY),
        Row::Does(Call::Hear(2, Speech::FirstOnPort2(0x0e)), ANY),
        Row::Roles(&[(1, Role::Root), (2, Role::Alternate)]),
        Row::States(&[(1, PortState::Forwarding), (2, PortState::Discarding)]),
    ];
    walk(&rt, rt.alloc(), &mut with_two_ports(rt.alloc(), 2)?, ROWS)
}

#[test]
fn a_port_is_set_down_and_up(rt: HostRuntime) -> Result<(), Fail> {
    const ROWS: &[Row] = &[
        Row::Does(Call::Hear(1, Speech::First(0x0e)), ANY),
        Row::Does(
            Call::Admin(1, false),
            Told {
                states: Some(&[(1, PortState::Discarding)]),
                ..ANY
            },
        ),
        Row::Roles(&[(1, Role::Disabled)]),
        Row::Does(
            Call::Hear(1, Speech::First(0x0e)),
            Told {
                sent: Some(None),
                ..ANY
            },
        ),
        Row::Does(
            Call::Admin(1, false),
            Told {
                states: Some(&[]),
                ..ANY
            },
        ),
        Row::Does(Call::Admin(1, true), ANY),
        Row::Roles(&[(1, Role::Designated)]),
    ];
    walk(&rt, rt.alloc(), &mut with_one_port(rt.alloc(), 2)?, ROWS)
}
