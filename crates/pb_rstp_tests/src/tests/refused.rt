//! Calls that meet a failed allocation leave the bridge unchanged, and succeed at the next try.

use super::{PROPOSAL, heard, with_one_port};
use pb_frame::Memory;
use pb_lan::PortState;
use pb_rstp::{Role, Rstp, Vector};
use std::alloc::Global;
use std::process::Abort;
use std::test::Fail;

/// The visible parts of a bridge with port 1.
#[derive(Clone, Copy, PartialEq, Debug)]
struct Seen {
    role: Option<(u8, Role)>,
    state: Option<(u8, PortState)>,
    root: Vector,
    stored: Option<Vector>,
}

fn look_at(bridge: &Rstp) -> Seen {
    Seen {
        role: bridge.roles().first().copied(),
        state: bridge.states().first().copied(),
        root: bridge.root(),
        stored: bridge.stored(1),
    }
}

/// A call of the second bridge.
#[derive(Clone, Copy)]
enum Call {
    /// It hears the proposal of the first.
    Hear,
    Tick,
    /// Its port is disabled.
    Down,
}

/// Makes the call. Returns the number of BPDUs to be sent, or None if an allocation failed.
fn make(bridge: &mut Rstp, call: Call) -> Result<Option<usize>, Fail> {
    let answer = match call {
        Call::Hear => bridge.hear(1, &heard(&PROPOSAL)?),
        Call::Tick => bridge.tick(),
        Call::Down => bridge.admin(1, false),
    };
    Ok(answer.ok().map(|change| change.send.len()))
}

/// The bridge after a call: as it was before and after a failed allocation, and after the call succeeded, with the
/// BPDUs to be sent.
#[derive(Clone, Copy)]
struct Left {
    refused: Option<(Seen, Seen)>,
    done: Seen,
    sent: usize,
}

/// Makes the call, and again if an allocation failed. Reports a second failure.
fn done(bridge: &mut Rstp, wanted: Call) -> Result<Left, Fail> {
    let before = look_at(bridge);
    let first = make(bridge, wanted)?;
    let after = look_at(bridge);
    let (refused, sent) = match first {
        Some(sent) => (None, sent),
        None => (Some((before, after)), make(bridge, wanted)?.ok_or(Memory)?),
    };
    Ok(Left {
        refused,
        done: look_at(bridge),
        sent,
    })
}

/// Makes the calls before the last one, and checks the result of the last: the port's role and state, and the number of
/// BPDUs to be sent.
fn comes_to(
    rt: &impl Abort,
    alloc: Global,
    calls: &[Call],
    wanted: (Role, PortState, usize),
) -> Result<(), Fail> {
    let mut bridge = with_one_port(alloc, 2)?;
    for (number, call) in calls.iter().enumerate() {
        let left = done(&mut bridge, *call)?;
        if let Some((before, after)) = left.refused {
            assert_eq!(rt; before, after, "call {number}");
        }
        if number + 1 == calls.len() {
            let seen = (left.done.role, left.done.state, left.sent);
            assert_eq!(rt; seen, (Some((1, wanted.0)), Some((1, wanted.1)), wanted.2));
        }
    }
    Ok(())
}

#[test]
fn a_refused_bpdu_changes_nothing(rt: HostRuntime) -> Result<(), Fail> {
    let wanted = (Role::Root, PortState::Forwarding, 1);
    comes_to(&rt, rt.alloc(), &[Call::Hear], wanted)
}

#[test]
fn a_refused_tick_changes_nothing(rt: HostRuntime) -> Result<(), Fail> {
    let wanted = (Role::Root, PortState::Forwarding, 0);
    comes_to(&rt, rt.alloc(), &[Call::Hear, Call::Tick], wanted)?;
    comes_to(
        &rt,
        rt.alloc(),
        &[Call::Tick],
        (Role::Designated, PortState::Discarding, 1),
    )
}

#[test]
fn a_refused_setting_changes_nothing(rt: HostRuntime) -> Result<(), Fail> {
    let wanted = (Role::Disabled, PortState::Discarding, 0);
    comes_to(&rt, rt.alloc(), &[Call::Hear, Call::Down], wanted)
}
