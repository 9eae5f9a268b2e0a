//! A bridge is walked through the rows of a table.

ghost use Rattle.std.specs.Prelude.{◌≡◌, ◌==◌};
ghost use Rattle.std.specs.List.{list_any};

use super::{PROPOSAL, first_with, heard, sends};
use pb_bpdu::Bpdu;
use pb_lan::PortState;
use pb_rstp::{Change, Role, Rstp, Vector};
use std::alloc::Global;
use std::process::Abort;
use std::test::Fail;

/// The reply of the second bridge to the first's proposal.
const ANSWER: [u8; 53] = [
    0x01, 0x80, 0xc2, 0x00, 0x00, 0x08, 0x02, 0x00, 0x00, 0x00, 0x00, 0x02, 0x00, 0x27, 0x42, 0x42,
    0x03, 0x00, 0x00, 0x02, 0x02, 0x79, 0x80, 0x00, 0x02, 0x00, 0x00, 0x00, 0x00, 0x01, 0x00, 0x00,
    0x4e, 0x20, 0x80, 0x00, 0x02, 0x00, 0x00, 0x00, 0x00, 0x02, 0x80, 0x01, 0x01, 0x00, 0x14, 0x00,
    0x02, 0x00, 0x0f, 0x00, 0x00,
];

/// The BPDU of the second bridge when it no longer hears the first.
const ALONE: [u8; 53] = [
    0x01, 0x80, 0xc2, 0x00, 0x00, 0x08, 0x02, 0x00, 0x00, 0x00, 0x00, 0x02, 0x00, 0x27, 0x42, 0x42,
    0x03, 0x00, 0x00, 0x02, 0x02, 0x0e, 0x80, 0x00, 0x02, 0x00, 0x00, 0x00, 0x00, 0x02, 0x00, 0x00,
    0x00, 0x00, 0x80, 0x00, 0x02, 0x00, 0x00, 0x00, 0x00, 0x02, 0x80, 0x01, 0x00, 0x00, 0x14, 0x00,
    0x02, 0x00, 0x0f, 0x00, 0x00,
];

/// The BPDU in a frame.
#[derive(Clone, Copy)]
pub(super) enum Speech {
    /// The BPDU of the first bridge on its port 1, with these flags.
    First(u8),
    /// The BPDU of the first bridge on its port 2, with these flags.
    FirstOnPort2(u8),
    /// The proposal of the first bridge, with this cost.
    Costly(u32),
    /// The proposal of the first bridge, of this age.
    Aged(u16),
    /// The reply of the second bridge.
    Answer,
    /// The reply of the second bridge, with the greatest cost.
    CostlyAnswer,
    /// The BPDU of the second bridge alone.
    Alone,
}

/// A call of a bridge.
#[derive(Clone, Copy)]
pub(super) enum Call {
    Tick,
    Hear(u8, Speech),
    Admin(u8, bool),
}

/// The result of a call, as far as it is checked.
#[derive(Clone, Copy)]
pub(super) struct Told {
    /// The states that change.
    pub(super) states: Option<&'static [(u8, PortState)]>,
    /// The ports that are flushed.
    pub(super) flush: Option<&'static [u8]>,
    /// The BPDU that is sent, on port 1 alone.
    pub(super) sent: Option<Option<Speech>>,
}

/// No part is checked.
pub(super) const ANY: Told = Told {
    states: None,
    flush: None,
    sent: None,
};

/// A call of a bridge, or a check of it.
#[derive(Clone, Copy)]
pub(super) enum Row {
    /// A call has this result.
    Does(Call, Told),
    /// The roles of its ports.
    Roles(&'static [(u8, Role)]),
    /// The states of its ports.
    States(&'static [(u8, PortState)]),
    /// The vector that a port has stored.
    Stored(u8, Option<Vector>),
    /// The vector that a port offers, if the bridge has the port.
    Offers(u8, Option<Vector>),
    /// The root, the root path cost and the receiving port, in the root vector.
    Root(u64, u32, u16),
}

/// Walks a bridge through the rows. A failure names the row by its number from 0.
pub(super) fn walk(
    rt: &impl Abort,
    alloc: Global,
    bridge: &mut Rstp,
    rows: &[Row],
) -> Result<(), Fail> {
    for (place, row) in rows.iter().enumerate() {
        assert!(rt; holds(alloc, bridge, *row)?, "row {place}");
    }
    Ok(())
}

fn holds(alloc: Global, bridge: &mut Rstp, row: Row) -> Result<bool, Fail> {
    match row {
        Row::Does(call, told) => does(alloc, bridge, call, told),
        Row::Roles(roles) => Ok(bridge.roles() == roles),
        Row::States(states) => Ok(bridge.states() == states),
        Row::Stored(port, vector) => Ok(bridge.stored(port) == vector),
        Row::Offers(port, vector) => Ok(offer_of(bridge, port) == vector),
        Row::Root(root, cost, receiving) => Ok(has_root(&bridge.root(), root, cost, receiving)),
    }
}

fn has_root(vector: &Vector, root: u64, cost: u32, receiving: u16) -> bool {
    vector.root == root && vector.cost == cost && vector.receiving == receiving
}

fn does(alloc: Global, bridge: &mut Rstp, call: Call, told: Told) -> Result<bool, Fail> {
    let change = called(bridge, call)?;
    Ok(is_moved(&change, told) && is_sent(alloc, &change, told.sent)?)
}

fn called(bridge: &mut Rstp, call: Call) -> Result<Change, Fail> {
    match call {
        Call::Tick => Ok(bridge.tick()?),
        Call::Hear(port, speech) => Ok(bridge.hear(port, &bpdu_of(speech)?)?),
        Call::Admin(port, up) => Ok(bridge.admin(port, up)?),
    }
}

/// Checks whether the states that change and the ports that are flushed are the expected ones.
fn is_moved(change: &Change, told: Told) -> bool {
    let is_state = match told.states {
        Some(states) => change.states.as_slice() == states,
        None => true,
    };
    match told.flush {
        Some(flush) => is_state && change.flush.as_slice() == flush,
        None => is_state,
    }
}

/// Checks whether the BPDU that is sent is the expected one.
fn is_sent(alloc: Global, change: &Change, told: Option<Option<Speech>>) -> Result<bool, Fail> {
    match told {
        None => Ok(true),
        Some(None) => Ok(change.send.len() == 0),
        Some(Some(speech)) => {
            let (last, frame) = frame_of(speech);
            Ok(sends(alloc, change, last, &frame)?)
        }
    }
}

/// Returns the last octet of the sender's address, and the frame.
fn frame_of(speech: Speech) -> (u8, [u8; 53]) {
    match speech {
        Speech::First(flags) | Speech::FirstOnPort2(flags) => (1, first_with(flags)),
        Speech::Costly(_) | Speech::Aged(_) => (1, PROPOSAL),
        Speech::Answer => (2, ANSWER),
        Speech::CostlyAnswer => {
            let mut answer = ANSWER;
            answer[30..34].copy_from_slice(&[0xff; 4]);
            (2, answer)
        }
        Speech::Alone => (2, ALONE),
    }
}

/// Returns the BPDU in a frame.
pub(super) fn bpdu_of(speech: Speech) -> Result<Bpdu, Fail> {
    let mut bpdu = heard(&frame_of(speech).1)?;
    match speech {
        Speech::FirstOnPort2(_) => bpdu.port = 0x8002,
        Speech::Costly(cost) => bpdu.cost = cost,
        Speech::Aged(age) => bpdu.age = age,
        _ => {}
    }
    Ok(bpdu)
}

/// Checks whether the list has the port.
fn has_port(roles: &[(u8, Role)], port: u8) -> bool
    ensures { result ≡ list_any (λ r. r.0 == port) roles.now }
{
    roles.iter().any(|r| r.0 == port)
}

/// Returns the vector that a port offers, if the bridge has the port.
fn offer_of(bridge: &Rstp, port: u8) -> Option<Vector> {
    if has_port(bridge.roles(), port) {
        Some(bridge.vector(port))
    } else {
        None
    }
}
