//! The lines for frames that bridges dropped.

ghost use Rattle.std.specs.Prelude.{◌≡◌, ◌++◌, ◌+◌, ◌≤◌, flat_map, string_bytes, OnOk};
ghost use Rattle.std.specs.List.{count_by, range_with_len};
ghost use Rattle.pb_history.specs.Drops.{is_dropped, goes_nowhere};
ghost use Rattle.pb_lan.specs.Plans.{IsSound};
ghost use Rattle.pb_lan.specs.Ports.{is_end_at};
ghost use Rattle.pb_messages.specs.Reasons.{drop_word};
ghost use Rattle.pb_run_losses.specs.Drops.{is_between, is_lost, drop_line, reason_line, port_drops, bridge_drops};
ghost use Rattle.pb_run_losses.specs.Drops.{shown, drops_text};

use crate::losses::put_place;
use pb_frame::Memory;
use pb_history::{NO_PORT, Tallies, Tally, drop_number};
use pb_lan::{End, Plan, Reason};
use pb_messages::drop_word;

/// The reasons in the order of their lines. One reserved address stands for all.
const REASONS: &[Reason] = &[
    Reason::NotForwarding,
    Reason::NotMember,
    Reason::Untagged,
    Reason::Reserved(0),
    Reason::Malformed,
    Reason::Worn,
    Reason::Memory,
    Reason::STagged,
    Reason::Long,
];

/// Whether the states of ports changed while frames were under way, and whether the lines for lost frames are wanted or
/// the others.
#[derive(Clone, Copy)]
struct Choice {
    late: bool,
    lost: bool,
}

/// Checks whether an end of a link is at this port.
fn is_at(end: &End, bridge: u8, port: u8) -> bool
    ensures { result ≡ is_end_at bridge port end.now }
{
    end.bridge == bridge && end.port == port
}

/// Checks whether a bridge's local port leads to another bridge.
fn is_between(plan: &Plan, bridge: u8, port: u8) -> bool
    ensures { result ≡ is_between plan.now bridge port }
{
    let links = plan.links.as_slice();
    links.iter().any(|link| is_at(&link.a, bridge, port) || is_at(&link.b, bridge, port))
}

/// Returns whether a frame that is dropped for this reason is lost.
fn is_lost(between: bool, late: bool, reason: Reason) -> bool
    ensures { result ≡ is_lost between late reason }
{
    match reason {
        Reason::NotForwarding => late,
        Reason::NotMember | Reason::Untagged | Reason::Malformed | Reason::Worn | Reason::Long =>
            between,
        Reason::Memory => true,
        Reason::Reserved(_) | Reason::STagged => false,
    }
}

/// Appends the line of a count of dropped frames. A count of 0 has no line.
fn put_drop(out: &mut String, name: &str, port: u8, count: u64, reason: &str) -> Result<(), Memory>
    ensures { OnOk result (string_bytes out.new ≡ string_bytes out.old ++ drop_line name.now port count reason.now) }
{
    if count == 0 {
        return Ok(());
    }
    put_place(out, name, Some(port))?;
    writeln!(out, ": {count} frames dropped: {reason}")?;
    Ok(())
}

/// Appends the line of a port for a reason, if it is wanted.
fn put_reason(
    out: &mut String,
    name: &str,
    port: u8,
    tally: &Tally,
    between: bool,
    choice: Choice,
    reason: Reason,
) -> Result<(), Memory>
    requires { port ≤ 16 }
    ensures { OnOk result (string_bytes out.new ≡ string_bytes out.old
        ++ reason_line name.now port tally.now between choice.late choice.lost reason) }
{
    if is_lost(between, choice.late, reason) == choice.lost {
        let count = tally.dropped(port, reason);
        put_drop(out, name, port, count, drop_word(drop_number(reason)))?;
    }
    Ok(())
}

/// Appends the lines of a port for these reasons.
fn put_reasons(
    out: &mut String,
    name: &str,
    port: u8,
    tally: &Tally,
    between: bool,
    choice: Choice,
    reasons: &[Reason],
) -> Result<(), Memory>
    requires { port ≤ 16 }
    ensures { OnOk result (string_bytes out.new ≡ string_bytes out.old
        ++ flat_map (reason_line name.now port tally.now between choice.late choice.lost) reasons.now) }
{
    for reason in reasons {
        put_reason(out, name, port, tally, between, choice, *reason)?;
    }
    Ok(())
}

/// Appends the line of a port for frames that were relayed to no port, if it is wanted.
fn put_nowhere(
    out: &mut String,
    name: &str,
    port: u8,
    tally: &Tally,
    choice: Choice,
) -> Result<(), Memory>
    requires { port ≤ 16 }
    ensures { OnOk result (string_bytes out.new ≡ string_bytes out.old
        ++ shown choice.late choice.lost
        (drop_line name.now port (count_by (goes_nowhere port) tally.now) (drop_word 9))) }
{
    if choice.late == choice.lost {
        put_drop(
            out,
            name,
            port,
            tally.relayed_nowhere(port),
            drop_word(NO_PORT),
        )?;
    }
    Ok(())
}

/// Appends the lines of a port.
fn put_port(
    out: &mut String,
    name: &str,
    port: u8,
    tally: &Tally,
    between: bool,
    choice: Choice,
) -> Result<(), Memory>
    requires { port ≤ 16 }
    ensures { OnOk result (string_bytes out.new ≡ string_bytes out.old
        ++ port_drops name.now port tally.now between choice.late choice.lost) }
{
    put_reasons(out, name, port, tally, between, choice, REASONS)?;
    put_nowhere(out, name, port, tally, choice)
}

/// Appends the lines of the bridge of this number, from 1.
fn put_bridge(
    out: &mut String,
    plan: &Plan,
    number: u8,
    name: &str,
    tally: &Tally,
    choice: Choice,
) -> Result<(), Memory>
    ensures { OnOk result (string_bytes out.new ≡ string_bytes out.old
        ++ bridge_drops plan.now choice.late choice.lost number name.now tally.now) }
{
    for port in 1..17u8 {
        put_port(
            out,
            name,
            port,
            tally,
            is_between(plan, number, port),
            choice,
        )?;
    }
    Ok(())
}

/// Appends the counts of frames that bridges dropped: of those that are lost, or of the others.
///
/// Each port of each bridge has lines of this form, in the order of the plan, of ports and of reasons. A count of 0 has
/// no line, and all reserved addresses have one count:
///
/// ```text
/// bridge B2 port 1: 6 frames dropped: not-member
/// bridge B2 port 1: 2 frames dropped: no-port
/// ```
///
/// A frame is lost if it was dropped because an allocation failed, or between bridges as `not-member`, `untagged`,
/// `malformed`, `worn` or `long`. If a port changed its state after its bridge had received a customer's frame, frames
/// that were dropped as `not-forwarding`, or relayed to no port (`no-port`), are lost too: the tree may not have
/// reached their destinations. In a tree that stays they are not, since its ports alone lead to all places (IEEE
/// 802.1Q clause 8.6). A bridge for which the record has no list has no lines.
///
/// # Errors
///
/// `Memory` if an allocation failed. A part of the lines may follow the text then.
pub fn put_drops(out: &mut String, plan: &Plan, tallies: &Tallies, lost: bool) -> Result<(), Memory>
    requires { IsSound plan.now }
    ensures { OnOk result (string_bytes out.new ≡ string_bytes out.old ++ drops_text plan.now tallies.now lost) }
{
    let choice = Choice {
        late: tallies.changed_late(),
        lost,
    };
    let mut number = 1u8;
    for (bridge, tally) in plan.bridges.as_slice().iter().zip(tallies.bridges()) {
        put_bridge(out, plan, number, bridge.name.as_str(), tally, choice)?;
        number += 1;
    }
    Ok(())
}
