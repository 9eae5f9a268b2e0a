//! Peers of a control socket.

ghost use Rattle.pb_lan.specs.Plans.{IsSound};

use super::board::Fake;
use super::plans::COUNTS;
use mio::net::UnixStream;
use pb_control_socket::Control;
use pb_lan::Plan;
use std::io::{ErrorKind, Read, Write};
use std::test::Fail;

/// Appends what has come, and returns whether the other side has disconnected.
pub(super) fn hear(stream: &mut UnixStream, heard: &mut Vec<u8>) -> Result<bool, Fail> {
    let mut octets = [0u8; 4096];
    for _ in 0..10_000u32 {
        match stream.read(&mut octets) {
            Ok(0) => return Ok(true),
            Ok(count) => heard.extend_from_slice(&octets[..count])?,
            Err(e) if e.kind() == ErrorKind::WouldBlock => return Ok(false),
            Err(_) => return Err(Fail::from("a read failed")),
        }
    }
    Err(Fail::from("no end"))
}

/// Takes turns until one has nothing to do. Returns whether there was one.
pub(super) fn settles(control: &mut Control, plan: &Plan, board: &Fake) -> bool
    requires { IsSound plan.now }
{
    for _ in 0..1000u32 {
        if !control.turn(plan, board) {
            return true;
        }
    }
    false
}

/// Sends octets, takes turns, and appends the replies. Returns whether the turns came to an end and the other side has
/// not disconnected.
pub(super) fn talks(
    control: &mut Control,
    plan: &Plan,
    board: &Fake,
    stream: &mut UnixStream,
    octets: &[u8],
    heard: &mut Vec<u8>,
) -> Result<bool, Fail>
    requires { IsSound plan.now }
{
    stream.write_all(octets)?;
    Ok(settles(control, plan, board) && !hear(stream, heard)?)
}

/// Sends as many of these octets as are taken, and returns the remaining ones.
fn send<'a>(stream: &mut UnixStream, octets: &'a [u8]) -> &'a [u8] {
    match stream.write(octets) {
        Ok(count) if count <= octets.len() => &octets[count..],
        _ => octets,
    }
}

/// Sends as many of these octets as are taken for a while, and hears nothing. Returns the remaining ones, or none if
/// turns came to no end.
fn sends_on<'a>(
    control: &mut Control,
    plan: &Plan,
    board: &Fake,
    stream: &mut UnixStream,
    octets: &'a [u8],
) -> &'a [u8]
    requires { IsSound plan.now }
{
    let mut left = octets;
    for _ in 0..1000u32 {
        left = send(stream, left);
        if !settles(control, plan, board) {
            return &[];
        }
    }
    left
}

/// Sends octets and hears replies, until `count` octets have come. Returns whether turns came to an end and the other
/// side has not disconnected.
fn hears_all(
    control: &mut Control,
    plan: &Plan,
    board: &Fake,
    stream: &mut UnixStream,
    octets: &[u8],
    heard: &mut Vec<u8>,
    count: usize,
) -> Result<bool, Fail>
    requires { IsSound plan.now }
{
    let mut left = octets;
    for _ in 0..1_000_000u32 {
        left = send(stream, left);
        if !settles(control, plan, board) || hear(stream, heard)? {
            return Ok(false);
        }
        if heard.len() >= count {
            break;
        }
    }
    Ok(true)
}

/// Sends lines that ask for counts, and hears nothing until no more are taken. Then hears. Returns whether not all were
/// taken at first, and all were replied to in the end.
pub(super) fn floods(
    control: &mut Control,
    plan: &Plan,
    board: &Fake,
    stream: &mut UnixStream,
    lines: &[u8],
    heard: &mut Vec<u8>,
) -> Result<bool, Fail>
    requires { IsSound plan.now }
{
    let all = (lines.len() / "counts\n".len()).saturating_mul(COUNTS.len());
    let left = sends_on(control, plan, board, stream, lines);
    Ok(
        !left.is_empty()
            && hears_all(control, plan, board, stream, left, heard, all)?
            && heard.len() == all
            && heard.as_slice().ends_with(COUNTS.as_bytes()),
    )
}
