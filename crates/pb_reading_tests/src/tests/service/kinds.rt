//! The kinds of customer ports.

use super::NETWORK;
use super::faults::{Change, all_change};
use super::plans::are_ports;
use bytes::Bytes;
use pb_frame::Text;
use pb_lan::Seq;
use pb_service::{LengthField, Pace, PlanFault, PortSpec, Stamp, read_plan};
use std::alloc::Global;

/// Returns whether a port with these keys is of this kind.
pub(super) fn is_port(alloc: Global, keys: &str, want: &PortSpec) -> Result<bool, PlanFault> {
    let text = format!(in alloc; "{NETWORK}{keys}\n")?;
    let (_, ports) = read_plan(alloc, text.as_bytes())?;
    Ok(are_ports(&ports, want))
}

/// Returns a port over memory with a frame of the octets 0A and FF, and an empty frame.
fn memory(alloc: Global) -> Result<PortSpec, PlanFault> {
    let mut frames = Vec::new(alloc);
    frames.push(Bytes::copy_from_slice(alloc, &[0x0a, 0xff])?)?;
    frames.push(Bytes::copy_from_slice(alloc, &[])?)?;
    Ok(PortSpec::Memory(Seq::from_vec(frames)))
}

/// Returns a text of the plan.
pub(super) fn text(alloc: Global, word: &str) -> Result<Text, PlanFault> {
    Ok(Text::from_string(String::from_str(alloc, word)?))
}

/// Returns a port over two captures.
fn capture(alloc: Global, pace: Pace, stamp: Stamp) -> Result<PortSpec, PlanFault> {
    let read = text(alloc, "in.pcap")?;
    let write = text(alloc, "out.pcap")?;
    Ok(PortSpec::Capture {
        read,
        pace,
        write,
        stamp,
    })
}

/// Returns a port that writes a capture.
fn record(alloc: Global, stamp: Stamp) -> Result<PortSpec, PlanFault> {
    let write = text(alloc, "out.pcap")?;
    Ok(PortSpec::Record { write, stamp })
}

/// Returns a port over a socket.
fn socket(alloc: Global, listens: bool, stays: bool) -> Result<PortSpec, PlanFault> {
    let path = text(alloc, "p")?;
    Ok(PortSpec::Socket {
        path,
        listens,
        stays,
        framing: LengthField::Two,
    })
}

/// Returns whether the keys of a port over memory are read.
fn is_memory(alloc: Global) -> Result<bool, PlanFault> {
    let want = memory(alloc)?;
    is_port(alloc, "in = [\"0aFf\", \"\"]", &want)
}

/// Returns whether the keys of a port over captures are read, with these other keys.
fn is_capture(alloc: Global, keys: &str, pace: Pace, stamp: Stamp) -> Result<bool, PlanFault> {
    let want = capture(alloc, pace, stamp)?;
    let keys = format!(in alloc;
        "kind = \"capture\"\nread = \"in.pcap\"\nwrite = \"out.pcap\"\n{keys}\n[network]\ntick_ms = 10"
    )?;
    is_port(alloc, keys.as_str(), &want)
}

/// Returns whether the keys of a port that writes a capture are read, with this stamp.
fn is_record(alloc: Global, stamp: &str, want: Stamp) -> Result<bool, PlanFault> {
    let want = record(alloc, want)?;
    let keys = format!(in alloc;
        "kind = \"record\"\nwrite = \"out.pcap\"\n{stamp}\n[network]\ntick_ms = 10"
    )?;
    is_port(alloc, keys.as_str(), &want)
}

/// Returns whether the keys of a port that reads a capture are read, with these other keys.
fn is_replay(alloc: Global, keys: &str, pace: Pace) -> Result<bool, PlanFault> {
    let read = text(alloc, "in.pcap")?;
    let want = PortSpec::Replay { read, pace };
    let keys = format!(in alloc; "kind = \"replay\"\nread = \"in.pcap\"\n{keys}")?;
    is_port(alloc, keys.as_str(), &want)
}

/// Returns whether the keys of a port over a socket are read.
fn is_socket(alloc: Global, keys: &str, listens: bool, stays: bool) -> Result<bool, PlanFault> {
    let want = socket(alloc, listens, stays)?;
    let keys = format!(in alloc; "kind = \"socket\"\n{keys}")?;
    is_port(alloc, keys.as_str(), &want)
}

#[test]
fn ports_without_sockets_are_of_four_kinds(rt: HostRuntime) -> Result<(), PlanFault> {
    assert!(rt; is_memory(rt.alloc())?);
    assert!(rt; is_capture(rt.alloc(), "", Pace::AtOnce, Stamp::Ticks)?);
    assert!(rt; is_capture(rt.alloc(), "stamp = \"ticks\"", Pace::AtOnce, Stamp::Ticks)?);
    assert!(rt; is_capture(rt.alloc(), "stamp = \"time\"", Pace::AtOnce, Stamp::Time)?);
    assert!(rt; is_record(rt.alloc(), "", Stamp::Ticks)?);
    assert!(rt; is_record(rt.alloc(), "stamp = \"time\"", Stamp::Time)?);
    assert!(rt; is_replay(rt.alloc(), "", Pace::AtOnce)?);
    Ok(())
}

#[test]
fn frames_enter_by_the_times_of_their_records(rt: HostRuntime) -> Result<(), PlanFault> {
    const TIMES: &str = "replay = \"times\"";
    const FAST: &str = "replay = \"times\"\nspeed = 1000";
    const CLOCK: &str = "replay = \"times\"\nspeed = 20\n[network]\ntick_ms = 1";
    assert!(rt; is_capture(rt.alloc(), TIMES, Pace::Times(1), Stamp::Ticks)?);
    assert!(rt; is_capture(rt.alloc(), FAST, Pace::Times(1_000), Stamp::Ticks)?);
    assert!(rt; is_replay(rt.alloc(), CLOCK, Pace::Times(20))?);
    Ok(())
}

#[test]
fn a_replay_needs_a_clock_and_a_speed_a_replay(rt: HostRuntime) -> Result<(), PlanFault> {
    const CHANGES: &[Change] = &[
        (
            "port = 3",
            "kind = \"replay\"\nread = \"r\"\nreplay = \"times\"\nport = 3",
            "5 range port[2].replay",
        ),
        (
            "service = \"blue\"",
            "service = \"blue\"\nkind = \"replay\"\nread = \"r\"\nreplay = \"times\"\n[network]\n\
            tick_every = 1",
            "5 range port[2].replay",
        ),
        (
            "service = \"blue\"",
            "service = \"blue\"\nkind = \"capture\"\nread = \"r\"\nwrite = \"w\"\nreplay = \"times\"\n[network]\n\
            tick_ms = 1",
            "0 ok",
        ),
        (
            "port = 3",
            "kind = \"capture\"\nread = \"r\"\nwrite = \"w\"\nreplay = \"times\"\nstamp = \"time\"\nport = 3",
            "5 range port[2].replay",
        ),
        (
            "port = 3",
            "kind = \"replay\"\nread = \"r\"\nreplay = \"time\"\nport = 3",
            "5 range port[2].replay",
        ),
        (
            "port = 3",
            "kind = \"replay\"\nread = \"r\"\nreplay = true\nport = 3",
            "4 kind port[2].replay",
        ),
        (
            "port = 3",
            "kind = \"replay\"\nread = \"r\"\nspeed = 1\nport = 3",
            "5 range port[2].speed",
        ),
        (
            "port = 3",
            "kind = \"replay\"\nread = \"r\"\nspeed = 0\nport = 3",
            "5 range port[2].speed",
        ),
        (
            "port = 3",
            "kind = \"replay\"\nread = \"r\"\nreplay = \"times\"\nspeed = 1001\nport = 3",
            "5 range port[2].speed",
        ),
        (
            "port = 3",
            "kind = \"record\"\nwrite = \"w\"\nreplay = \"times\"\nport = 3",
            "6 unknown port[2].replay",
        ),
        (
            "port = 3",
            "kind = \"socket\"\npath = \"p\"\nspeed = 2\nport = 3",
            "6 unknown port[2].speed",
        ),
    ];
    all_change(&rt, rt.alloc(), CHANGES)
}

#[test]
fn sockets_stay_if_they_are_to(rt: HostRuntime) -> Result<(), PlanFault> {
    assert!(rt; is_socket(rt.alloc(), "path = \"p\"", false, false)?);
    assert!(rt; is_socket(rt.alloc(), "listen = \"p\"\nstay = false", true, false)?);
    assert!(rt; is_socket(rt.alloc(), "listen = \"p\"\nstay = true", true, true)?);
    assert!(rt; is_socket(rt.alloc(), "path = \"p\"\nstay = true", false, true)?);
    Ok(())
}

#[test]
fn ports_have_the_keys_of_their_kind(rt: HostRuntime) -> Result<(), PlanFault> {
    const CHANGES: &[Change] = &[
        (
            "port = 3",
            "kind = \"records\"\nport = 3",
            "5 range port[2].kind",
        ),
        (
            "port = 3",
            "kind = \"record\"\nport = 3",
            "3 missing port[2].write",
        ),
        (
            "port = 3",
            "kind = \"record\"\nwrite = \"w\"\nread = \"r\"\nport = 3",
            "6 unknown port[2].read",
        ),
        (
            "port = 3",
            "kind = \"record\"\nwrite = \"w\"\nstamp = \"time\"\nport = 3",
            "5 range port[2].stamp",
        ),
        (
            "port = 3",
            "kind = \"replay\"\nport = 3",
            "3 missing port[2].read",
        ),
        (
            "port = 3",
            "kind = \"replay\"\nread = \"r\"\nstamp = \"ticks\"\nport = 3",
            "6 unknown port[2].stamp",
        ),
        (
            "port = 3",
            "kind = \"socket\"\npath = \"p\"\nstay = 1\nport = 3",
            "4 kind port[2].stay",
        ),
        (
            "port = 3",
            "stay = true\nport = 3",
            "6 unknown port[2].stay",
        ),
    ];
    all_change(&rt, rt.alloc(), CHANGES)
}
