//! The length field before each frame of a stream.

use super::faults::{Change, all_change};
use super::kinds::{is_port, text};
use pb_service::{LengthField, PlanFault, PortSpec};
use std::alloc::Global;

/// Returns whether a socket with these keys has this length field.
fn is_framed(
    alloc: Global,
    keys: &str,
    listens: bool,
    want: LengthField,
) -> Result<bool, PlanFault> {
    let want = PortSpec::Socket {
        path: text(alloc, "p")?,
        listens,
        stays: false,
        framing: want,
    };
    let keys = format!(in alloc; "kind = \"socket\"\n{keys}")?;
    is_port(alloc, keys.as_str(), &want)
}

#[test]
fn frames_of_a_socket_have_two_or_four_octets_of_length(rt: HostRuntime) -> Result<(), PlanFault> {
    assert!(rt; is_framed(rt.alloc(), "path = 'p'", false, LengthField::Two)?);
    assert!(rt;
        is_framed(
            rt.alloc(),
            "path = 'p'\nframing = 2",
            false,
            LengthField::Two
        )?
    );
    assert!(rt;
        is_framed(
            rt.alloc(),
            "path = 'p'\nframing = 4",
            false,
            LengthField::Four
        )?
    );
    assert!(rt; is_framed(rt.alloc(), "listen = 'p'", true, LengthField::Two)?);
    assert!(rt;
        is_framed(
            rt.alloc(),
            "listen = 'p'\nframing = 2",
            true,
            LengthField::Two
        )?
    );
    assert!(rt;
        is_framed(
            rt.alloc(),
            "listen = 'p'\nframing = 4",
            true,
            LengthField::Four
        )?
    );
    Ok(())
}

#[test]
fn other_lengths_and_other_kinds_are_refused(rt: HostRuntime) -> Result<(), PlanFault> {
    const CHANGES: &[Change] = &[
        (
            "port = 3",
            "kind = 'socket'\npath = 'p'\nframing = 1\nport = 3",
            "5 range port[2].framing",
        ),
        (
            "port = 3",
            "kind = 'socket'\npath = 'p'\nframing = 3\nport = 3",
            "5 range port[2].framing",
        ),
        (
            "port = 3",
            "kind = 'socket'\nlisten = 'p'\nframing = 5\nport = 3",
            "5 range port[2].framing",
        ),
        (
            "port = 3",
            "kind = 'socket'\nlisten = 'p'\nframing = 0\nport = 3",
            "5 range port[2].framing",
        ),
        (
            "port = 3",
            "kind = 'socket'\npath = 'p'\nframing = -2\nport = 3",
            "5 range port[2].framing",
        ),
        (
            "port = 3",
            "kind = 'socket'\npath = 'p'\nframing = '4'\nport = 3",
            "4 kind port[2].framing",
        ),
        (
            "port = 3",
            "kind = 'socket'\npath = 'p'\nframing = 3\nstay = 1\nport = 3",
            "4 kind port[2].stay",
        ),
        (
            "port = 3",
            "framing = 2\nport = 3",
            "6 unknown port[2].framing",
        ),
        (
            "port = 3",
            "kind = 'capture'\nread = 'r'\nwrite = 'w'\nframing = 4\nport = 3",
            "6 unknown port[2].framing",
        ),
        (
            "port = 3",
            "kind = 'udp'\nlocal = '[::1]:1'\nremote = '[::1]:2'\nvni = 1\nframing = 4\nport = 3",
            "6 unknown port[2].framing",
        ),
    ];
    all_change(&rt, rt.alloc(), CHANGES)
}
