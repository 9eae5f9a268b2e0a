//! Lines of scripts, and the printed text of steps.

mod answers;
mod by_name;
mod plans;

use bytes::Bytes;
use pb_lan::{Event, plan_is_sound};
use pb_step_script::{Names, read_line};
use plans::network;
use std::alloc::Global;
use std::process::Abort;
use std::test::Fail;

/// The event that a line is to ask for, by its kind and numbers.
#[derive(Clone, Copy)]
enum Wanted {
    Nothing,
    Poll(u8),
    Feed(u8),
    Deliver(u8),
    Receive(u8, u8),
    Transmit(u8, u8),
    Tick(u8),
    Admin(u8, u8, bool),
    Take(u8),
    Put(u8),
}

/// Returns the wanted event. Each frame has the octets FF and 41.
fn event_of(alloc: Global, wanted: Wanted) -> Result<Option<Event>, Fail> {
    Ok(Some(match wanted {
        Wanted::Nothing => return Ok(None),
        Wanted::Poll(port) => Event::Poll {
            port,
            frame: Bytes::copy_from_slice(alloc, b"\xffA")?,
        },
        Wanted::Feed(port) => Event::Feed { port },
        Wanted::Deliver(port) => Event::Deliver { port },
        Wanted::Receive(bridge, port) => Event::Receive { bridge, port },
        Wanted::Transmit(bridge, port) => Event::Transmit { bridge, port },
        Wanted::Tick(bridge) => Event::Tick { bridge },
        Wanted::Admin(bridge, port, up) => Event::Admin { bridge, port, up },
        Wanted::Take(lane) => Event::Take { lane },
        Wanted::Put(lane) => Event::Put { lane },
    }))
}

/// Returns whether a line of at most 40 octets asks for the wanted event.
fn asks(alloc: Global, names: &Names<'_>, line: &str, wanted: Wanted) -> Result<bool, Fail> {
    let event = event_of(alloc, wanted)?;
    Ok(read_line(alloc, 40, names, line.as_bytes())? == event)
}

/// Asserts that each of these lines asks for its event.
fn all_ask(rt: &impl Abort, alloc: Global, rows: &[(&str, Wanted)]) -> Result<(), Fail> {
    let plan = network(alloc)?;
    assert!(rt; plan_is_sound(&plan));
    let names = Names::new(alloc, &plan)?;
    for (line, wanted) in rows {
        assert!(rt; asks(alloc, &names, line, *wanted)?, "{line}");
    }
    Ok(())
}

#[test]
fn lines_ask_for_events(rt: HostRuntime) -> Result<(), Fail> {
    let rows = [
        ("poll C2 fF41", Wanted::Poll(2)),
        ("feed C1", Wanted::Feed(1)),
        ("deliver C2", Wanted::Deliver(2)),
        ("receive B2 1", Wanted::Receive(2, 1)),
        ("transmit B1 16", Wanted::Transmit(1, 16)),
        ("tick B2", Wanted::Tick(2)),
        ("take L1 ab", Wanted::Take(1)),
        ("take L1 ba", Wanted::Take(2)),
        ("put L1 ab", Wanted::Put(1)),
        ("put L1 ba", Wanted::Put(2)),
    ];
    all_ask(&rt, rt.alloc(), &rows)
}

#[test]
fn ports_are_set_up_and_down(rt: HostRuntime) -> Result<(), Fail> {
    let rows = [
        ("admin B1 1 up", Wanted::Admin(1, 1, true)),
        ("admin B1 1 down", Wanted::Admin(1, 1, false)),
    ];
    all_ask(&rt, rt.alloc(), &rows)
}

#[test]
fn what_the_plan_lacks_has_number_0(rt: HostRuntime) -> Result<(), Fail> {
    let rows = [
        ("feed C9", Wanted::Feed(0)),
        ("tick C1", Wanted::Tick(0)),
        ("receive B1 17", Wanted::Receive(1, 0)),
        ("receive B9 999", Wanted::Receive(0, 0)),
        ("take L9 ab", Wanted::Take(0)),
        ("put L9 ba", Wanted::Put(0)),
    ];
    all_ask(&rt, rt.alloc(), &rows)
}

/// Asserts that each of these lines asks for nothing.
fn none_asks(rt: &impl Abort, alloc: Global, lines: &[&str]) -> Result<(), Fail> {
    for line in lines {
        all_ask(rt, alloc, &[(*line, Wanted::Nothing)])?;
    }
    Ok(())
}

#[test]
fn lines_of_no_form_ask_for_nothing(rt: HostRuntime) -> Result<(), Fail> {
    let lines = [
        "",
        " ",
        "hop",
        "feed",
        "feed ",
        "Feed C1",
        " feed C1",
        "feed  C1",
        "feed C1 ",
        "feed C1\r",
        "feed C1 ff",
        "feed C.1",
        "tick B1 1",
        "poll C1",
        "poll C1 ",
        "poll C1 f",
        "poll C1 fg",
        "poll C1 ff ",
        "poll C1 ff ff",
    ];
    none_asks(&rt, rt.alloc(), &lines)
}

#[test]
fn other_numbers_and_words_ask_for_nothing(rt: HostRuntime) -> Result<(), Fail> {
    let lines = [
        "receive B1",
        "receive B1 ",
        "receive B1 0",
        "receive B1 01",
        "receive B1 1000",
        "receive B1 +1",
        "receive B1 1 ",
        "admin B1 1",
        "admin B1 1 Up",
        "admin B1 1 up ",
        "admin B1 up",
        "take L1",
        "take L1 AB",
        "put L1 ac",
        "poll C1 ffffffffffffffffffffffffffffffffff",
        "feed abcdefghijklmnopqrstuvwxyz0123456",
    ];
    none_asks(&rt, rt.alloc(), &lines)
}
