//! Runs with taps.

use super::draft::{Draft, Joint};
use super::frames::script_of;
use super::gates::Open;
use super::networks::PAIR;
use super::plans::plan_of;
use super::runs::LONG;
use pb_frame::Memory;
use pb_lan::{Plan, plan_is_sound};
use pb_port::{MemoryPort, Port, Shelf};
use pb_run::{Held, LaneTap, Recorder, TapDirection, TapPort, run_tapped};
use std::alloc::Global;
use std::collections::VecDeque;
use std::sync::Wait;
use std::test::Fail;
use std::thread::Threads;
use std::time::Clock;

/// The pair, whose link loses the fourth frame from B1 to B2.
const LOSSY: Draft = Draft {
    links: &[Joint {
        a: (1, 1),
        b: (2, 1),
        lost: &[3],
    }],
    ..PAIR
};

/// Returns a port over memory with this many broadcasts to give, in a box.
fn memory(alloc: Global, count: u32) -> Result<Held, Memory> {
    let script = script_of(alloc, count)?;
    Ok(Box::new(alloc, MemoryPort::new(alloc, 64, script))?)
}

/// Returns a tap of the first link into memory.
fn tap(alloc: Global, direction: TapDirection) -> Result<TapPort, Memory> {
    let port = memory(alloc, 0)?;
    let link = 1;
    Ok(TapPort {
        link,
        direction,
        port,
    })
}

/// Appends the number of a frame, if it has an S-tag and is a broadcast with a number.
fn put_number(numbers: &mut Vec<u32>, frame: &[u8]) -> Result<(), Memory> {
    if let [.., 0x08, 0x00, a, b, c, d] = frame {
        if frame.len() == 22 && frame[12] == 0x88 && frame[13] == 0xa8 {
            numbers.push(u32::from_be_bytes([*a, *b, *c, *d]))?;
        }
    }
    Ok(())
}

/// Returns the numbers of the frames that a tap has recorded. A feeder has none.
fn numbers_of(alloc: Global, tap: &mut LaneTap) -> Result<Vec<u32>, Memory> {
    let mut numbers = Vec::new(alloc);
    let mut home = Shelf {
        unsent: VecDeque::new(alloc),
        sent: Vec::new(alloc),
    };
    if let Recorder::Tape(tape) = &mut tap.recorder {
        tape.port.shelve(&mut home);
    }
    for frame in home.sent.as_slice() {
        put_number(&mut numbers, frame.as_slice())?;
    }
    Ok(numbers)
}

/// Returns the numbers of the frames that each tap of each lane has recorded, in one list of lists.
fn all_numbers(alloc: Global, lanes: Vec<Vec<LaneTap>>) -> Result<Vec<Vec<u32>>, Memory> {
    let mut lists = Vec::new(alloc);
    for taps in lanes {
        for tap in taps {
            let mut tap = tap;
            lists.push(numbers_of(alloc, &mut tap)?)?;
        }
    }
    Ok(lists)
}

/// Runs the pair with three taps of its link, while this many broadcasts enter at C1 and at C2 and no queue refuses a
/// frame. Returns what the taps have recorded: the numbers of the frames from B1 to B2, of both directions, of the
/// feeder, which has none, and from B2 to B1.
fn recorded<R: Threads + Wait + Clock + Sync>(
    rt: &R,
    alloc: Global,
    counts: (u32, u32),
) -> Result<Vec<Vec<u32>>, Memory> {
    let plan: Plan = plan_of(alloc, &LOSSY)?;
    let mut ports = Vec::new(alloc);
    ports.push(memory(alloc, counts.0)?)?;
    ports.push(memory(alloc, counts.1)?)?;
    ports.push(memory(alloc, 0)?)?;
    let mut taps = Vec::new(alloc);
    for direction in [TapDirection::Ab, TapDirection::Both, TapDirection::Ba] {
        taps.push(tap(alloc, direction)?)?;
    }
    if !plan_is_sound(&plan) {
        return Ok(Vec::new(alloc));
    }
    let is_lossless = true;
    match run_tapped(rt, alloc, &plan, ports, taps, &Open, LONG, is_lossless) {
        Ok(run) => all_numbers(alloc, run.taps),
        Err(_) => Err(Memory),
    }
}

/// Checks whether a list has the numbers below a bound in order, but for one.
fn rises_without(numbers: &[u32], bound: u32, lost: u32) -> bool {
    let mut wanted = (0..bound).filter(|number| *number != lost);
    numbers.iter().all(|number| wanted.next() == Some(*number)) && wanted.next().is_none()
}

#[test]
fn taps_record_what_crosses(rt: HostRuntime) -> Result<(), Fail> {
    let lists = recorded(&rt, rt.alloc(), (300, 200))?;
    assert_eq!(rt; lists.len(), 4);
    let (ab, both, ba) = (
        lists[0].as_slice(),
        lists[1].as_slice(),
        lists[3].as_slice(),
    );
    assert!(rt; rises_without(ab, 300, 3), "from B1 to B2");
    assert!(rt; rises_without(ba, 200, 200), "from B2 to B1");
    assert_eq!(rt; both.len(), 499);
    assert_eq!(rt; lists[2].len(), 0);
    Ok(())
}

#[test]
fn taps_record_nothing_if_nothing_crosses(rt: HostRuntime) -> Result<(), Fail> {
    let lists = recorded(&rt, rt.alloc(), (0, 0))?;
    assert!(rt; lists.len() == 4 && lists.as_slice().iter().all(|list| list.is_empty()));
    Ok(())
}
