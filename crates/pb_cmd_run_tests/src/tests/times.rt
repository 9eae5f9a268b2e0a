//! The time of day in captures.

use super::folder::{enter, leave, make};
use super::plans::{CAPTURES, NO_FRAMES, ONE_FRAME};
use super::sheet::Sheet;
use super::{PLAIN, run};
use std::alloc::{AllocError, Global};
use std::fs;
use std::fs::Files;
use std::test::Fail;
use std::time::Clock;

/// The network of the plan.
const CLOCK: &str = "[network]\ntick_ms = 1\n";

/// Returns the plan whose last port writes the time of day.
fn timed_plan(alloc: Global) -> Result<String, AllocError> {
    format!(in alloc; "{CAPTURES}stamp = \"time\"\n")
}

/// Returns the number in four octets, the lowest first.
fn number_at(octets: &[u8], place: usize) -> u64 {
    let octet = |k: usize| octets.get(k).copied().unwrap_or(255);
    u64::from(u32::from_le_bytes([
        octet(place),
        octet(place.saturating_add(1)),
        octet(place.saturating_add(2)),
        octet(place.saturating_add(3)),
    ]))
}

/// Returns the seconds and microseconds of the record in a capture of one frame, and whether the rest is the frame.
fn stamp_of<R: Files + AllocGlobal>(rt: &R, name: &str) -> (u64, u64, bool) {
    match fs::read(rt, name) {
        Ok(wrote) => (
            number_at(&wrote, 24),
            number_at(&wrote, 28),
            wrote.len() == ONE_FRAME.len() && wrote.as_slice().ends_with(&ONE_FRAME[32..]),
        ),
        Err(_) => (0, 0, false),
    }
}

#[test]
fn records_tell_the_time_of_day(rt: HostRuntime) -> Result<(), Fail> {
    enter(&rt, rt.process())?;
    make(&rt, &[("p2.in", ONE_FRAME), ("p1.in", NO_FRAMES)])?;
    let before = rt.since_1970()?.as_secs();
    let plan = timed_plan(rt.alloc())?;
    let (mut output, mut errors) = (Sheet::front(b""), Sheet::front(b""));
    let parts = [CLOCK, plan.as_str()];
    let told = run(&rt, rt.alloc(), parts, PLAIN, &mut output, &mut errors);
    drop(plan);
    let after = rt.since_1970()?.as_secs();
    let (seconds, micros, is_frame) = stamp_of(&rt, "p1.out");
    assert_eq!(rt; (told?.result, is_frame), (Ok(0), true));
    let are_right = (before <= seconds, seconds <= after, micros < 1_000_000);
    assert_eq!(rt; are_right, (true, true, true), "{seconds} {micros}");
    leave(&rt, rt.process())?;
    Ok(())
}
