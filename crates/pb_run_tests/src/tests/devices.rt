//! Ports whose device fails at one of its calls. A frame takes four calls.

use super::draft::Draft;
use super::frames::Frames;
use super::gates::Open;
use super::networks::STAR;
use super::runs::{LONG, Outer, Setup, Way, ran};
use super::streams::Broken;
use pb_frame::Memory;
use pb_port::PortFault;
use pb_run::{Ended, Last, runs_carry_captures};
use std::alloc::Global;
use std::sync::Wait;
use std::test::Fail;
use std::thread::Threads;
use std::time::Clock;

/// How a run ended, whether the expected frames left, how many frames the port whose write of this number fails did not
/// write (taken or not), and how many writes there were.
type Written = (Option<Ended>, bool, usize, u64);

fn written<R: Threads + Wait + Clock + Sync>(
    rt: &R,
    alloc: Global,
    call: u64,
    least: u32,
) -> Result<Written, Memory> {
    let setup = Setup {
        draft: STAR,
        ports: &[
            Outer::Memory(3),
            Outer::Stream(0, Broken::Write(call)),
            Outer::Memory(0),
        ],
        limits: LONG,
        left: &[Frames::First(0), Frames::Least(least), Frames::First(3)],
    };
    let told = ran(rt, alloc, &setup, &Open, Way::Kept)?;
    let port = told.outside[1];
    let unwritten = port.gone.saturating_add(port.kept);
    Ok((told.ended, told.is_left, unwritten, told.writes))
}

#[test]
fn a_failed_write_leaves_the_other_ports(rt: HostRuntime) -> Result<(), Fail> {
    for call in 1..15u64 {
        // The frame whose write fails was taken. Frames that came before that write may have been taken too, and no
        // later one is.
        let least = call.div_ceil(4).min(3) as u32;
        let unwritten = 3 - ((call - 1) / 4).min(3) as usize;
        let wanted = (Some(Ended::Drained), true, unwritten, call.min(12));
        assert_eq!(rt; written(&rt, rt.alloc(), call, least)?, wanted, "{call}");
    }
    Ok(())
}

/// Shows that the Deliver step of a frame after a failed write has `gone` true. The port writes after 32 turns at the
/// latest, so that it takes some frames of a hundred and not the others.
#[test]
fn a_port_whose_write_failed_takes_no_more(rt: HostRuntime) -> Result<(), Fail> {
    const SETUP: Setup<'static> = Setup {
        draft: Draft {
            queue: 128,
            ring: 128,
            ..STAR
        },
        ports: &[
            Outer::Memory(100),
            Outer::Stream(0, Broken::Write(1)),
            Outer::Memory(0),
        ],
        limits: LONG,
        left: &[Frames::First(0), Frames::Least(1), Frames::First(100)],
    };
    let told = ran(&rt, rt.alloc(), &SETUP, &Open, Way::Kept)?;
    let port = told.outside[1];
    assert!(rt; told.ended == Some(Ended::Drained) && told.is_left);
    assert_eq!(rt; (port.first, port.newest), (Some(false), Some(true)));
    assert_eq!(rt; port.left.saturating_add(port.gone), 100);
    Ok(())
}

/// How a run ended, whether the expected frames left, the result of the last poll of the port whose read of this number
/// fails, how many of its script's frames entered or remain, and how many reads there were.
type Read = (Option<Ended>, bool, Option<Last>, Option<usize>, u64);

fn read<R: Threads + Wait + Clock + Sync>(
    rt: &R,
    alloc: Global,
    call: u64,
    entered: u32,
) -> Result<Read, Memory> {
    let setup = Setup {
        draft: STAR,
        ports: &[
            Outer::Stream(3, Broken::Read(call)),
            Outer::Memory(0),
            Outer::Memory(0),
        ],
        limits: LONG,
        left: &[
            Frames::First(0),
            Frames::First(entered),
            Frames::First(entered),
        ],
    };
    let told = ran(rt, alloc, &setup, &Open, Way::Kept)?;
    let port = told.outside[0];
    Ok((told.ended, told.is_left, port.last, port.script, told.reads))
}

#[test]
fn a_failed_read_leaves_the_other_ports(rt: HostRuntime) -> Result<(), Fail> {
    for call in 1..16u64 {
        // The frames before the one whose read fails enter. Read 13 comes to the end.
        let entered = ((call - 1) / 4).min(3) as u32;
        let (ended, last) = if call <= 13 {
            (Ended::Stopped, Last::Fault(PortFault::Read))
        } else {
            (Ended::Drained, Last::End)
        };
        let script = Some(entered as usize);
        let wanted = (Some(ended), true, Some(last), script, call.min(13));
        assert_eq!(rt; read(&rt, rt.alloc(), call, entered)?, wanted, "{call}");
    }
    Ok(())
}

#[test]
fn the_law_of_captures_holds() {
    runs_carry_captures();
}
