//! Runs that keep their steps beside runs that only count them, of examples and of generated networks.

ghost use Rattle.std.specs.Prelude.{IfOk};
ghost use Rattle.pb_lan.specs.Plans.{IsSound};
ghost use Rattle.pb_relay.specs.Settled.{TellsSettled};

use super::Door;
use super::captures::PLAN;
use super::generated::{Dice, plan_of, script_of};
use super::plans::LOSSY;
use bytes::Bytes;
use pb_cmd_run::write_report;
use pb_fakes::plans::{E_LAN, E_LINE, LOSSES, METRO, PAIR, PARALLEL, PLAN_FILE, TWO_BRIDGES};
use pb_frame::Memory;
use pb_history::Tallies;
use pb_lan::{Limits, Plan, plan_is_sound};
use pb_port::{MemoryPort, Port, Shelf};
use pb_run::{Held, KeptRun, Ran, run, run_kept};
use pb_service::read_plan_file;
use std::alloc::Global;
use std::collections::VecDeque;
use std::process::Abort;
use std::sync::Wait;
use std::test::Fail;
use std::thread::Threads;
use std::time::Clock;

/// Turns enough for any schedule, and no ticks.
const LONG: Limits = Limits {
    turns: 1_000_000_000,
    tick_every: 0,
    tick_ms: 0,
    hold: 0,
};

/// The compared part of a run: its report, and the frames that each port has taken.
#[derive(Drop)]
struct Came {
    report: Vec<u8>,
    frames: Vec<Vec<Bytes>>,
}

/// Returns the frames that a port has taken. It is taken out of use.
fn taken(alloc: Global, port: &mut Held) -> Result<Vec<Bytes>, Memory> {
    let mut shelf = Shelf {
        unsent: VecDeque::new(alloc),
        sent: Vec::new(alloc),
    };
    port.shelve(&mut shelf);
    let mut frames = shelf.sent;
    for frame in shelf.unsent {
        frames.push(frame)?;
    }
    Ok(frames)
}

/// Returns the frames that each port has taken.
fn all_taken(alloc: Global, ports: &mut [Held]) -> Result<Vec<Vec<Bytes>>, Memory> {
    let mut frames = Vec::new(alloc);
    for port in ports {
        frames.push(taken(alloc, port)?)?;
    }
    Ok(frames)
}

/// Returns the compared part of a run, or `None` if an allocation failed.
fn came_of(alloc: Global, plan: &Plan, ran: Ran) -> Option<Came>
    requires sound { IsSound plan.now }
    requires settled { IfOk ran.settled (TellsSettled plan.now ran.counts) }
{
    if ran.last.len() != plan.customers.len() {
        return None;
    }
    let mut ran = ran;
    let mut report = Vec::new(alloc);
    write_report(alloc, plan, &ran, &mut report).ok()?;
    let frames = all_taken(alloc, ran.ports.as_mut_slice()).ok()?;
    Some(Came { report, frames })
}

/// Runs a plan and counts its steps.
fn counted<R: Threads + Wait + Clock + Sync>(
    rt: &R,
    alloc: Global,
    plan: &Plan,
    ports: Vec<Held>,
    is_lossless: bool,
) -> Option<Came>
    requires { IsSound plan.now }
{
    match run(rt, alloc, plan, ports, &Door::new(), LONG, is_lossless) {
        Ok(ran) => came_of(alloc, plan, ran),
        Err(_) => None,
    }
}

/// Runs a plan and keeps its steps. The report is that of the steps.
fn kept<R: Threads + Wait + Clock + Sync>(
    rt: &R,
    alloc: Global,
    plan: &Plan,
    ports: Vec<Held>,
    is_lossless: bool,
) -> Option<Came>
    requires { IsSound plan.now }
{
    match run_kept(rt, alloc, plan, ports, &Door::new(), LONG, is_lossless) {
        Ok(KeptRun { mut ran, rec }) => {
            let Ok(counts) = Tallies::of(alloc, &rec) else {
                return None;
            };
            ran.counts = counts;
            came_of(alloc, plan, ran)
        }
        Err(_) => None,
    }
}

/// Returns how often a frame is in a list.
fn count_of(frames: &[Bytes], wanted: &Bytes) -> usize {
    let mut count = 0usize;
    for frame in frames {
        if frame == wanted {
            count = count.saturating_add(1);
        }
    }
    count
}

/// Checks whether two lists have the same frames. Frames of several senders come in any order.
fn are_same(some: &[Bytes], others: &[Bytes]) -> bool {
    some.len() == others.len()
        && some
            .iter()
            .all(|frame| count_of(some, frame) == count_of(others, frame))
}

/// Checks whether two runs have the same report, and the same frames at each port.
fn are_alike(some: &Came, others: &Came) -> bool {
    some.report == others.report
        && some.frames.len() == others.frames.len()
        && some.frames.iter().zip(others.frames.iter()).all(|(here, there)| are_same(
            here.as_slice(),
            there.as_slice(),
        ))
}

/// Returns a port in memory for each customer port. The first ports, this many, have frames to give.
fn ports_of(alloc: Global, plan: &Plan, senders: usize, seed: u64) -> Result<Vec<Held>, Memory> {
    let mut ports = Vec::new(alloc);
    let mut dice = Dice::new(seed);
    let mut number = 0u8;
    for (place, _) in plan.customers.as_slice().iter().enumerate() {
        number = number.saturating_add(1);
        let script = if place < senders {
            script_of(alloc, &mut dice, number)?
        } else {
            VecDeque::new(alloc)
        };
        let port: Held = Box::new(alloc, MemoryPort::new(alloc, 4_096, script))?;
        ports.push(port)?;
    }
    Ok(ports)
}

/// Checks whether a plan runs alike if its steps are kept and if they are counted.
fn runs_alike<R: Threads + Wait + Clock + Sync>(
    rt: &R,
    alloc: Global,
    plan: &Plan,
    senders: usize,
    seed: u64,
    is_lossless: bool,
) -> Result<bool, Memory> {
    if !plan_is_sound(plan) {
        return Ok(false);
    }
    let ports = ports_of(alloc, plan, senders, seed)?;
    let some = kept(rt, alloc, plan, ports, is_lossless);
    let ports = ports_of(alloc, plan, senders, seed)?;
    let others = counted(rt, alloc, plan, ports, is_lossless);
    match (some, others) {
        (Some(some), Some(others)) => Ok(are_alike(&some, &others)),
        _ => Ok(false),
    }
}

/// Checks whether the plan of a file runs alike.
fn file_runs_alike<R: Threads + Wait + Clock + Sync>(
    rt: &R,
    alloc: Global,
    file: &str,
    senders: usize,
    seed: u64,
) -> Result<bool, Memory> {
    match read_plan_file(alloc, file.as_bytes()) {
        Ok(told) => runs_alike(rt, alloc, &told.plan, senders, seed, told.is_lossless),
        Err(_) => Ok(false),
    }
}

/// Shows that a run of an example has the same report and the same frames at its ports if its steps are kept and if
/// they are counted. A link that loses the second frame has one sender, so that it is the same frame in both runs.
/// Plans with clocks or peers are left out, since time decides the steps of their runs.
#[test]
fn examples_run_alike_kept_and_counted(rt: HostRuntime) -> Result<(), Fail> {
    for (file, senders) in [
        (PAIR, 2usize),
        (TWO_BRIDGES, 3),
        (E_LINE, 2),
        (E_LAN, 4),
        (PARALLEL, 4),
        (PLAN_FILE, 4),
        (METRO, 7),
        (PLAN, 7),
        (LOSSES, 1),
        (LOSSY, 1),
    ] {
        for seed in 0..4u64 {
            assert!(rt;
                file_runs_alike(&rt, rt.alloc(), file, senders, seed)?,
                "{file}"
            );
        }
    }
    Ok(())
}

/// Checks whether a generated network runs alike. Each second run is lossless.
fn network_runs_alike<R: Threads + Wait + Clock + Sync>(
    rt: &R,
    alloc: Global,
    seed: u64,
) -> Result<bool, Memory> {
    let is_lossless = seed % 2 == 1;
    let plan = plan_of(alloc, seed, is_lossless)?;
    runs_alike(rt, alloc, &plan, 128, seed, is_lossless)
}

/// Shows the same of 50 generated networks, those of this seed and of the next.
fn fifty_run_alike<R: Abort + Threads + Wait + Clock + Sync>(
    rt: &R,
    alloc: Global,
    first: u64,
) -> Result<(), Fail> {
    for more in 0..50u64 {
        let seed = first.saturating_add(more);
        assert!(rt; network_runs_alike(rt, alloc, seed)?, "network {seed}");
    }
    Ok(())
}

#[test]
fn generated_networks_run_alike_kept_and_counted(rt: HostRuntime) -> Result<(), Fail> {
    fifty_run_alike(&rt, rt.alloc(), 0)
}

#[test]
fn fifty_further_networks_run_alike(rt: HostRuntime) -> Result<(), Fail> {
    fifty_run_alike(&rt, rt.alloc(), 50)
}

#[test]
fn a_third_fifty_networks_run_alike(rt: HostRuntime) -> Result<(), Fail> {
    fifty_run_alike(&rt, rt.alloc(), 100)
}

#[test]
fn a_fourth_fifty_networks_run_alike(rt: HostRuntime) -> Result<(), Fail> {
    fifty_run_alike(&rt, rt.alloc(), 150)
}
