//! The harness: a plan is run with ports of these kinds.

use super::activity::PortActivity;
use super::draft::Draft;
use super::explained::{run_counted, run_recorded, run_wished};
use super::frames::{Frames, script_of};
use super::guests::{Guest, Habit};
use super::plans::plan_of;
use super::streams::{Broken, Stream};
use super::told::{NOTHING, Told, tell, tell_counted, tell_fault};
use pb_frame::Memory;
use pb_lan::{Limits, Plan, plan_is_sound};
use pb_port::{LengthField, MemoryPort, SocketPort};
use pb_run::{Gate, Held, KeptRun, Ran, RunFault};
use std::alloc::Global;
use std::sync::{Arc, Wait};
use std::thread::Threads;
use std::time::Clock;

/// Turns enough for any schedule, and no ticks.
pub(super) const LONG: Limits = Limits {
    turns: 1_000_000_000,
    tick_every: 0,
    tick_ms: 0,
    hold: 0,
};

/// A port outside, with this many numbered broadcasts to give.
#[derive(Clone, Copy)]
pub(super) enum Outer {
    /// Over memory.
    Memory(u32),
    /// Of the tests' own.
    Guest(u32, Habit),
    /// A socket port over a device that fails at one of its calls.
    Stream(u32, Broken),
}

impl Outer {
    /// Returns how many broadcasts it has to give.
    pub(super) fn count(self) -> usize {
        match self {
            Outer::Memory(count) | Outer::Guest(count, _) | Outer::Stream(count, _) => {
                count as usize
            }
        }
    }
}

/// A run in short.
#[derive(Clone, Copy)]
pub(super) struct Setup<'a> {
    pub(super) draft: Draft,
    pub(super) ports: &'a [Outer],
    pub(super) limits: Limits,
    /// The frames that have to leave, by customer port.
    pub(super) left: &'a [Frames],
}

/// Returns a port over memory, in a box.
fn memory(alloc: Global, count: u32) -> Result<Held, Memory> {
    let script = script_of(alloc, count)?;
    Ok(Box::new(alloc, MemoryPort::new(alloc, 4_096, script))?)
}

/// Returns a port of the tests' own.
fn guest_of(
    alloc: Global,
    count: u32,
    habit: Habit,
    activity: &Arc<PortActivity, Global>,
) -> Result<Guest, Memory> {
    let script = script_of(alloc, count)?;
    Ok(Guest::new(alloc, script, habit, Arc::try_clone(activity)?))
}

/// Returns a port of the tests' own, in a box.
fn guest(
    alloc: Global,
    count: u32,
    habit: Habit,
    activity: &Arc<PortActivity, Global>,
) -> Result<Held, Memory> {
    Ok(Box::new(alloc, guest_of(alloc, count, habit, activity)?)?)
}

/// Returns a socket port over a device that fails, in a box.
fn socket(
    alloc: Global,
    count: u32,
    broken: Broken,
    activity: &Arc<PortActivity, Global>,
) -> Result<Held, Memory> {
    let stream = Stream::new(alloc, count, broken, Arc::try_clone(activity)?)?;
    Ok(Box::new(
        alloc,
        SocketPort::new(alloc, 4_096, LengthField::Two, stream),
    )?)
}

/// Returns a port outside, in a box.
fn port_of(
    alloc: Global,
    outer: Outer,
    activity: &Arc<PortActivity, Global>,
) -> Result<Held, Memory> {
    match outer {
        Outer::Memory(count) => memory(alloc, count),
        Outer::Guest(count, habit) => guest(alloc, count, habit, activity),
        Outer::Stream(count, broken) => socket(alloc, count, broken, activity),
    }
}

/// Returns the ports outside.
fn ports_of(
    alloc: Global,
    outers: &[Outer],
    activity: &Arc<PortActivity, Global>,
) -> Result<Vec<Held>, Memory> {
    let mut ports = Vec::new(alloc);
    for outer in outers {
        ports.push(port_of(alloc, *outer, activity)?)?;
    }
    Ok(ports)
}

/// The mode of a run.
#[derive(Clone, Copy)]
pub(super) enum Way {
    /// The run keeps all steps.
    Kept,
    /// The run keeps all steps, and is lossless.
    Lossless,
    /// The run only counts its steps.
    Counted,
    /// The run only counts its steps, and sets ports as its gate wishes.
    Set,
}

/// Returns the result of a run that kept its steps. A port with remaining frames is polled for them.
fn told_of_kept(
    alloc: Global,
    outcome: Result<KeptRun, RunFault>,
    left: &[Frames],
    polls: u64,
) -> Result<Told, Memory> {
    let mut told = match outcome {
        Ok(mut kept) => tell(alloc, &mut kept, left),
        Err(mut fault) => tell_fault(alloc, &mut fault),
    }?;
    told.polls = polls;
    Ok(told)
}

/// Returns the result of a run that only counted its steps.
fn told_of(alloc: Global, outcome: Result<Ran, RunFault>) -> Result<Told, Memory> {
    match outcome {
        Ok(ran) => tell_counted(&ran),
        Err(mut fault) => tell_fault(alloc, &mut fault),
    }
}

/// Runs a plan with these ports, and returns the result.
fn ran_with<G: Gate, R: Threads + Wait + Clock + Sync>(
    rt: &R,
    alloc: Global,
    plan: &Plan,
    ports: Vec<Held>,
    setup: &Setup,
    gate: &G,
    activity: &PortActivity,
    way: Way,
) -> Result<Told, Memory> {
    if !plan_is_sound(plan) {
        return Ok(NOTHING);
    }
    let limits = setup.limits;
    match way {
        Way::Kept | Way::Lossless => {
            let is_lossless = matches!(way, Way::Lossless);
            let outcome = run_recorded(rt, alloc, plan, ports, gate, limits, is_lossless);
            told_of_kept(alloc, outcome, setup.left, activity.polls())
        }
        Way::Counted => {
            let outcome = run_counted(rt, alloc, plan, ports, gate, limits, false);
            told_of(alloc, outcome)
        }
        Way::Set => told_of(
            alloc,
            run_wished(rt, alloc, plan, ports, gate, limits, false),
        ),
    }
}

/// Runs a setup, and returns the result with the activity of its ports. The result owns nothing, which keeps tests
/// cheap to prove.
pub(super) fn ran_under<G: Gate, R: Threads + Wait + Clock + Sync>(
    rt: &R,
    alloc: Global,
    setup: &Setup,
    gate: &G,
    activity: &Arc<PortActivity, Global>,
    way: Way,
) -> Result<Told, Memory> {
    let plan = plan_of(alloc, &setup.draft)?;
    let ports = ports_of(alloc, setup.ports, activity)?;
    let mut told = ran_with(rt, alloc, &plan, ports, setup, gate, activity, way)?;
    activity.tell(&mut told);
    Ok(told)
}

/// Runs a setup, and returns the result.
pub(super) fn ran<G: Gate, R: Threads + Wait + Clock + Sync>(
    rt: &R,
    alloc: Global,
    setup: &Setup,
    gate: &G,
    way: Way,
) -> Result<Told, Memory> {
    let activity = Arc::new(alloc, PortActivity::new())?;
    ran_under(rt, alloc, setup, gate, &activity, way)
}
