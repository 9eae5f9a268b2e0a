//! The time after a run in which ports write the frames that wait in them.

ghost use Rattle.std.specs.Prelude.{◌≡◌, length, map};
ghost use Rattle.pb_cmd_run.specs.Unsent.{GoesOn, HaveGoneOn};
ghost use Rattle.pb_workers.specs.Ports.{port_frames};

use pb_port::{Port, Pumped};
use pb_run::{Recorder, Tap, TappedRun};
use pb_run_control::Traffic;
use std::thread;
use std::time::{Clock, Duration, Instant};

/// The pause in milliseconds before devices that took nothing are tried again.
const PAUSE: u64 = 1;

/// The maximum number of tries.
const MOST_TRIES: u32 = 10_000_000;

/// The maximum number of times that taps write before the time counts.
const MOST_DRAINS: u32 = 4_096;

/// The highest number of ticks that a port is given.
const MOST_TICKS: u64 = 4_294_967_295;

/// The time that ports have after a run, and the counts of the run.
#[derive(Clone, Copy)]
pub(crate) struct Lingering<'a> {
    /// The maximum time, in milliseconds.
    pub millis: u32,
    /// The counts of the run. Captures are stamped with the ticks of the clock that ticked most.
    pub traffic: &'a Traffic,
}

/// The result of a try to write.
#[derive(Clone, Copy, PartialEq, Eq)]
pub(crate) enum Try {
    /// Frames were written.
    Moved,
    /// No frame was written, and some wait for a device that takes nothing yet.
    Waiting,
    /// No frame waits that could be written.
    Over,
}

impl Try {
    /// Returns the result of this try and another.
    pub(crate) fn and(self, other: Try) -> Try {
        match (self, other) {
            (Try::Moved, _) | (_, Try::Moved) => Try::Moved,
            (Try::Waiting, _) | (_, Try::Waiting) => Try::Waiting,
            _ => Try::Over,
        }
    }
}

/// Has a port write the frames that its device takes, at this number of ticks.
pub(crate) fn try_port<P: Port>(port: &mut P, ticks: u32) -> Try
    ensures { GoesOn (port_frames P.Port port.old) (port_frames P.Port port.new) }
{
    match port.pump(ticks) {
        Pumped::Wrote(_) => Try::Moved,
        Pumped::Nothing if !port.unsent().is_empty() => Try::Waiting,
        _ => Try::Over,
    }
}

/// Has each port write the frames that its device takes, at this number of ticks.
fn try_all<P: Port>(ports: &mut [P], ticks: u32) -> Try
    ensures { HaveGoneOn (map (port_frames P.Port) ports.old) (map (port_frames P.Port) ports.new) }
{
    let mut came = Try::Over;
    for index in 0..ports.len() {
        match try_port(&mut ports[index], ticks) {
            Try::Moved => came = Try::Moved,
            Try::Waiting if came == Try::Over => came = Try::Waiting,
            _ => {}
        }
    }
    came
}

/// Has a tap write the frames that its file takes, at this number of ticks.
fn try_tap<T: Port>(tap: &mut Tap<T>, ticks: u32) -> Try {
    match tap.record(ticks, true) {
        Ok(true) => Try::Moved,
        _ if is_waiting(tap) => Try::Waiting,
        _ => Try::Over,
    }
}

/// Checks whether frames wait in a tap that could be written.
fn is_waiting<T: Port>(tap: &mut Tap<T>) -> bool {
    match &mut tap.recorder {
        Recorder::Tape(tape) => !tape.is_gone && tape.unwritten() > 0,
        Recorder::Feeder(_) => false,
    }
}

/// Has each tap write the frames that its file takes, at this number of ticks.
pub(crate) fn try_taps<T: Port>(lanes: &mut [Vec<Tap<T>>], ticks: u32, ports: Try) -> Try {
    let mut came = ports;
    for taps in lanes {
        for tap in taps {
            match try_tap(tap, ticks) {
                Try::Moved => came = Try::Moved,
                Try::Waiting if came == Try::Over => came = Try::Waiting,
                _ => {}
            }
        }
    }
    came
}

/// Has each tap write what has come over rings until the last lane ended.
fn drain_taps<T: Port>(lanes: &mut [Vec<Tap<T>>], ticks: u32) {
    for _ in 0..MOST_DRAINS {
        if try_taps(lanes, ticks, Try::Over) != Try::Moved {
            return;
        }
    }
}

/// Returns whether so many milliseconds have passed since a moment. Returns true if the clock can't be read.
fn is_past<R: Clock>(rt: &R, start: Instant, millis: u32) -> bool {
    match start.elapsed(rt) {
        Ok(time) => time >= Duration::from_millis(u64::from(millis)),
        Err(_) => true,
    }
}

/// Has ports and taps write until no frame waits that could be written, or the time is over.
fn write_on<P: Port, T: Port, R: Clock>(
    rt: &R,
    ports: &mut [P],
    lanes: &mut [Vec<Tap<T>>],
    lingering: Lingering<'_>,
)
    ensures { HaveGoneOn (map (port_frames P.Port) ports.old) (map (port_frames P.Port) ports.new) }
{
    let ticks = lingering.traffic.ticks().min(MOST_TICKS) as u32;
    drain_taps(lanes, ticks);
    let Ok(start) = Instant::now(rt) else {
        return;
    };
    for _ in 0..MOST_TRIES {
        if is_past(rt, start, lingering.millis) {
            return;
        }
        let came = try_all(ports, ticks);
        match try_taps(lanes, ticks, came) {
            Try::Moved => {}
            Try::Waiting => thread::sleep(rt, Duration::from_millis(PAUSE)),
            Try::Over => return,
        }
    }
}

/// Gives the ports and taps of a run time to write the frames that wait in them, and returns when none waits that could
/// be written or the time is over. All other results of the run stay as they are.
pub(crate) fn lingered<P: Port, T: Port, R: Clock>(
    rt: &R,
    run: TappedRun<P, T>,
    lingering: Lingering<'_>,
) -> TappedRun<P, T>
    ensures counts { result.ran.counts ≡ run.ran.counts }
    ensures last { result.ran.last ≡ run.ran.last }
    ensures ended { result.ran.ended ≡ run.ran.ended }
    ensures settled { result.ran.settled ≡ run.ran.settled }
    ensures ports { length result.ran.ports.items ≡ length run.ran.ports.items }
    ensures went_on { HaveGoneOn (map (port_frames P.Port) run.ran.ports.items)
        (map (port_frames P.Port) result.ran.ports.items) }
{
    let TappedRun { mut ran, mut taps } = run;
    write_on(rt, ran.ports.as_mut_slice(), taps.as_mut_slice(), lingering);
    TappedRun { ran, taps }
}
