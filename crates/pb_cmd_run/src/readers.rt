//! The waits for the readers of the pipes that a run writes.

ghost use Rattle.std.specs.Prelude.{◌≡◌, length, map};
ghost use Rattle.pb_cmd_run.specs.Unsent.{HaveGoneOn};
ghost use Rattle.pb_workers.specs.Ports.{port_frames};

use crate::completing::CaptureFiles;
use crate::linger::{Try, try_port, try_taps};
use crate::peer::Peer;
use crate::run_files::RunFiles;
use crate::users::{Users, put_user};
use mio::net::UdpSocket;
use mio::unix::SourceFd;
use mio::{Events, Interest, Poll, Token};
use pb_lan::Place;
use pb_port::Port;
use pb_run::{Ended, Go, Tap, TappedRun};
use pb_run_control::{RunProgress, Traffic};
use pb_run_ports::Opened;
use std::alloc::Global;
use std::fs::File;
use std::net::Net;
use std::os::fd::AsRawFd;
use std::time::{Clock, Duration};
use std::{io, thread};

/// The pause in milliseconds before a pipe without a reader is checked again.
const PAUSE: u64 = 5;

/// The number of such pauses after which the gate receives that the run waits.
const PATIENCE: u64 = 200;

/// The pause in milliseconds before pipes that took nothing are tried again.
const SHORT_PAUSE: u64 = 1;

/// The highest number of ticks that a port is given.
const MOST_TICKS: u64 = 4_294_967_295;

/// The place whose worker serves the gate while the workers run.
const FIRST: Place = Place::Bridge(1);

/// Checks whether anybody has the pipe of this handle open for reading.
///
/// # Errors
///
/// The error of the system. A device that can't be watched has one too.
pub(crate) fn has_reader(net: &impl Net, alloc: Global, file: &File) -> io::Result<bool> {
    let mut poll = Poll::new(net)?;
    let mut events = Events::with_capacity(alloc, 1)?;
    let number = file.as_raw_fd();
    let interest = Interest::WRITABLE;
    poll.registry()
        .register(&mut SourceFd(&number), Token(0), interest)?;
    poll.poll(&mut events, Some(Duration::from_millis(0)))?;
    Ok(!events.iter().any(|event| event.is_error()))
}

/// Returns the file that an open port or tap writes, if it writes one.
fn output_of<I, O>(opened: &Opened<I, O, Peer, UdpSocket>) -> Option<&O> {
    match opened {
        Opened::Capture { output, .. } | Opened::Record { output, .. } => Some(output),
        _ => None,
    }
}

/// Has the gate receive that the run waits for the reader of a pipe. It is left out if an allocation fails.
fn tell_waiting<G: RunProgress>(alloc: Global, gate: &G, users: Users<'_>, place: usize) {
    let mut user = String::new(alloc);
    if put_user(&mut user, users, place).is_ok() {
        gate.waits(user.as_str());
    }
}

/// Waits until the pipe that the user at a place writes has a reader, or the gate stops the run. Returns which of the
/// two it was. A pipe that can't be watched is not waited for.
fn await_reader<R: Clock, O: RunFiles, G: RunProgress>(
    rt: &R,
    alloc: Global,
    opener: &O,
    gate: &G,
    users: Users<'_>,
    place: usize,
    output: &O::Output,
) -> Go {
    for pauses in 0..u64::MAX {
        if !opener.lacks_reader(output) {
            return Go::Go;
        }
        if gate.pass_when_idle(FIRST, 0) == Go::Stop {
            return Go::Stop;
        }
        if pauses == PATIENCE {
            tell_waiting(alloc, gate, users, place);
        }
        thread::sleep(rt, Duration::from_millis(PAUSE));
    }
    Go::Go
}

/// Waits until each pipe that is written has a reader, or the gate stops the run. The first of the open parts is the
/// user of files at the place `first`.
pub(crate) fn await_readers<R: Clock, O: RunFiles, G: RunProgress>(
    rt: &R,
    alloc: Global,
    opener: &O,
    gate: &G,
    users: Users<'_>,
    first: usize,
    opened: &[Opened<O::Input, O::Output, Peer, UdpSocket>],
) -> Go {
    let mut place = first;
    for part in opened {
        if let Some(output) = output_of(part) {
            if await_reader(rt, alloc, opener, gate, users, place, output) == Go::Stop {
                return Go::Stop;
            }
        }
        place = place.saturating_add(1);
    }
    Go::Go
}

/// Has the port of these files, if it writes one, write the frames that the file takes, at this number of ticks.
fn try_file<P: Port>(ports: &mut [P], captures: &CaptureFiles, ticks: u32) -> Try
    ensures { HaveGoneOn (map (port_frames P.Port) ports.old) (map (port_frames P.Port) ports.new) }
{
    let place = captures.place;
    if captures.write.is_none() {
        return Try::Over;
    }
    if place >= ports.len() {
        return Try::Over;
    }
    try_port(&mut ports[place], ticks)
}

/// Has each port that writes a file write the frames that the file takes, at this number of ticks.
fn try_files<P: Port>(ports: &mut [P], files: &[CaptureFiles], ticks: u32) -> Try
    ensures { HaveGoneOn (map (port_frames P.Port) ports.old) (map (port_frames P.Port) ports.new) }
{
    let mut came = Try::Over;
    for captures in files {
        came = came.and(try_file(ports, captures, ticks));
    }
    came
}

/// Has ports and taps write, at this number of ticks, until their files have taken every frame or the gate stops the
/// run.
fn write_out<P: Port, T: Port, R: Clock, G: RunProgress>(
    rt: &R,
    gate: &G,
    files: &[CaptureFiles],
    ports: &mut [P],
    lanes: &mut [Vec<Tap<T>>],
    ticks: u32,
)
    ensures { HaveGoneOn (map (port_frames P.Port) ports.old) (map (port_frames P.Port) ports.new) }
{
    for _ in 0..u64::MAX {
        let ported = try_files(ports, files, ticks);
        match try_taps(lanes, ticks, ported) {
            Try::Over => return,
            Try::Moved => {}
            Try::Waiting => thread::sleep(rt, Duration::from_millis(SHORT_PAUSE)),
        }
        if gate.pass_when_idle(FIRST, 0) == Go::Stop {
            return;
        }
    }
}

/// Has the ports and taps of a run that has drained write until their files have taken every frame, however slow the
/// readers of pipes are, or the gate stops the run. All other results of the run stay as they are.
pub(crate) fn read_out<P: Port, T: Port, R: Clock, G: RunProgress>(
    rt: &R,
    gate: &G,
    files: &[CaptureFiles],
    run: TappedRun<P, T>,
    traffic: &Traffic,
) -> TappedRun<P, T>
    ensures counts { result.ran.counts ≡ run.ran.counts }
    ensures last { result.ran.last ≡ run.ran.last }
    ensures ended { result.ran.ended ≡ run.ran.ended }
    ensures settled { result.ran.settled ≡ run.ran.settled }
    ensures ports { length result.ran.ports.items ≡ length run.ran.ports.items }
    ensures went_on { HaveGoneOn (map (port_frames P.Port) run.ran.ports.items)
        (map (port_frames P.Port) result.ran.ports.items) }
{
    if run.ran.ended != Ended::Drained {
        return run;
    }
    let ticks = traffic.ticks().min(MOST_TICKS) as u32;
    let TappedRun { mut ran, mut taps } = run;
    write_out(
        rt,
        gate,
        files,
        ran.ports.as_mut_slice(),
        taps.as_mut_slice(),
        ticks,
    );
    TappedRun { ran, taps }
}
