//! Captures that come and go through pipes.

use super::folder::{enter, has, leave, make};
use super::plans::{CAPTURES, NO_FRAMES, ONE_FRAME};
use super::sheet::Sheet;
use super::{PLAIN, Told, no_traffic, run};
use pb_cmd_run::{NetworkFault, Opening, RunProgress, RunSettings, Strictness, run_network};
use pb_lan::Place;
use pb_run::{Gate, Go};
use std::alloc::{AllocError, Global};
use std::fs::{File, Files};
use std::io::{ErrorKind, PipeWriter, Read, Write};
use std::net::{Net, TcpListener, TcpStream};
use std::os::fd::AsRawFd;
use std::sync::Wait;
use std::sync::atomic::{AtomicU64, Ordering};
use std::test::Fail;
use std::thread::Threads;
use std::time::{Clock, Duration};
use std::{io, thread};

/// The report of the run.
const REPORT: &[u8] =
    b"ended drained\nport P1 entered 0 left 1 filtered 0\nport P2 entered 1 left 0 filtered 0\n\
    port P3 entered 0 left 1 filtered 0\nforest yes\n";

/// The report of a run that is stopped before its first turn.
const STOPPED: &[u8] =
    b"ended stopped\nport P1 entered 0 left 0 filtered 0\nport P2 entered 0 left 0 filtered 0\n\
    port P3 entered 0 left 0 filtered 0\nforest yes\n";

/// The result of the run.
const TOLD: Told = Told {
    result: Ok(0),
    traffic: (1, 2),
    closed: 1,
};

/// Returns a plan with an open file, by its descriptor, in place of this file.
fn plan_of(alloc: Global, name: &str, number: i32) -> Result<String, AllocError> {
    let (front, back) = CAPTURES.split_once(name).unwrap_or(("", ""));
    format!(in alloc; "{front}/proc/self/fd/{number}{back}")
}

/// Writes a capture in two parts, each after a while.
fn write_late(rt: &impl Clock, writer: &mut PipeWriter) -> io::Result<()> {
    for part in [&ONE_FRAME[..30], &ONE_FRAME[30..]] {
        thread::sleep(rt, Duration::from_millis(20));
        writer.write_all(part)?;
    }
    Ok(())
}

/// Writes a capture in two parts and closes the pipe. Returns the kind of an error.
fn feed(rt: &impl Clock, writer: PipeWriter) -> Result<(), ErrorKind> {
    let mut writer = writer;
    match write_late(rt, &mut writer) {
        Ok(()) => Ok(()),
        Err(error) => Err(error.kind()),
    }
}

#[test]
fn a_pipe_is_read_as_it_comes(rt: HostRuntime) -> Result<(), Fail> {
    let alloc = rt.alloc();
    enter(&rt, rt.process())?;
    make(&rt, &[("p1.in", NO_FRAMES)])?;
    let (reader, writer) = io::pipe(&rt)?;
    let plan = plan_of(alloc, "p2.in", reader.as_raw_fd())?;
    let (mut output, mut errors) = (Sheet::whole(REPORT), Sheet::whole(b""));
    let parts = ["", plan.as_str()];
    let network = || run(&rt, alloc, parts, PLAIN, &mut output, &mut errors);
    let (fed, told) = thread::join(&rt, || feed(&rt, writer), network);
    drop(plan);
    drop(reader);
    assert_eq!(rt; (fed, told?), (Ok(()), TOLD));
    let wrote = has(&rt, "p1.out", ONE_FRAME);
    assert_eq!(rt;
        (output.is_right(), errors.is_right(), wrote),
        (true, true, true)
    );
    leave(&rt, rt.process())?;
    Ok(())
}

#[test]
fn a_pipe_is_written_though_its_reader_takes_nothing_yet(rt: HostRuntime) -> Result<(), Fail> {
    let alloc = rt.alloc();
    enter(&rt, rt.process())?;
    make(&rt, &[("p1.in", NO_FRAMES), ("p2.in", ONE_FRAME)])?;
    let (mut reader, writer) = io::pipe(&rt)?;
    let plan = plan_of(alloc, "p1.out", writer.as_raw_fd())?;
    let (mut output, mut errors) = (Sheet::whole(REPORT), Sheet::whole(b""));
    let parts = ["", plan.as_str()];
    let told = run(&rt, alloc, parts, PLAIN, &mut output, &mut errors)?;
    drop(plan);
    drop(writer);
    let mut octets = Vec::new(alloc);
    reader.read_to_end(&mut octets)?;
    assert_eq!(rt; told, TOLD);
    assert_eq!(rt;
        (
            output.is_right(),
            errors.is_right(),
            octets.as_slice() == ONE_FRAME
        ),
        (true, true, true)
    );
    leave(&rt, rt.process())?;
    Ok(())
}

/// A gate that stops the run after so many of its calls, and counts the calls that say that the run waits.
#[derive(Drop)]
struct Patience {
    calls: u64,
    done: AtomicU64,
    waits: AtomicU64,
}

impl Gate for Patience {
    fn pass(&self, _place: Place, _turn: u64) -> Go {
        if self.done.fetch_add(1, Ordering::SeqCst) < self.calls {
            Go::Go
        } else {
            Go::Stop
        }
    }
}

impl RunProgress for Patience {
    fn open(&self, _opening: Opening) {}

    fn close(&self) {}

    fn waits(&self, _user: &str) {
        self.waits.fetch_add(1, Ordering::SeqCst);
    }
}

/// Runs the network of a plan file with this gate.
fn run_with<R, W: Write, E: Write>(
    rt: &R,
    alloc: Global,
    file: &str,
    gate: &Patience,
    writer: &mut W,
    errors: &mut E,
) -> Result<Result<u8, NetworkFault>, AllocError>
where
    R: Files<File = File>
        + Net<Listener = TcpListener, Stream = TcpStream>
        + Threads
        + Wait
        + Clock
        + Sync,
{
    let traffic = no_traffic(alloc)?;
    let settings = RunSettings {
        plan: "",
        control: None,
        settles: false,
        linger: 100,
        input: None,
        allows_network: false,
    };
    Ok(run_network(
        rt,
        alloc,
        file.as_bytes(),
        Strictness::Lenient,
        &settings,
        &traffic,
        gate,
        writer,
        errors,
    ))
}

#[test]
fn a_run_waits_for_the_reader_until_it_is_stopped(rt: HostRuntime) -> Result<(), Fail> {
    let alloc = rt.alloc();
    enter(&rt, rt.process())?;
    make(&rt, &[("p1.in", NO_FRAMES), ("p2.in", ONE_FRAME)])?;
    let (reader, writer) = io::pipe(&rt)?;
    drop(reader);
    let plan = plan_of(alloc, "p1.out", writer.as_raw_fd())?;
    let gate = Patience {
        calls: 250,
        done: AtomicU64::new(0),
        waits: AtomicU64::new(0),
    };
    let (mut output, mut errors) = (Sheet::whole(STOPPED), Sheet::whole(b""));
    let told = run_with(&rt, alloc, plan.as_str(), &gate, &mut output, &mut errors)?;
    drop(plan);
    drop(writer);
    assert_eq!(rt; (told, gate.waits.load(Ordering::SeqCst)), (Ok(0), 1));
    assert_eq!(rt; (output.is_right(), errors.is_right()), (true, true));
    leave(&rt, rt.process())?;
    Ok(())
}

/// Opens a pipe after a while, and reads a capture of one frame from it. Returns whether it came whole.
fn read_one<R: Files<File = File> + Clock>(rt: &R, path: &str) -> io::Result<bool> {
    thread::sleep(rt, Duration::from_millis(30));
    let mut file = File::open(rt, path)?;
    let mut octets = [0u8; ONE_FRAME.len()];
    file.read_exact(&mut octets)?;
    Ok(octets.as_slice() == ONE_FRAME)
}

/// Reads a capture as [`read_one`] does. Returns the kind of an error.
fn read_late<R: Files<File = File> + Clock>(rt: &R, path: String) -> Result<bool, ErrorKind> {
    match read_one(rt, path.as_str()) {
        Ok(is_whole) => Ok(is_whole),
        Err(error) => Err(error.kind()),
    }
}

#[test]
fn a_reader_that_comes_late_reads_all(rt: HostRuntime) -> Result<(), Fail> {
    let alloc = rt.alloc();
    enter(&rt, rt.process())?;
    make(&rt, &[("p1.in", NO_FRAMES), ("p2.in", ONE_FRAME)])?;
    let (reader, writer) = io::pipe(&rt)?;
    drop(reader);
    let number = writer.as_raw_fd();
    let plan = plan_of(alloc, "p1.out", number)?;
    let path = format!(in alloc; "/proc/self/fd/{number}")?;
    let (mut output, mut errors) = (Sheet::whole(REPORT), Sheet::whole(b""));
    let parts = ["", plan.as_str()];
    let network = || run(&rt, alloc, parts, PLAIN, &mut output, &mut errors);
    let (is_read, told) = thread::join(&rt, || read_late(&rt, path), network);
    drop(plan);
    drop(writer);
    assert_eq!(rt; (is_read, told?), (Ok(true), TOLD));
    assert_eq!(rt; (output.is_right(), errors.is_right()), (true, true));
    leave(&rt, rt.process())?;
    Ok(())
}
