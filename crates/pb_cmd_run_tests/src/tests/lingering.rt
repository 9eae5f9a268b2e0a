//! Frames that wait in a port when the run is over.

use super::folder::{enter, leave};
use super::plans::BUSY;
use super::sheet::Sheet;
use super::{Door, Manner, NetworkFault, PLAIN, Told, carry};
use std::alloc::{AllocError, Global};
use std::fs::{File, Files};
use std::io::{ErrorKind, Read};
use std::net::{Net, Shutdown, TcpListener, TcpStream};
use std::os::unix::net::{UnixListener, UnixStream};
use std::sync::Wait;
use std::test::Fail;
use std::thread::Threads;
use std::time::{Clock, Duration};
use std::{fs, io, thread};

/// The number of frames that go to the port, which is more than a socket holds.
const FRAMES: usize = 200;

/// The length of each frame in octets.
const LENGTH: usize = 1_900;

/// The number of octets that are to arrive.
const ALL: usize = FRAMES * (LENGTH + 2);

/// Returns a plan with a port that sends so many frames.
fn busy_plan(alloc: Global) -> Result<String, AllocError> {
    let mut file = String::from_str(alloc, BUSY)?;
    file.push_str("in = [")?;
    for _ in 0..FRAMES {
        file.push_str("\"ffffffffffff0200000001010800")?;
        for _ in 14..LENGTH {
            file.push_str("00")?;
        }
        file.push_str("\",")?;
    }
    file.push_str("]\n")?;
    Ok(file)
}

/// Waits until the run is over, for at most a minute.
fn wait<R: Clock>(rt: &R, door: &Door) {
    for _ in 0..60_000u32 {
        if door.closed() > 0 {
            return;
        }
        thread::sleep(rt, Duration::from_millis(1));
    }
}

/// Reads to the end, and returns the number of octets.
fn count(alloc: Global, stream: &mut UnixStream) -> io::Result<usize> {
    let mut heard = Vec::new(alloc);
    stream.read_to_end(&mut heard)?;
    Ok(heard.len())
}

/// Accepts the port's connection, closes the sending direction, waits until the run is over, and returns the number of
/// octets that arrive.
fn take_late<R: Clock>(
    rt: &R,
    alloc: Global,
    listener: UnixListener,
    door: &Door,
) -> io::Result<usize> {
    let (stream, _) = listener.accept()?;
    let mut stream = stream;
    stream.shutdown(Shutdown::Write)?;
    wait(rt, door);
    count(alloc, &mut stream)
}

/// Returns the number of octets that arrive, or the kind of the error.
fn taken<R: Clock>(
    rt: &R,
    alloc: Global,
    listener: UnixListener,
    door: &Door,
) -> Result<usize, ErrorKind> {
    match take_late(rt, alloc, listener, door) {
        Ok(count) => Ok(count),
        Err(error) => Err(error.kind()),
    }
}

/// The result of a run with such a peer: that of the run, the number of octets that arrived, whether standard error is
/// empty, and whether it reports unwritten frames.
#[derive(Clone, Copy)]
struct Came {
    told: Result<Told, AllocError>,
    heard: Result<usize, ErrorKind>,
    is_quiet: bool,
    is_remark: bool,
}

/// Returns whether this is a line about unwritten frames.
fn is_remark(errors: &[u8]) -> bool {
    errors.starts_with(b"port P2: ") && errors.ends_with(b" frames not written\n")
}

/// Runs the busy plan, whose ports may write for so many milliseconds after the run.
fn come_of<R>(rt: &R, alloc: Global, file: &str, linger: u32, listener: UnixListener) -> Came
where
    R: Files<File = File>
        + Net<Listener = TcpListener, Stream = TcpStream>
        + Threads
        + Wait
        + Clock
        + Sync,
{
    let door = Door::new();
    let manner = Manner { linger, ..PLAIN };
    let (mut output, mut errors) = (Sheet::front(b""), Vec::new(alloc));
    let network = || {
        let told = carry(rt, alloc, file, manner, &door, &mut output, &mut errors);
        // A connection ends the wait of the peer if the network has not connected.
        let _ = UnixStream::connect(rt, "peer.sock");
        told
    };
    let (heard, told) = thread::join(rt, || taken(rt, alloc, listener, &door), network);
    Came {
        told,
        heard,
        is_quiet: errors.is_empty(),
        is_remark: is_remark(errors.as_slice()),
    }
}

#[test]
fn ports_have_a_while_to_write(rt: HostRuntime) -> Result<(), Fail> {
    let alloc = rt.alloc();
    enter(&rt, rt.process())?;
    let slow = UnixListener::bind(&rt, "peer.sock")?;
    let file = busy_plan(alloc)?;
    // A peer that is slower than the network receives all frames in the time that it has.
    let all = come_of(&rt, alloc, file.as_str(), 60_000, slow);
    fs::remove_file(&rt, "peer.sock")?;
    let late = UnixListener::bind(&rt, "peer.sock")?;
    // Without time it doesn't, and the loss report has the missing frames.
    let some = come_of(&rt, alloc, file.as_str(), 0, late);
    drop(file);
    assert_eq!(rt;
        (all.told?.result, all.is_quiet, all.heard),
        (Ok(0), true, Ok(ALL))
    );
    assert_eq!(rt; (some.told?.result, some.is_remark), (Ok(0), true));
    assert!(rt; matches!(some.heard, Ok(count) if count < ALL));
    leave(&rt, rt.process())?;
    Ok(())
}
