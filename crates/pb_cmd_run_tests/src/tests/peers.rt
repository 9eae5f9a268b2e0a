//! A port over a socket, and its peer.

use super::folder::{enter, has, is_missing, leave, make};
use super::plans::{LISTENER, SOCKET};
use super::sheet::Sheet;
use super::{NetworkFault, PLAIN, Told, run};
use std::alloc::Global;
use std::fs::Files;
use std::io::{ErrorKind, Read, Write};
use std::net::{Net, Shutdown};
use std::os::unix::fs::MetadataExt;
use std::os::unix::net::{UnixListener, UnixStream};
use std::test::Fail;
use std::time::{Clock, Duration};
use std::{fs, io, thread};

/// The frame that the peer sends, after its length.
const SENT: &[u8] = b"\0\x10\xff\xff\xff\xff\xff\xff\x02\0\0\0\x01\x02\x08\0CD";

/// The frame that the peer receives, after its length.
const WANTED: &[u8] = b"\0\x10\xff\xff\xff\xff\xff\xff\x02\0\0\0\x01\x01\x08\0AB";

/// The report of the run.
const REPORT: &[u8] =
    b"ended drained\nport C1 entered 1 left 1 filtered 0\nport P2 entered 1 left 1 filtered 0\nforest yes\n";

/// The result of the run.
const TOLD: Told = Told {
    result: Ok(0),
    traffic: (2, 2),
    closed: 1,
};

/// The octets that a peer received.
#[derive(Clone, Copy, PartialEq, Eq, Debug)]
enum Heard {
    /// No octets.
    Nothing,
    /// The frame, and nothing else.
    Wanted,
    /// Other octets.
    Other,
}

/// Sends a frame and closes the sending direction.
fn send(stream: &mut UnixStream) -> io::Result<()> {
    stream.write_all(SENT)?;
    stream.shutdown(Shutdown::Write)
}

/// Reads to the end, and returns what was received.
fn hear(alloc: Global, stream: &mut UnixStream) -> io::Result<Heard> {
    let mut heard = Vec::new(alloc);
    stream.read_to_end(&mut heard)?;
    Ok(if heard.is_empty() {
        Heard::Nothing
    } else if heard.as_slice() == WANTED {
        Heard::Wanted
    } else {
        Heard::Other
    })
}

/// Sends a frame, closes the sending direction, and returns what was received.
fn talk(alloc: Global, stream: &mut UnixStream) -> io::Result<Heard> {
    send(stream)?;
    hear(alloc, stream)
}

/// Accepts one connection, and talks over it.
fn converse(alloc: Global, listener: UnixListener) -> io::Result<Heard> {
    let (stream, _) = listener.accept()?;
    let mut stream = stream;
    talk(alloc, &mut stream)
}

/// Returns what was received, or the kind of the error.
fn kind_of(heard: io::Result<Heard>) -> Result<Heard, ErrorKind> {
    match heard {
        Ok(heard) => Ok(heard),
        Err(error) => Err(error.kind()),
    }
}

#[test]
fn frames_pass_a_socket_both_ways(rt: HostRuntime) -> Result<(), Fail> {
    let alloc = rt.alloc();
    enter(&rt, rt.process())?;
    let listener = UnixListener::bind(&rt, "peer.sock")?;
    let (mut output, mut errors) = (Sheet::whole(REPORT), Sheet::whole(b""));
    let network = || {
        let told = run(&rt, alloc, ["", SOCKET], PLAIN, &mut output, &mut errors);
        // A connection ends the wait of the peer if the network has not connected.
        let _ = UnixStream::connect(&rt, "peer.sock");
        told
    };
    let (heard, told) = thread::join(&rt, || kind_of(converse(alloc, listener)), network);
    assert_eq!(rt; (told?, heard), (TOLD, Ok(Heard::Wanted)));
    assert_eq!(rt; (output.is_right(), errors.is_right()), (true, true));
    leave(&rt, rt.process())?;
    Ok(())
}

/// Returns whether there is a socket at the path to which only its owner may connect.
fn is_made(rt: &impl Files, path: &str) -> bool {
    match fs::metadata(rt, path) {
        Ok(metadata) => metadata.mode() & 0o777 == 0o600,
        Err(_) => false,
    }
}

/// Connects to the port, and talks over the connection.
fn call_on<R: Files + Net>(rt: &R, alloc: Global) -> io::Result<Heard> {
    if !is_made(rt, "peer.sock") {
        return Err(io::Error::from(ErrorKind::NotFound));
    }
    let mut stream = UnixStream::connect(rt, "peer.sock")?;
    talk(alloc, &mut stream)
}

/// Tries again until the port is there and doesn't hang up.
fn call<R: Files + Net + Clock>(rt: &R, alloc: Global) -> Result<Heard, ErrorKind> {
    for _ in 0..5_000u32 {
        match kind_of(call_on(rt, alloc)) {
            Ok(Heard::Nothing) | Err(_) => thread::sleep(rt, Duration::from_millis(1)),
            heard => return heard,
        }
    }
    Err(ErrorKind::TimedOut)
}

#[test]
fn a_port_waits_for_its_peer(rt: HostRuntime) -> Result<(), Fail> {
    let alloc = rt.alloc();
    enter(&rt, rt.process())?;
    // No one listens at this socket any more.
    drop(UnixListener::bind(&rt, "peer.sock")?);
    let (mut output, mut errors) = (Vec::new(alloc), Vec::new(alloc));
    let network = || run(&rt, alloc, ["", LISTENER], PLAIN, &mut output, &mut errors);
    let (heard, told) = thread::join(&rt, || call(&rt, alloc), network);
    assert_eq!(rt; (told?, heard), (TOLD, Ok(Heard::Wanted)));
    assert!(rt; output.as_slice() == REPORT && errors.is_empty());
    assert!(rt; is_missing(&rt, "peer.sock"));
    leave(&rt, rt.process())?;
    Ok(())
}

#[test]
fn another_file_is_no_socket_of_ours(rt: HostRuntime) -> Result<(), Fail> {
    enter(&rt, rt.process())?;
    make(&rt, &[("peer.sock", b"kept")])?;
    let (mut output, mut errors) = (
        Sheet::whole(b""),
        Sheet::front(b"error: port P2: listen peer.sock: "),
    );
    let parts = ["", LISTENER];
    let told = run(&rt, rt.alloc(), parts, PLAIN, &mut output, &mut errors)?;
    assert_eq!(rt; told.result, Err(NetworkFault::Path));
    let is_kept = has(&rt, "peer.sock", b"kept");
    assert_eq!(rt;
        (output.is_right(), errors.is_right(), is_kept),
        (true, true, true)
    );
    leave(&rt, rt.process())?;
    Ok(())
}
