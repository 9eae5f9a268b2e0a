//! A port over a socket whose frames follow lengths of four octets, and its peer.

use super::folder::{enter, leave};
use super::plans::LISTENER;
use super::sheet::Sheet;
use super::{NetworkFault, PLAIN, Told, run};
use std::io::{ErrorKind, Read, Write};
use std::net::{Net, Shutdown};
use std::os::unix::net::UnixStream;
use std::test::Fail;
use std::time::{Clock, Duration};
use std::{io, thread};

/// The frame that the peer sends, after its length.
const SENT: &[u8] = b"\0\0\0\x10\xff\xff\xff\xff\xff\xff\x02\0\0\0\x01\x02\x08\0CD";

/// The frame that the peer receives, after its length.
const WANTED: &[u8; 20] = b"\0\0\0\x10\xff\xff\xff\xff\xff\xff\x02\0\0\0\x01\x01\x08\0AB";

/// The report of a run in which both frames passed.
const REPORT: &[u8] =
    b"ended drained\nport C1 entered 1 left 1 filtered 0\nport P2 entered 1 left 1 filtered 0\nforest yes\n";

/// What is reported of a peer that writes lengths of two octets.
const LONG: &[u8] =
    b"port P2: length above 65,535: does the peer write the octets of length that `framing` says?\n";

/// Connects to the port, once it is there.
fn call<R: Net + Clock>(rt: &R) -> io::Result<UnixStream> {
    for _ in 0..5_000u32 {
        if let Ok(stream) = UnixStream::connect(rt, "peer.sock") {
            return Ok(stream);
        }
        thread::sleep(rt, Duration::from_millis(1));
    }
    Err(io::Error::from(ErrorKind::TimedOut))
}

/// Receives the frame that waits, and sends these octets. Returns whether the frame was right.
fn talk<R: Net + Clock>(rt: &R, sent: &[u8]) -> io::Result<bool> {
    let mut stream = call(rt)?;
    let mut heard = [0u8; 20];
    stream.read_exact(&mut heard)?;
    stream.write_all(sent)?;
    stream.shutdown(Shutdown::Write)?;
    Ok(heard == *WANTED)
}

#[test]
fn frames_follow_lengths_of_four_octets(rt: HostRuntime) -> Result<(), Fail> {
    let alloc = rt.alloc();
    enter(&rt, rt.process())?;
    let (mut output, mut errors) = (Sheet::whole(REPORT), Sheet::whole(b""));
    let parts = [LISTENER, "framing = 4\n"];
    let network = || run(&rt, alloc, parts, PLAIN, &mut output, &mut errors);
    let (is_right, told) = thread::join(
        &rt,
        || talk(&rt, SENT).is_ok_and(|is_right| is_right),
        network,
    );
    let result: Result<u8, NetworkFault> = Ok(0);
    let wanted = Told {
        result,
        traffic: (2, 2),
        closed: 1,
    };
    assert_eq!(rt; (told?, is_right), (wanted, true));
    assert_eq!(rt; (output.is_right(), errors.is_right()), (true, true));
    leave(&rt, rt.process())?;
    Ok(())
}

#[test]
fn a_length_that_is_too_great_is_reported_with_its_key(rt: HostRuntime) -> Result<(), Fail> {
    let alloc = rt.alloc();
    enter(&rt, rt.process())?;
    let (mut output, mut errors) = (Sheet::front(b"ended "), Sheet::front(LONG));
    let parts = [LISTENER, "framing = 4\n"];
    let network = || run(&rt, alloc, parts, PLAIN, &mut output, &mut errors);
    let (is_right, told) = thread::join(
        &rt,
        || talk(&rt, &SENT[2..]).is_ok_and(|is_right| is_right),
        network,
    );
    assert_eq!(rt; (told?.result, is_right), (Ok(3), true));
    assert_eq!(rt; (output.is_right(), errors.is_right()), (true, true));
    leave(&rt, rt.process())?;
    Ok(())
}
