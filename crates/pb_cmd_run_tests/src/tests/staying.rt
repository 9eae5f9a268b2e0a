//! A port that stays, and its peers.

use super::folder::{enter, leave};
use super::plans::LISTENER;
use super::sheet::Sheet;
use super::{joined, no_traffic};
use pb_cmd_run::{
    NetworkFault, Opening, PeerChange, RunProgress, RunSettings, Strictness, run_network,
};
use pb_lan::Place;
use pb_run::{Gate, Go};
use std::alloc::{AllocError, Global};
use std::fs::{File, Files};
use std::io::{ErrorKind, Read, Write};
use std::net::{Net, Shutdown, TcpListener, TcpStream};
use std::os::unix::net::UnixStream;
use std::sync::Wait;
use std::sync::atomic::{AtomicU64, Ordering};
use std::test::Fail;
use std::thread::Threads;
use std::time::{Clock, Duration};
use std::{io, thread};

/// The frame that a peer sends, after its length.
const SENT: &[u8] = b"\0\x10\xff\xff\xff\xff\xff\xff\x02\0\0\0\x01\x02\x08\0CD";

/// The frame that waits for the first peer, after its length.
const WANTED: &[u8; 18] = b"\0\x10\xff\xff\xff\xff\xff\xff\x02\0\0\0\x01\x01\x08\0AB";

/// A gate that ends the run once `end` was called. It adds up the counts of the peers.
#[derive(Drop)]
struct Counter {
    over: AtomicU64,
    came: AtomicU64,
    gone: AtomicU64,
    entered: AtomicU64,
    left: AtomicU64,
    dropped: AtomicU64,
}

impl Counter {
    /// Returns a gate of a run that goes on, without peers.
    fn new() -> Counter {
        Counter {
            over: AtomicU64::new(0),
            came: AtomicU64::new(0),
            gone: AtomicU64::new(0),
            entered: AtomicU64::new(0),
            left: AtomicU64::new(0),
            dropped: AtomicU64::new(0),
        }
    }

    /// Ends the run.
    fn end(&self) {
        self.over.store(1, Ordering::SeqCst);
    }

    /// Returns how many peers came and left, and the sums of the frames that entered, left and were dropped.
    fn sums(&self) -> [u64; 5] {
        [
            self.came.load(Ordering::SeqCst),
            self.gone.load(Ordering::SeqCst),
            self.entered.load(Ordering::SeqCst),
            self.left.load(Ordering::SeqCst),
            self.dropped.load(Ordering::SeqCst),
        ]
    }
}

impl Gate for Counter {
    fn pass(&self, _place: Place, _turn: u64) -> Go {
        if self.over.load(Ordering::SeqCst) == 0 {
            Go::Go
        } else {
            Go::Stop
        }
    }
}

impl RunProgress for Counter {
    fn open(&self, _opening: Opening) {}

    fn close(&self) {}

    fn peer(&self, _port: &str, change: PeerChange) {
        match change {
            PeerChange::Connected => {
                self.came.fetch_add(1, Ordering::SeqCst);
            }
            PeerChange::Unaccepted => {}
            PeerChange::Left {
                entered,
                left,
                dropped,
            } => {
                self.gone.fetch_add(1, Ordering::SeqCst);
                self.entered.fetch_add(entered, Ordering::SeqCst);
                self.left.fetch_add(left, Ordering::SeqCst);
                self.dropped.fetch_add(dropped, Ordering::SeqCst);
            }
        }
    }
}

/// A writer that keeps the first octets of what it takes.
#[derive(Drop)]
struct Notes {
    kept: [u8; 64],
    /// The number of octets so far.
    count: usize,
}

impl Notes {
    /// Returns a writer that has taken nothing.
    fn new() -> Notes {
        Notes {
            kept: [0; 64],
            count: 0,
        }
    }

    /// Returns whether nothing came, or the line about the frames of the peers that were in transit when the run ended.
    fn are_of_transit(&self) -> bool {
        let line = &self.kept[..21];
        self.count == 0
            || self.count == 21
                && (line == b"frames in transit: 1\n".as_slice()
                    || line == b"frames in transit: 2\n".as_slice())
    }
}

impl Write for Notes {
    fn write(&mut self, buf: &[u8]) -> io::Result<usize> {
        let at = self.count.min(64);
        let n = buf.len().min(64 - at);
        self.kept[at..at + n].copy_from_slice(&buf[..n]);
        self.count = self.count.saturating_add(buf.len());
        Ok(buf.len())
    }

    fn flush(&mut self) -> io::Result<()> {
        Ok(())
    }
}

/// Connects to the port, once it is there.
fn call<R: Net + Clock>(rt: &R) -> io::Result<UnixStream> {
    for _ in 0..5_000u32 {
        if let Ok(stream) = UnixStream::connect(rt, "peer.sock") {
            return Ok(stream);
        }
        thread::sleep(rt, Duration::from_millis(1));
    }
    Err(io::Error::from(ErrorKind::TimedOut))
}

/// Receives the frame that waits, sends one and half of another, and hangs up. Returns whether the frame was right.
fn hang_up_within_a_frame<R: Net + Clock>(rt: &R) -> io::Result<bool> {
    let mut stream = call(rt)?;
    let mut heard = [0u8; 18];
    stream.read_exact(&mut heard)?;
    stream.write_all(SENT)?;
    stream.write_all(&SENT[..9])?;
    Ok(heard == *WANTED)
}

/// Sends a frame, closes the sending direction, and waits until the port hangs up. Returns whether nothing came.
fn come_back<R: Net + Clock>(rt: &R, alloc: Global) -> io::Result<bool> {
    let mut stream = call(rt)?;
    stream.write_all(SENT)?;
    stream.shutdown(Shutdown::Write)?;
    let mut heard = Vec::new(alloc);
    stream.read_to_end(&mut heard)?;
    Ok(heard.is_empty())
}

/// Visits the port twice, and returns whether the right octets came.
fn visit_twice<R: Net + Clock>(rt: &R, alloc: Global) -> io::Result<bool> {
    Ok(hang_up_within_a_frame(rt)? && come_back(rt, alloc)?)
}

/// Runs the network of a file until the gate ends it, with ports that may write for 100 milliseconds after it.
fn run_until_told<R, W: Write, E: Write>(
    rt: &R,
    alloc: Global,
    file: &str,
    gate: &Counter,
    writer: &mut W,
    errors: &mut E,
) -> Result<Result<u8, NetworkFault>, AllocError>
where
    R: Files<File = File>
        + Net<Listener = TcpListener, Stream = TcpStream>
        + Threads
        + Wait
        + Clock
        + Sync,
{
    let traffic = no_traffic(alloc)?;
    let settings = RunSettings {
        plan: "plan.toml",
        control: None,
        settles: false,
        linger: 100,
        input: None,
        allows_network: false,
    };
    let (file, lenient) = (file.as_bytes(), Strictness::Lenient);
    Ok(run_network(
        rt, alloc, file, lenient, &settings, &traffic, gate, writer, errors,
    ))
}

/// Visits the port twice, and ends the run. Returns whether the right octets came.
fn visit_and_end<R: Net + Clock>(rt: &R, alloc: Global, counter: &Counter) -> bool {
    let heard = visit_twice(rt, alloc);
    counter.end();
    heard.is_ok_and(|is_right| is_right)
}

/// Runs the network of a file while its port is visited twice. Returns whether the right octets came, and the result of
/// the run.
fn run_with_visits<R>(
    rt: &R,
    alloc: Global,
    file: &str,
    counter: &Counter,
    output: &mut Sheet,
    errors: &mut Notes,
) -> (bool, Result<Result<u8, NetworkFault>, AllocError>)
where
    R: Files<File = File>
        + Net<Listener = TcpListener, Stream = TcpStream>
        + Threads
        + Wait
        + Clock
        + Sync,
{
    let network = || run_until_told(rt, alloc, file, counter, output, errors);
    thread::join(rt, || visit_and_end(rt, alloc, counter), network)
}

#[test]
fn a_port_stays_for_the_next_peer(rt: HostRuntime) -> Result<(), Fail> {
    let alloc = rt.alloc();
    enter(&rt, rt.process())?;
    let file = joined(alloc, [LISTENER, "stay = true\n"])?;
    let counter = Counter::new();
    let (mut output, mut errors) = (Sheet::front(b"ended stopped\n"), Notes::new());
    let (is_right, told) = run_with_visits(
        &rt,
        alloc,
        file.as_str(),
        &counter,
        &mut output,
        &mut errors,
    );
    assert_eq!(rt; (told?, is_right), (Ok(0), true));
    // (the run may end while a frame of a peer is on its way to the other port)
    assert_eq!(rt; (output.is_right(), errors.are_of_transit()), (true, true));
    assert_eq!(rt; counter.sums(), [2, 2, 2, 1, 1]);
    leave(&rt, rt.process())?;
    Ok(())
}
