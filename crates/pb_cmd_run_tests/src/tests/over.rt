//! A run between captures in memory, which a test sees before and after.

ghost use Rattle.std.specs.Prelude.{◌≡◌, ◌≢◌, ◌<◌, ◌≤◌, [], None, Some, is_some, IfOk, true};
ghost use Rattle.pb_cmd_run.specs.Carried.{frames_in, octets_of, started};
ghost use Rattle.pb_cmd_run_tests.specs.Moved.{HasMoved};
ghost use Rattle.pb_cmd_run_tests.specs.Stores.{held_in};

use super::plans::{CAPTURES, ONE_FRAME};
use super::sheet::Sheet;
use super::{Door, NetworkFault, RunSettings, Strictness, no_traffic};
use bytes::Bytes;
use pb_cmd_run::{FilePair, Openings, Peer, RunFiles, UdpSocket, run_network_over};
use pb_frame::{Memory, Text};
use pb_port::{CapturePort, Over, Port, Shelf, Timescale};
use pb_service::Pace;
use std::alloc::{AllocError, Global};
use std::collections::VecDeque;
use std::fs::{File, Files};
use std::io;
use std::io::{Cursor, Error, ErrorKind, Read, Write};
use std::net::{Net, SocketAddr, TcpListener, TcpStream};
use std::sync::{Arc, Mutex, Wait};
use std::test::Fail;
use std::thread::Threads;
use std::time::Clock;

/// A capture that is read.
#[derive(Drop)]
struct Entry {
    octets: Cursor<&'static [u8]>,
}

impl Read for Entry {
    ghost remaining = { λ e. ⟦<Cursor<&'static [u8]> as Read>⟧.remaining e.octets };

    fn read(&mut self, buf: &mut [u8]) -> io::Result<usize> {
        self.octets.read(buf)
    }
}

impl Write for Entry {
    fn write(&mut self, _buf: &[u8]) -> io::Result<usize> {
        Err(Error::from(ErrorKind::Unsupported))
    }

    fn flush(&mut self) -> io::Result<()> {
        Ok(())
    }
}

/// The octets of a capture that is written, of which a store has the other handle.
type Shared = Arc<Mutex<Vec<u8>>, Global>;

/// A capture that is opened for writing.
#[derive(Drop)]
struct Slot {
    copy: Shared,
}

/// A capture that is written.
#[derive(Drop)]
struct Exit {
    octets: Vec<u8>,
    copy: Shared,
}

impl Write for Exit {
    ghost contents = { λ e. Some e.octets.items };

    fn write(&mut self, buf: &[u8]) -> io::Result<usize> {
        let Some(mut copy) = self.copy.try_lock() else {
            return Err(Error::from(ErrorKind::WouldBlock));
        };
        copy.extend_from_slice(buf)?;
        self.octets.extend_from_slice(buf)?;
        Ok(buf.len())
    }

    fn flush(&mut self) -> io::Result<()> {
        Ok(())
    }
}

impl Read for Exit {
    fn read(&mut self, _buf: &mut [u8]) -> io::Result<usize> {
        Err(Error::from(ErrorKind::Unsupported))
    }
}

/// A port between two captures in memory.
type StorePort = CapturePort<Over<Entry>, Over<Exit>>;

/// A file that was closed after a run, with the port that wrote it.
#[derive(Drop)]
struct Closed {
    path: Text,
    port: StorePort,
}

/// The path of a file that is written, and its octets.
#[derive(Drop)]
struct Written {
    path: Text,
    copy: Shared,
}

/// Files in memory. Each holds the same capture before a run, and none is read after one was written.
#[derive(Drop)]
struct Store {
    alloc: Global,
    entry: &'static [u8],
    written: Vec<Written>,
    /// The files that were closed, the newest first.
    closed: VecDeque<Closed>,
}

/// Returns the error for all but files.
fn refused() -> Error {
    Error::from(ErrorKind::Unsupported)
}

impl Store {
    /// Returns whether the file at a path that was written has these octets.
    fn has(&self, path: &str, octets: &[u8]) -> bool {
        for written in &self.written {
            if written.path.as_str() == path {
                return match written.copy.try_lock() {
                    Some(copy) => copy.as_slice() == octets,
                    None => false,
                };
            }
        }
        false
    }
}

impl Openings for Store {
    type Input = Entry;

    type Output = Slot;

    type Stream = Peer;

    type Datagrams = UdpSocket;

    ghost holds = { λ store. held_in (λ c. c.path) (λ c. c.port.writer.stream.octets.items) store.entry.now
        store.closed.items };

    ghost unread = { λ e. ⟦<Cursor<&'static [u8]> as Read>⟧.remaining e.octets };

    fn file_at(&self, alloc: Global, path: &str) -> Result<Option<Text>, Memory> {
        Ok(Some(Text::from_string(String::from_str(alloc, path)?)))
    }

    fn open_read(&mut self, _path: &str) -> io::Result<Entry> {
        if !self.closed.is_empty() {
            return Err(refused());
        }
        Ok(Entry {
            octets: Cursor::new(self.entry),
        })
    }

    fn connect(&mut self, _path: &str, _stays: bool) -> io::Result<Peer> {
        Err(refused())
    }

    fn listen(&mut self, _path: &str, _stays: bool) -> io::Result<Peer> {
        Err(refused())
    }

    fn bind(&mut self, _local: SocketAddr) -> io::Result<UdpSocket> {
        Err(refused())
    }

    fn open_write(&mut self, path: &str) -> io::Result<Slot> {
        let copy = Arc::new(self.alloc, Mutex::new(Vec::new(self.alloc)))?;
        let slot = Slot {
            copy: Arc::try_clone(&copy)?,
        };
        let path = Text::from_string(String::from_str(self.alloc, path)?);
        self.written.push(Written { path, copy })?;
        Ok(slot)
    }

    fn empty(&mut self, _output: &Slot, _path: &str) -> io::Result<()> {
        Ok(())
    }

    fn forget(&mut self, _output: Slot, _path: &str) {}
}

impl RunFiles for Store {
    type FilePort = StorePort;

    ghost reports = { true };

    /// Makes ports between two captures alone.
    fn file_port(
        &mut self,
        alloc: Global,
        capacity: u16,
        _number: u8,
        scale: Timescale,
        _pace: Pace,
        files: FilePair<Entry, Slot>,
    ) -> Result<StorePort, AllocError>
        requires { (0 < capacity) × (capacity ≤ 4096) }
        ensures script { IfOk result (λ port. ⟦<StorePort as Port>⟧.script port ≡ None) }
        ensures fresh { IfOk result (λ port. ⟦<StorePort as Port>⟧.waiting port ≡ []) }
        ensures unread { IfOk result (λ port. ⟦<StorePort as Port>⟧.unread port
            ≡ frames_in (octets_of ⟦<Entry as Read>⟧.remaining files.input)) }
        ensures output { IfOk result (λ port. ⟦<StorePort as Port>⟧.output port ≡ started (is_some files.output) true) }
    {
        let FilePair { input, output } = files;
        let (Some(input), Some(slot)) = (input, output) else {
            return Err(AllocError);
        };
        let exit = Exit {
            octets: Vec::new(alloc),
            copy: slot.copy,
        };
        let (reader, writer) = (Over::new(input), Over::new(exit));
        Ok(CapturePort::on_scale(alloc, capacity, scale, reader, writer))
    }

    #[tactic(auto, using(crate::proofs::StoreLemmas::held_there, crate::proofs::StoreLemmas::held_elsewhere))]
    fn close(
        &mut self,
        alloc: Global,
        mut port: StorePort,
        path: &str,
    ) -> Result<VecDeque<Bytes>, AllocError> {
        let mut shelf = Shelf {
            unsent: VecDeque::new(alloc),
            sent: Vec::new(alloc),
        };
        port.shelve(&mut shelf);
        let path = Text::from_string(String::from_str(alloc, path)?);
        self.closed.push_front(Closed { path, port })?;
        Ok(shelf.unsent)
    }
}

/// Runs a network between the captures of a store, and returns the exit status. Its contract says what the run did to
/// the files of the store.
fn carried<R>(
    rt: &R,
    alloc: Global,
    store: &mut Store,
    file: &[u8],
    output: &mut Sheet,
) -> Result<Result<u8, NetworkFault>, AllocError>
where
    R: Files<File = File>
        + Net<Listener = TcpListener, Stream = TcpStream>
        + Threads
        + Wait
        + Clock
        + Sync,
    ensures { IfOk result (λ ran. IfOk ran (λ status. status ≢ 1 → HasMoved (⟦<Store as Openings>⟧.holds store.old)
        (⟦<Store as Openings>⟧.holds store.new) file.now)) }
{
    let traffic = no_traffic(alloc)?;
    let settings = RunSettings {
        input: None,
        plan: "plan.toml",
        control: None,
        settles: false,
        linger: 100,
        allows_network: false,
    };
    let mut errors = Sheet::whole(b"");
    let door = Door::new();
    Ok(run_network_over(
        rt,
        alloc,
        store,
        file,
        Strictness::Strict,
        &settings,
        &traffic,
        &door,
        output,
        &mut errors,
    ))
}

/// The report of a run in which a frame enters at two ports of three.
const REPORT: &[u8] =
    b"ended drained\nport P1 entered 1 left 1 filtered 0\nport P2 entered 1 left 1 filtered 0\n\
    port P3 entered 0 left 2 filtered 0\nforest yes\n";

#[test]
fn the_frames_that_go_in_come_out(rt: HostRuntime) -> Result<(), Fail> {
    let mut store = Store {
        alloc: rt.alloc(),
        entry: ONE_FRAME,
        written: Vec::new(rt.alloc()),
        closed: VecDeque::new(rt.alloc()),
    };
    let mut output = Sheet::whole(REPORT);
    let status = carried(
        &rt,
        rt.alloc(),
        &mut store,
        CAPTURES.as_bytes(),
        &mut output,
    )?;
    assert_eq!(rt; (status, output.is_right()), (Ok(0), true));
    assert!(rt; store.has("p1.out", ONE_FRAME) && store.has("p2.out", ONE_FRAME));
    Ok(())
}
