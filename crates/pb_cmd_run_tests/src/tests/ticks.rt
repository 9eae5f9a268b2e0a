//! The ticks in captures, under a gate that says at which turn a port takes each frame.

use super::folder::{enter, has, leave};
use super::no_traffic;
use super::sheet::Sheet;
use pb_cmd_run::{NetworkFault, Opening, RunProgress, RunSettings, Strictness, run_network};
use pb_lan::Place;
use pb_run::{Gate, Go};
use std::alloc::{AllocError, Global};
use std::fs::{File, Files};
use std::net::{Net, TcpListener, TcpStream};
use std::sync::Wait;
use std::sync::atomic::{AtomicU64, Ordering};
use std::test::Fail;
use std::thread;
use std::thread::Threads;
use std::time::Clock;

/// One bridge. C1 gives two broadcasts, and C2 writes a capture. A clock ticks at each third turn of its worker.
const PLAN: &str = r#"
[network]
tick_every = 3

[[bridge]]
name = "B1"
address = "02-00-00-00-00-01"

[[service]]
name = "red"
vid = 100

[[port]]
name = "C1"
bridge = "B1"
port = 1
service = "red"
in = ["ffffffffffff0200000001010800", "ffffffffffff0200000001010806"]

[[port]]
name = "C2"
bridge = "B1"
port = 2
service = "red"
kind = "record"
write = "c2.out"
"#;

/// The turns, from 0, at which the worker of C2 takes the first and the second broadcast.
const FIRST: u64 = 8;

const SECOND: u64 = 29;

/// The capture of C2. After the turns 0 to 8 its clock has ticked three times, and after the turns 0 to 29 ten times.
const WRITTEN: &[u8] = b"\xd4\xc3\xb2\xa1\x02\0\x04\0\0\0\0\0\0\0\0\0\xff\xff\0\0\x01\0\0\0\
    \x03\0\0\0\0\0\0\0\x0e\0\0\0\x0e\0\0\0\xff\xff\xff\xff\xff\xff\x02\0\0\0\x01\x01\x08\0\
    \x0a\0\0\0\0\0\0\0\x0e\0\0\0\x0e\0\0\0\xff\xff\xff\xff\xff\xff\x02\0\0\0\x01\x01\x08\x06";

/// The turns of the bridge after which it has handled a frame that came to it.
const HANDLED: u64 = 64;

/// A gate that holds C1 until C2 comes to the turn of the next broadcast, and C2 until the broadcast has come to it.
#[derive(Drop)]
struct Stage {
    /// The newest turns of the workers of C1 and C2.
    sender: AtomicU64,
    taker: AtomicU64,
    /// The number of turns of the bridge after C1 fed a broadcast.
    handled: AtomicU64,
}

/// Waits until a number is reached. Returns whether it was.
fn comes_to(count: &AtomicU64, wanted: u64) -> bool {
    for _ in 0..100_000_000u32 {
        if count.load(Ordering::SeqCst) >= wanted {
            return true;
        }
        thread::yield_now();
    }
    false
}

impl Stage {
    /// Decides at C1, which polls a broadcast at its turns 0 and 2, and feeds it at the turn after that.
    fn sends(&self, turn: u64) -> bool {
        if turn == 2 || turn == 4 {
            self.handled.store(0, Ordering::SeqCst);
        }
        self.sender.store(turn, Ordering::SeqCst);
        match turn {
            0 => comes_to(&self.taker, FIRST),
            2 => comes_to(&self.taker, SECOND),
            _ => true,
        }
    }

    /// Decides at C2.
    fn takes(&self, turn: u64) -> bool {
        self.taker.store(turn, Ordering::SeqCst);
        let fed = match turn {
            FIRST => 2,
            SECOND => 4,
            _ => return true,
        };
        comes_to(&self.sender, fed) && comes_to(&self.handled, HANDLED)
    }
}

impl Gate for Stage {
    fn pass(&self, place: Place, turn: u64) -> Go {
        let goes_on = match place {
            Place::Customer(1) => self.sends(turn),
            Place::Customer(_) => self.takes(turn),
            _ => {
                self.handled.fetch_add(1, Ordering::SeqCst);
                true
            }
        };
        if goes_on { Go::Go } else { Go::Stop }
    }
}

impl RunProgress for Stage {
    fn open(&self, _opening: Opening) {}

    fn close(&self) {}
}

/// Runs the plan under the gate, and returns the result and whether the report says that the run has drained.
fn came<R>(rt: &R, alloc: Global) -> Result<(Result<u8, NetworkFault>, bool), AllocError>
where
    R: Files<File = File>
        + Net<Listener = TcpListener, Stream = TcpStream>
        + Threads
        + Wait
        + Clock
        + Sync,
{
    let stage = Stage {
        sender: AtomicU64::new(0),
        taker: AtomicU64::new(0),
        handled: AtomicU64::new(0),
    };
    let traffic = no_traffic(alloc)?;
    let settings = RunSettings {
        plan: "plan.toml",
        control: None,
        settles: false,
        linger: 100,
        input: None,
        allows_network: false,
    };
    let (mut output, mut errors) = (Sheet::front(b"ended drained\n"), Sheet::whole(b""));
    let file = PLAN.as_bytes();
    let strictness = Strictness::Strict;
    let result = run_network(
        rt,
        alloc,
        file,
        strictness,
        &settings,
        &traffic,
        &stage,
        &mut output,
        &mut errors,
    );
    Ok((result, output.is_right() && errors.is_right()))
}

/// Shows that the seconds of a record are the ticks of its port's worker when it was written.
#[test]
fn records_tell_the_ticks_of_their_worker(rt: HostRuntime) -> Result<(), Fail> {
    enter(&rt, rt.process())?;
    let (result, is_drained) = came(&rt, rt.alloc())?;
    assert_eq!(rt; (result, is_drained), (Ok(0), true));
    assert!(rt; has(&rt, "c2.out", WRITTEN));
    leave(&rt, rt.process())?;
    Ok(())
}
