//! Runs of the networks of plan files.
//!
//! Each test is a table of rows, and each row is a run with its result. Each run ends by itself, and has the same
//! result in any schedule.

ghost use Rattle.std.specs.Prelude.{◌≡◌, ◌≢◌, IfOk, IfErr};
ghost use Rattle.std.specs.Io.KnownBytes.{Keeps};
ghost use Rattle.pb_cmd_run.specs.Faults.{ComesOf};
ghost use Rattle.pb_cmd_run.specs.Networks.{HasCarriedAll};
ghost use Rattle.pb_run_losses.specs.declared.strictness.Strictness.TheVariants.{Strict as strict};

mod bindings;
mod both;
mod captures;
mod datagrams;
mod files;
mod folder;
mod framing;
mod generated;
mod lingering;
mod lossless;
mod lost;
mod memory;
mod one_way;
mod openings;
mod over;
mod peers;
mod pipes;
mod plans;
mod reports;
mod sheet;
mod staying;
mod taps;
mod ticks;
mod times;

use self::sheet::Sheet;
use pb_cmd_run::{
    NetworkFault, Opening, RunProgress, RunSettings, Strictness, Traffic, run_network,
};
use pb_lan::Place;
use pb_run::{Gate, Go};
use std::alloc::{AllocError, Global};
use std::fs::{File, Files};
use std::io::Write;
use std::net::{Net, TcpListener, TcpStream};
use std::process::Abort;
use std::sync::atomic::{AtomicU64, Ordering};
use std::sync::{Arc, Wait};
use std::test::Fail;
use std::thread::Threads;
use std::time::Clock;

/// The settings of a test run.
#[derive(Clone, Copy)]
struct Manner {
    /// The path that the run is given for its plan file.
    path: &'static str,
    strictness: Strictness,
    /// The time after the run in which ports write, in milliseconds.
    linger: u32,
}

/// The settings of a run without others. There is no file at the path.
const PLAIN: Manner = Manner {
    path: "plan.toml",
    strictness: Strictness::Lenient,
    linger: 100,
};

/// A gate that lets every worker go on, and counts the calls that say that the run is over and the turns of all
/// workers.
#[derive(Drop)]
struct Door {
    closed: AtomicU64,
    turns: AtomicU64,
}

impl Door {
    /// Returns a gate without counts.
    fn new() -> Door {
        Door {
            closed: AtomicU64::new(0),
            turns: AtomicU64::new(0),
        }
    }

    /// Returns the number of calls that said that the run is over.
    fn closed(&self) -> u64 {
        self.closed.load(Ordering::SeqCst)
    }

    /// Returns the number of turns of all workers.
    fn turns(&self) -> u64 {
        self.turns.load(Ordering::SeqCst)
    }
}

impl Gate for Door {
    fn pass(&self, _place: Place, _turn: u64) -> Go {
        self.turns.fetch_add(1, Ordering::SeqCst);
        Go::Go
    }
}

impl RunProgress for Door {
    fn open(&self, _opening: Opening) {}

    fn close(&self) {
        self.closed.fetch_add(1, Ordering::SeqCst);
    }
}

/// The result of a run, apart from its output.
#[derive(Clone, Copy, PartialEq, Eq, Debug)]
struct Told {
    /// The exit status, or the fault.
    result: Result<u8, NetworkFault>,
    /// The number of frames that entered, and the number that left.
    traffic: (u64, u64),
    /// The number of calls that said that the run is over.
    closed: u64,
}

/// Returns counts without frames.
fn no_traffic(alloc: Global) -> Result<Arc<Traffic, Global>, AllocError> {
    Ok(Arc::new(alloc, Traffic::new(alloc)?)?)
}

/// Runs the network of a plan file. Its contract says that the network has carried all frames if a strict run has the
/// exit status 0. Of the faults `Ports` never comes, each other one has its reason in the file, and only `Write` comes
/// after something was written.
fn carry<R, W: Write, E: Write>(
    rt: &R,
    alloc: Global,
    file: &str,
    manner: Manner,
    door: &Door,
    writer: &mut W,
    errors: &mut E,
) -> Result<Told, AllocError>
where
    R: Files<File = File>
        + Net<Listener = TcpListener, Stream = TcpStream>
        + Threads
        + Wait
        + Clock
        + Sync,
    ensures carried { IfOk result (λ told. manner.strictness ≡ strict →
        IfOk told.result (λ status. status ≡ 0 →
        HasCarriedAll file.now (W.contents writer.old) (W.contents writer.new))) }
    ensures ports { IfOk result (λ told. IfErr told.result (λ e. e ≢ NetworkFault.Ports)) }
    ensures due { IfOk result (λ told. IfErr told.result (ComesOf file.now)) }
    ensures none { IfOk result (λ told. IfErr told.result (λ e. e ≢ NetworkFault.Write →
        Keeps (W.contents writer.old) (W.contents writer.new))) }
{
    let traffic = no_traffic(alloc)?;
    let file = file.as_bytes();
    let settings = RunSettings {
        input: None,
        plan: manner.path,
        control: None,
        settles: false,
        linger: manner.linger,
        allows_network: false,
    };
    let strictness = manner.strictness;
    let result = run_network(
        rt, alloc, file, strictness, &settings, &traffic, door, writer, errors,
    );
    Ok(Told {
        result,
        traffic: (traffic.entered(), traffic.left()),
        closed: door.closed(),
    })
}

/// Returns a plan file of two parts.
fn joined(alloc: Global, parts: [&str; 2]) -> Result<String, AllocError> {
    let mut file = String::from_str(alloc, parts[0])?;
    file.push_str(parts[1])?;
    Ok(file)
}

/// Runs the network of a plan file of two parts.
fn run_past<R, W: Write, E: Write>(
    rt: &R,
    alloc: Global,
    parts: [&str; 2],
    manner: Manner,
    door: &Door,
    writer: &mut W,
    errors: &mut E,
) -> Result<Told, AllocError>
where
    R: Files<File = File>
        + Net<Listener = TcpListener, Stream = TcpStream>
        + Threads
        + Wait
        + Clock
        + Sync,
{
    let file = joined(alloc, parts)?;
    carry(rt, alloc, file.as_str(), manner, door, writer, errors)
}

/// Runs the network of a plan file of two parts, with a gate of its own.
fn run<R, W: Write, E: Write>(
    rt: &R,
    alloc: Global,
    parts: [&str; 2],
    manner: Manner,
    writer: &mut W,
    errors: &mut E,
) -> Result<Told, AllocError>
where
    R: Files<File = File>
        + Net<Listener = TcpListener, Stream = TcpStream>
        + Threads
        + Wait
        + Clock
        + Sync,
{
    let door = Door::new();
    run_past(rt, alloc, parts, manner, &door, writer, errors)
}

/// A plan file, with the result and the report of its network.
#[derive(Clone, Copy)]
struct Row {
    parts: [&'static str; 2],
    told: Told,
    report: &'static str,
}

/// Asserts the result and the report of a row's network, and its remarks on standard error.
fn check_under<R>(
    rt: &R,
    alloc: Global,
    row: &Row,
    strictness: Strictness,
    remarks: &'static str,
) -> Result<(), Fail>
where
    R: Files<File = File>
        + Net<Listener = TcpListener, Stream = TcpStream>
        + Threads
        + Wait
        + Clock
        + Sync
        + Abort,
{
    let manner = Manner {
        strictness,
        ..PLAIN
    };
    let mut output = Sheet::whole(row.report.as_bytes());
    let mut errors = Sheet::whole(remarks.as_bytes());
    let told = run(rt, alloc, row.parts, manner, &mut output, &mut errors)?;
    let came = (told, output.is_right(), errors.is_right());
    assert_eq!(rt; came, (row.told, true, true), "{}", row.report);
    Ok(())
}

/// Asserts the result and the report of a row's network in a lenient run, without remarks.
fn check<R>(rt: &R, alloc: Global, row: &Row) -> Result<(), Fail>
where
    R: Files<File = File>
        + Net<Listener = TcpListener, Stream = TcpStream>
        + Threads
        + Wait
        + Clock
        + Sync
        + Abort,
{
    check_under(rt, alloc, row, Strictness::Lenient, "")
}
