//! Customer ports over open files and sockets.

ghost use Rattle.std.specs.Prelude.{◌≡◌, ◌<◌, ◌≤◌, [], None, All, length, map, vec_len, is_some, IfOk};
ghost use Rattle.pb_lan.specs.Plans.{IsSound};
ghost use Rattle.pb_run_ports.specs.Opened.{octets_at, shown};
ghost use Rattle.pb_cmd_run.specs.AnyPorts.{of_file};
ghost use Rattle.pb_cmd_run.specs.Carried.{frames_in, octets_of, started};
ghost use Rattle.pb_cmd_run.specs.Scripted.{script_at};
ghost use Rattle.pb_cmd_run.specs.Unsent.{waiting_at};

use crate::any_port::AnyPort;
use crate::completing::CaptureFiles;
use crate::datagram_socket::DatagramSocket;
use crate::file_ports::scale_of;
use crate::peer::Peer;
use crate::run_files::{FilePair, RunFiles};
use crate::socket_ports::{Attendance, datagram_port, socket_port};
use crate::visits::Visits;
use crate::watch::Post;
use crate::watched::Watched;
use bytes::Bytes;
use mio::net::UdpSocket;
use pb_datagram::DatagramPort;
use pb_frame::{Seq, Text};
use pb_lan::Plan;
use pb_port::{MemoryPort, Over, Port, SocketPort, StayingPort, Timescale};
use pb_run_control::Traffic;
use pb_run_ports::Opened;
use pb_service::Pace;
use std::alloc::{AllocError, Global};
use std::collections::VecDeque;
use std::net::Net;
use std::sync::Arc;

/// A port over memory, over files, or over sockets of the system.
pub(crate) type CustomerPort<F> = AnyPort<
    MemoryPort,
    F,
    SocketPort<Over<Peer>>,
    StayingPort<Visits>,
    DatagramPort<DatagramSocket>,
>;

/// The same, with its frames counted.
pub(crate) type Customer<F> = Watched<CustomerPort<F>>;

/// Returns the frames of a script in a queue.
///
/// # Errors
///
/// `AllocError` if an allocation failed.
fn script_of(alloc: Global, frames: Seq<Bytes>) -> Result<VecDeque<Bytes>, AllocError>
    ensures { IfOk result (λ script. script.items ≡ frames) }
{
    let mut script = VecDeque::new(alloc);
    for frame in frames.into_vec() {
        script.push_back(frame)?;
    }
    Ok(script)
}

/// Returns a port at which these frames enter.
///
/// # Errors
///
/// `AllocError` if an allocation failed.
fn memory_port(alloc: Global, capacity: u16, frames: Seq<Bytes>) -> Result<MemoryPort, AllocError>
    requires { (0 < capacity) × (capacity ≤ 4096) }
    ensures script { IfOk result (λ port. port.script.items ≡ frames) }
    ensures fresh { IfOk result (λ port. port.unsent.items ≡ []) }
{
    let script = script_of(alloc, frames)?;
    Ok(MemoryPort::new(alloc, capacity, script))
}

/// The place of a customer port in the plan.
#[derive(Clone, Copy)]
struct Seat {
    /// The index of the port, from 0.
    place: usize,
    /// The number of the port, from 1.
    number: u8,
    /// The number of frames that may wait in it, 1 to 4,096.
    queue: u16,
}

/// Returns the capture files of the port at a place.
fn files_at(place: usize, read: Option<Text>, write: Option<Text>) -> CaptureFiles {
    CaptureFiles { place, read, write }
}

/// Returns the files of a port.
fn pair_of<I, O>(input: Option<I>, output: Option<O>) -> FilePair<I, O>
    ensures { (result.input ≡ input) × (result.output ≡ output) }
{
    FilePair { input, output }
}

/// Returns the port at a place of the plan over the files that it reads and writes, at its pace and with this time
/// stamp. Its paths are appended to `files`.
///
/// # Errors
///
/// `AllocError` if an allocation failed.
fn file_port<O: RunFiles>(
    alloc: Global,
    opener: &mut O,
    seat: Seat,
    scale: Timescale,
    pace: Pace,
    pair: FilePair<O::Input, O::Output>,
    files: &mut Vec<CaptureFiles>,
    paths: CaptureFiles,
) -> Result<CustomerPort<O::FilePort>, AllocError>
    requires { (0 < seat.queue) × (seat.queue ≤ 4096) }
    ensures script { IfOk result (λ port. script_at O.FilePort.script port ≡ None) }
    ensures fresh { IfOk result (λ port. waiting_at O.FilePort.waiting port ≡ []) }
    ensures unread { IfOk result (λ port. of_file O.FilePort.unread port ≡ frames_in (octets_of O.unread pair.input)) }
    ensures output { IfOk result (λ port. of_file O.FilePort.output port
        ≡ started (is_some pair.output) O.reports) }
{
    files.push(paths)?;
    let port = opener.file_port(alloc, seat.queue, seat.number, scale, pace, pair)?;
    Ok(AnyPort::Capture(port))
}

/// Returns the port at a place of the plan over its open files or its open socket. The paths of a port over captures
/// are appended to `files`. The gate attends to the door of a port that stays. Sockets are put under watch at the post.
///
/// # Errors
///
/// `AllocError` if an allocation failed.
fn port_of<O: RunFiles>(
    alloc: Global,
    opener: &mut O,
    seat: Seat,
    day: Timescale,
    opened: Opened<O::Input, O::Output, Peer, UdpSocket>,
    post: Post,
    files: &mut Vec<CaptureFiles>,
    duty: &mut Attendance,
) -> Result<CustomerPort<O::FilePort>, AllocError>
    requires { (0 < seat.queue) × (seat.queue ≤ 4096) }
    ensures script { IfOk result (λ port. script_at O.FilePort.script port ≡ (shown opened).frames) }
    ensures fresh { IfOk result (λ port. waiting_at O.FilePort.waiting port ≡ []) }
    ensures unread { IfOk result (λ port. of_file O.FilePort.unread port ≡ frames_in (octets_at O.unread opened)) }
    ensures output { IfOk result (λ port. of_file O.FilePort.output port
        ≡ started (is_some (shown opened).write) O.reports) }
{
    let (queue, number, doors, drops) = (seat.queue, seat.number, &mut duty.doors, &duty.drops);
    match opened {
        Opened::Memory(frames) => Ok(AnyPort::Memory(memory_port(alloc, queue, frames)?)),
        Opened::Capture {
            input,
            output,
            read,
            pace,
            write,
            stamp,
        } => {
            let (scale, pair) = (scale_of(stamp, day), pair_of(Some(input), Some(output)));
            let paths = files_at(seat.place, Some(read), Some(write));
            file_port(alloc, opener, seat, scale, pace, pair, files, paths)
        }
        Opened::Record {
            output,
            write,
            stamp,
        } => {
            let (scale, pair) = (scale_of(stamp, day), pair_of(None, Some(output)));
            let paths = files_at(seat.place, None, Some(write));
            file_port(alloc, opener, seat, scale, Pace::AtOnce, pair, files, paths)
        }
        Opened::Replay { input, read, pace } => {
            let (scale, pair) = (Timescale::ticks(), pair_of(Some(input), None));
            let paths = files_at(seat.place, Some(read), None);
            file_port(alloc, opener, seat, scale, pace, pair, files, paths)
        }
        Opened::Socket {
            stream,
            stays,
            framing,
        } => socket_port(alloc, queue, number, stream, framing, stays, post, doors),
        Opened::Udp {
            socket,
            remote,
            network,
        } => datagram_port(alloc, queue, number, socket, remote, network, post, drops),
    }
}

/// Checks whether an open port has sockets.
fn has_sockets<I, O>(opened: &Opened<I, O, Peer, UdpSocket>) -> bool {
    matches!(opened, Opened::Socket { .. } | Opened::Udp { .. })
}

/// Returns the number of frames that may wait in the customer port at a place, from 0: 1 to 4096.
fn capacity_of(plan: &Plan, place: usize) -> u16
    requires sound { IsSound plan.now }
    requires place { place < length plan.now.customers }
    ensures { (0 < result) × (result ≤ 4096) }
{
    plan.customers.as_slice()[place].queue
}

/// Returns the number of the customer port at a place, from 0.
fn number_at(place: usize) -> u8 {
    place.min(254) as u8 + 1
}

/// Returns the ports of a plan over their open files and sockets. Their frames are counted in `traffic`. The paths of
/// ports over captures are appended to `files`. The gate attends to the sockets.
///
/// # Errors
///
/// `AllocError` if an allocation failed.
pub(crate) fn ports_of<O: RunFiles>(
    net: &impl Net,
    alloc: Global,
    opener: &mut O,
    plan: &Plan,
    day: Timescale,
    opened: Vec<Opened<O::Input, O::Output, Peer, UdpSocket>>,
    traffic: &Arc<Traffic, Global>,
    files: &mut Vec<CaptureFiles>,
    duty: &mut Attendance,
) -> Result<Vec<Customer<O::FilePort>>, AllocError>
    requires sound { IsSound plan.now }
    requires count { vec_len opened ≡ length plan.now.customers }
    ensures count { IfOk result (λ ports. vec_len ports ≡ length plan.now.customers) }
    ensures scripts { IfOk result (λ ports. map (λ w. script_at O.FilePort.script w.port) ports.items
        ≡ map (λ port. (shown port).frames) opened.items) }
    ensures unread { IfOk result (λ ports. map (λ w. of_file O.FilePort.unread w.port) ports.items
        ≡ map (λ port. frames_in (octets_at O.unread port)) opened.items) }
    ensures outputs { IfOk result (λ ports. map (λ w. of_file O.FilePort.output w.port) ports.items
        ≡ map (λ port. started (is_some (shown port).write) O.reports) opened.items) }
    ensures fresh { IfOk result (λ ports. All (λ w. waiting_at O.FilePort.waiting w.port ≡ []) ports.items) }
{
    let mut ports = Vec::new(alloc);
    for port in opened {
        let place = ports.len();
        let queue = capacity_of(plan, place);
        let post = duty.watches.add(net, alloc, has_sockets(&port))?;
        let number = number_at(place);
        let seat = Seat {
            place,
            number,
            queue,
        };
        let port = port_of(alloc, opener, seat, day, port, post, files, duty)?;
        let traffic = Arc::try_clone(traffic)?;
        ports.push(Watched {
            port,
            number,
            traffic,
            latest: 0,
        })?;
    }
    Ok(ports)
}
