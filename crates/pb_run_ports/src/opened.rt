//! Opening the ports of a plan: first files to read and sockets, then files to write, and no file is emptied before all
//! are open.

ghost use Rattle.std.specs.Prelude.{◌≡◌, true, [], map, IfSome, IfOk, IfErr, OnOk, MatchResult};
ghost use Rattle.std.specs.List.{flat_map};
ghost use Rattle.pb_run_ports.specs.Addresses.{Admits};
ghost use Rattle.pb_run_ports.specs.Deeds.{Adds, HasBegun};
ghost use Rattle.pb_run_ports.specs.OpenFaults.{IsUnopened, IsUnemptied};
ghost use Rattle.pb_run_ports.specs.Opened.{asked, deeds_of, emptied, entering, octets_at, octets_in, shown, written};
ghost use Rattle.pb_run_ports.specs.Opened.{HasStopped, StopsAt, StopsUnadmitted};
ghost use Rattle.pb_run_ports.specs.Uses.{are_apart};

use crate::addresses::check_addresses;
use crate::one_port::{empty_out, forget_out, open_in, open_out};
use crate::open_fault::{OpenFault, SharedFile};
use crate::openings::Openings;
use crate::uses::{Clash, find_clash};
use bytes::Bytes;
use pb_frame::{Memory, Seq, Text};
use pb_service::{LengthField, Pace, PortSpec, Stamp};
use std::alloc::Global;
use std::net::SocketAddr;

/// The open files or the open socket of a port.
#[derive(Drop)]
pub enum Opened<I, O, S, U> {
    /// Nothing is open: a script in memory, with the frames that enter.
    Memory(Seq<Bytes>),
    /// The file that the port reads and the file that it writes.
    Capture {
        /// The file that it reads.
        input: I,
        /// The file that it writes.
        output: O,
        /// The path of the file that it reads.
        read: Text,
        /// The pace at which the frames of that file enter.
        pace: Pace,
        /// The path of the file that it writes.
        write: Text,
        /// The time stamp of the records that it writes.
        stamp: Stamp,
    },
    /// The file that the port writes. It reads none.
    Record {
        /// The file that it writes.
        output: O,
        /// The path of the file that it writes.
        write: Text,
        /// The time stamp of the records that it writes.
        stamp: Stamp,
    },
    /// The file that the port reads. It writes none.
    Replay {
        /// The file that it reads.
        input: I,
        /// The path of the file that it reads.
        read: Text,
        /// The pace at which the frames of that file enter.
        pace: Pace,
    },
    /// The stream of its socket.
    Socket {
        /// The stream.
        stream: S,
        /// Whether the port stays when its peer leaves.
        stays: bool,
        /// The octets of the length before each frame.
        framing: LengthField,
    },
    /// The socket for its datagrams.
    Udp {
        /// The socket.
        socket: U,
        /// The address of its peer.
        remote: SocketAddr,
        /// The VXLAN network of its datagrams, or `None` if each is a frame alone.
        network: Option<u32>,
    },
}

/// Opens the files that the ports read, and makes, connects to or binds their sockets, in the order of the plan.
///
/// # Errors
///
/// `Unopened` at the first that fails, `Memory` if an allocation failed.
fn open_ins<O: Openings>(
    alloc: Global,
    opener: &mut O,
    specs: Vec<PortSpec>,
) -> Result<Vec<Opened<O::Input, (), O::Stream, O::Datagrams>>, OpenFault>
    ensures ok { IfOk result (λ ports. Adds (O.done opener.old) (O.done opener.new) (flat_map entering specs.items)
        × (map shown ports.items ≡ map asked specs.items)) }
    ensures octets { IfOk result (λ ports. map (octets_at O.unread) ports.items
        ≡ map (octets_in (O.holds opener.old)) specs.items) }
    ensures err { IfErr result (λ e. IsUnopened e
        × HasBegun (O.done opener.old) (O.done opener.new) (flat_map entering specs.items)) }
{
    let mut ports = Vec::new(alloc);
    for spec in specs {
        let place = ports.len();
        let port = open_in(alloc, opener, place, spec)?;
        ports.push(port)?;
    }
    Ok(ports)
}

/// Opens the files that the ports write, in the order of the plan. `whole` holds the ports that were opened, also after
/// a fault.
///
/// # Errors
///
/// `Unopened` at the first that fails, `Memory` if an allocation failed.
fn open_outs<O: Openings>(
    opener: &mut O,
    ports: Vec<Opened<O::Input, (), O::Stream, O::Datagrams>>,
    whole: &mut Vec<Opened<O::Input, O::Output, O::Stream, O::Datagrams>>,
) -> Result<(), OpenFault>
    requires { whole.old.items ≡ [] }
    ensures ok { OnOk result (Adds (O.done opener.old) (O.done opener.new) (written (map shown ports.items))
        × (map shown whole.new.items ≡ map shown ports.items)) }
    ensures octets { OnOk result (map (octets_at O.unread) whole.new.items ≡ map (octets_at O.unread) ports.items) }
    ensures err { IfErr result (λ e. IsUnopened e
        × HasBegun (O.done opener.old) (O.done opener.new) (written (map shown ports.items))) }
{
    for port in ports {
        let place = whole.len();
        let port = open_out(opener, place, port)?;
        whole.push(port)?;
    }
    Ok(())
}

/// Closes the outputs of ports, and removes the files that the openings made.
fn forget_outs<O: Openings>(
    opener: &mut O,
    ports: Vec<Opened<O::Input, O::Output, O::Stream, O::Datagrams>>,
)
    ensures { O.done opener.new ≡ O.done opener.old }
{
    for port in ports {
        forget_out(opener, port);
    }
}

/// Opens the files that the ports write. After a fault none of them stays open, and those that were made are removed.
///
/// # Errors
///
/// `Unopened` at the first that fails, `Memory` if an allocation failed.
fn open_all_outs<O: Openings>(
    alloc: Global,
    opener: &mut O,
    ports: Vec<Opened<O::Input, (), O::Stream, O::Datagrams>>,
) -> Result<Vec<Opened<O::Input, O::Output, O::Stream, O::Datagrams>>, OpenFault>
    ensures ok { IfOk result (λ whole. Adds (O.done opener.old) (O.done opener.new) (written (map shown ports.items))
        × (map shown whole.items ≡ map shown ports.items)) }
    ensures octets { IfOk result (λ whole. map (octets_at O.unread) whole.items
        ≡ map (octets_at O.unread) ports.items) }
    ensures err { IfErr result (λ e. IsUnopened e
        × HasBegun (O.done opener.old) (O.done opener.new) (written (map shown ports.items))) }
{
    let mut whole = Vec::new(alloc);
    match open_outs(opener, ports, &mut whole) {
        Ok(()) => Ok(whole),
        Err(fault) => {
            forget_outs(opener, whole);
            Err(fault)
        }
    }
}

/// Empties the files that the ports write, in the order of the plan.
///
/// # Errors
///
/// `Unemptied` at the first that fails.
fn empty_outs<O: Openings>(
    alloc: Global,
    opener: &mut O,
    ports: &[Opened<O::Input, O::Output, O::Stream, O::Datagrams>],
) -> Result<(), OpenFault>
    ensures ok { OnOk result (Adds (O.done opener.old) (O.done opener.new) (emptied (map shown ports.now))) }
    ensures err { IfErr result (λ e. IsUnemptied e
        × HasBegun (O.done opener.old) (O.done opener.new) (emptied (map shown ports.now))) }
{
    for (place, port) in ports.iter().enumerate() {
        empty_out(alloc, opener, place, port)?;
    }
    Ok(())
}

/// Opens all files and sockets of the ports, and then empties the files to write. No file has two uses.
///
/// # Errors
///
/// `Unopened`, `Unemptied` or `Memory`, as [`open_all`].
fn open_apart<O: Openings>(
    alloc: Global,
    opener: &mut O,
    specs: Vec<PortSpec>,
) -> Result<Vec<Opened<O::Input, O::Output, O::Stream, O::Datagrams>>, OpenFault>
    ensures ok { IfOk result (λ ports. Adds (O.done opener.old) (O.done opener.new) (deeds_of specs.items)
        × (map shown ports.items ≡ map asked specs.items)) }
    ensures octets { IfOk result (λ ports. map (octets_at O.unread) ports.items
        ≡ map (octets_in (O.holds opener.old)) specs.items) }
    ensures err { IfErr result (λ e. HasStopped e (O.done opener.old) (O.done opener.new) specs.items) }
{
    let ports = open_ins(alloc, opener, specs)?;
    let ports = open_all_outs(alloc, opener, ports)?;
    empty_outs(alloc, opener, ports.as_slice())?;
    Ok(ports)
}

/// Returns the fault of a file with two uses, one of which is a port that writes it.
fn shared(alloc: Global, specs: &[PortSpec], clash: Clash) -> Result<SharedFile, Memory> {
    let path = match specs.get(clash.place) {
        Some(PortSpec::Capture { write, .. } | PortSpec::Record { write, .. }) => write.clone()?,
        _ => Text::from_string(String::new(alloc)),
    };
    Ok(SharedFile {
        place: clash.place,
        path,
        other: clash.other,
    })
}

/// Opens the ports of a plan by the kinds that its plan file gives, which was read at `plan_path`. `allows_network`
/// says whether ports may bind addresses that are not loopback.
///
/// First every file to read is opened, and every socket is made, connected to or bound, in the order of the plan. Then
/// every file to write is opened: it keeps its contents, and is made if it is missing. When all are open, the files to
/// write are emptied. If the octets of the files are known, those that a port has not read yet are the octets that its
/// file had before.
///
/// # Errors
///
/// `Exposed` at the first port that would bind an address that is not loopback, unless the network is allowed. Nothing
/// was opened then.
///
/// `Shared` if a file would be written by two ports, would be written and read, or is the plan file and would be
/// written. Nothing was opened then.
///
/// `Unopened` if a file or socket can't be opened. No file was emptied, and files that were made for writing are
/// removed.
///
/// `Unemptied` if a file can't be emptied. Those of earlier ports are empty.
///
/// `Memory` if an allocation failed. No file was emptied.
pub fn open_all<O: Openings>(
    alloc: Global,
    opener: &mut O,
    plan_path: &str,
    specs: Vec<PortSpec>,
    allows_network: bool,
) -> Result<Vec<Opened<O::Input, O::Output, O::Stream, O::Datagrams>>, OpenFault>
    ensures ok { IfOk result (λ ports. Adds (O.done opener.old) (O.done opener.new) (deeds_of specs.items)
        × (map shown ports.items ≡ map asked specs.items)) }
    ensures octets { IfOk result (λ ports. map (octets_at O.unread) ports.items
        ≡ map (octets_in (O.holds opener.old)) specs.items) }
    ensures admitted { MatchResult result (λ _. Admits allows_network specs.items)
        (λ e. StopsUnadmitted e allows_network specs.items) }
    ensures apart { OnOk result (IfSome (O.named opener.old) (λ name. are_apart name plan_path.now specs.items
        ≡ true)) }
    ensures err { IfErr result (λ e. StopsAt e (O.named opener.old) plan_path.now (O.done opener.old)
        (O.done opener.new) specs.items) }
{
    check_addresses(specs.as_slice(), allows_network)?;
    match find_clash(alloc, opener, plan_path, specs.as_slice())? {
        None => open_apart(alloc, opener, specs),
        Some(clash) => Err(OpenFault::Shared(shared(alloc, specs.as_slice(), clash)?)),
    }
}
