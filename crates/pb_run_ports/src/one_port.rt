//! Opening one port of a plan.

ghost use Rattle.std.specs.Prelude.{◌≡◌, ◌∷◌, [], Some, IfOk, IfErr, OnOk};
ghost use Rattle.pb_run_ports.specs.Deeds.{Adds};
ghost use Rattle.pb_run_ports.specs.OpenFaults.{IsUnopened, IsUnemptied};
ghost use Rattle.pb_run_ports.specs.declared.deed.Deed.TheVariants.{Bind as binds};
ghost use Rattle.pb_run_ports.specs.Opened.{asked, emptying, entering, octets_at, octets_in, opening, shown};
ghost use Rattle.pb_service.specs.declared.port_spec.LengthField.{LengthField};

use crate::open_fault::{OpenFault, Verb, unemptied, unopened};
use crate::opened::Opened;
use crate::openings::Openings;
use pb_frame::Text;
use pb_service::{Pace, PortSpec, Stamp};
use std::alloc::Global;
use std::net::SocketAddr;

/// Makes the socket of a port, or connects the port to its socket. `stays` says whether the port stays when its peer
/// leaves.
///
/// # Errors
///
/// `Unopened`, or `Memory` if the system is out of memory.
fn open_socket<O: Openings>(
    opener: &mut O,
    place: usize,
    path: Text,
    listens: bool,
    stays: bool,
) -> Result<O::Stream, OpenFault>
    ensures ok { OnOk result ((framing : LengthField) → Adds (O.done opener.old) (O.done opener.new)
        (entering (PortSpec.Socket path listens stays framing))) }
    ensures same { O.holds opener.new ≡ O.holds opener.old }
    ensures err { IfErr result (λ e. IsUnopened e × (O.done opener.new ≡ O.done opener.old)) }
{
    if listens {
        return match opener.listen(path.as_str(), stays) {
            Ok(stream) => Ok(stream),
            Err(error) => Err(unopened(place, Verb::Listen, path, error)),
        };
    }
    match opener.connect(path.as_str(), stays) {
        Ok(stream) => Ok(stream),
        Err(error) => Err(unopened(place, Verb::Connect, path, error)),
    }
}

/// Returns an address in its usual form. It is empty if an allocation for it failed.
fn text_of(alloc: Global, address: SocketAddr) -> Text {
    match format!(in alloc; "{address}") {
        Ok(text) => Text::from_string(text),
        Err(_) => Text::from_string(String::new(alloc)),
    }
}

/// Binds the socket of a port for datagrams.
///
/// # Errors
///
/// `Unopened`, or `Memory` if the system is out of memory.
fn open_datagrams<O: Openings>(
    alloc: Global,
    opener: &mut O,
    place: usize,
    local: SocketAddr,
    remote: SocketAddr,
    network: Option<u32>,
) -> Result<Opened<O::Input, (), O::Stream, O::Datagrams>, OpenFault>
    ensures ok { IfOk result (λ port. Adds (O.done opener.old) (O.done opener.new) (binds local ∷ [])
        × (shown port ≡ asked (PortSpec.Udp local remote network))) }
    ensures octets { IfOk result (λ port. octets_at O.unread port
        ≡ octets_in (O.holds opener.old) (PortSpec.Udp local remote network)) }
    ensures same { O.holds opener.new ≡ O.holds opener.old }
    ensures err { IfErr result (λ e. IsUnopened e × (O.done opener.new ≡ O.done opener.old)) }
{
    match opener.bind(local) {
        Ok(socket) => Ok(Opened::Udp {
            socket,
            remote,
            network,
        }),
        Err(error) => Err(unopened(place, Verb::Bind, text_of(alloc, local), error)),
    }
}

/// Opens the file that a port over two captures reads.
///
/// # Errors
///
/// `Unopened`, or `Memory` if the system is out of memory.
fn open_capture_in<O: Openings>(
    opener: &mut O,
    place: usize,
    read: Text,
    pace: Pace,
    write: Text,
    stamp: Stamp,
) -> Result<Opened<O::Input, (), O::Stream, O::Datagrams>, OpenFault>
    ensures ok { IfOk result (λ port. Adds (O.done opener.old) (O.done opener.new)
        (entering (PortSpec.Capture read pace write stamp))
        × (shown port ≡ asked (PortSpec.Capture read pace write stamp))) }
    ensures octets { IfOk result (λ port. octets_at O.unread port
        ≡ octets_in (O.holds opener.old) (PortSpec.Capture read pace write stamp)) }
    ensures same { O.holds opener.new ≡ O.holds opener.old }
    ensures err { IfErr result (λ e. IsUnopened e × (O.done opener.new ≡ O.done opener.old)) }
{
    match opener.open_read(read.as_str()) {
        Ok(input) => Ok(Opened::Capture {
            input,
            output: (),
            read,
            pace,
            write,
            stamp,
        }),
        Err(error) => Err(unopened(place, Verb::Read, read, error)),
    }
}

/// Opens the file that a port reads, or makes, connects to or binds its socket.
///
/// # Errors
///
/// `Unopened`, or `Memory` if the system is out of memory.
pub(crate) fn open_in<O: Openings>(
    alloc: Global,
    opener: &mut O,
    place: usize,
    spec: PortSpec,
) -> Result<Opened<O::Input, (), O::Stream, O::Datagrams>, OpenFault>
    ensures ok { IfOk result (λ port. Adds (O.done opener.old) (O.done opener.new) (entering spec)
        × (shown port ≡ asked spec)) }
    ensures octets { IfOk result (λ port. octets_at O.unread port ≡ octets_in (O.holds opener.old) spec) }
    ensures same { O.holds opener.new ≡ O.holds opener.old }
    ensures err { IfErr result (λ e. IsUnopened e × (O.done opener.new ≡ O.done opener.old)) }
{
    match spec {
        PortSpec::Memory(frames) => Ok(Opened::Memory(frames)),
        PortSpec::Capture {
            read,
            pace,
            write,
            stamp,
        } => open_capture_in(opener, place, read, pace, write, stamp),
        PortSpec::Record { write, stamp } => Ok(Opened::Record {
            output: (),
            write,
            stamp,
        }),
        PortSpec::Replay { read, pace } => match opener.open_read(read.as_str()) {
            Ok(input) => Ok(Opened::Replay { input, read, pace }),
            Err(error) => Err(unopened(place, Verb::Read, read, error)),
        },
        PortSpec::Socket {
            path,
            listens,
            stays,
            framing,
        } => match open_socket(opener, place, path, listens, stays) {
            Ok(stream) => Ok(Opened::Socket {
                stream,
                stays,
                framing,
            }),
            Err(fault) => Err(fault),
        },
        PortSpec::Udp {
            local,
            remote,
            network,
        } => open_datagrams(alloc, opener, place, local, remote, network),
    }
}

/// Opens the file that a port over two captures writes.
///
/// # Errors
///
/// `Unopened`, or `Memory` if the system is out of memory.
fn open_capture_out<O: Openings>(
    opener: &mut O,
    place: usize,
    input: O::Input,
    read: Text,
    pace: Pace,
    write: Text,
    stamp: Stamp,
) -> Result<Opened<O::Input, O::Output, O::Stream, O::Datagrams>, OpenFault>
    ensures ok { IfOk result (λ port. Adds (O.done opener.old) (O.done opener.new) (opening (Some write))
        × (shown port ≡ asked (PortSpec.Capture read pace write stamp))) }
    ensures octets { IfOk result (λ port. octets_at O.unread port ≡ O.unread input) }
    ensures err { IfErr result (λ e. IsUnopened e × (O.done opener.new ≡ O.done opener.old)) }
{
    match opener.open_write(write.as_str()) {
        Ok(output) => Ok(Opened::Capture {
            input,
            output,
            read,
            pace,
            write,
            stamp,
        }),
        Err(error) => Err(unopened(place, Verb::Write, write, error)),
    }
}

/// Opens the file that a port writes.
///
/// # Errors
///
/// `Unopened`, or `Memory` if the system is out of memory.
pub(crate) fn open_out<O: Openings>(
    opener: &mut O,
    place: usize,
    port: Opened<O::Input, (), O::Stream, O::Datagrams>,
) -> Result<Opened<O::Input, O::Output, O::Stream, O::Datagrams>, OpenFault>
    ensures ok { IfOk result (λ whole. Adds (O.done opener.old) (O.done opener.new) (opening (shown port).write)
        × (shown whole ≡ shown port)) }
    ensures octets { IfOk result (λ whole. octets_at O.unread whole ≡ octets_at O.unread port) }
    ensures err { IfErr result (λ e. IsUnopened e × (O.done opener.new ≡ O.done opener.old)) }
{
    match port {
        Opened::Memory(frames) => Ok(Opened::Memory(frames)),
        Opened::Capture {
            input,
            read,
            pace,
            write,
            stamp,
            ..
        } => open_capture_out(opener, place, input, read, pace, write, stamp),
        Opened::Record { write, stamp, .. } => match opener.open_write(write.as_str()) {
            Ok(output) => Ok(Opened::Record {
                output,
                write,
                stamp,
            }),
            Err(error) => Err(unopened(place, Verb::Write, write, error)),
        },
        Opened::Replay { input, read, pace } => Ok(Opened::Replay { input, read, pace }),
        Opened::Socket {
            stream,
            stays,
            framing,
        } => Ok(Opened::Socket {
            stream,
            stays,
            framing,
        }),
        Opened::Udp {
            socket,
            remote,
            network,
        } => Ok(Opened::Udp {
            socket,
            remote,
            network,
        }),
    }
}

/// Closes the output of a port, and removes its file if the opening made it.
pub(crate) fn forget_out<O: Openings>(
    opener: &mut O,
    port: Opened<O::Input, O::Output, O::Stream, O::Datagrams>,
)
    ensures { O.done opener.new ≡ O.done opener.old }
{
    match port {
        Opened::Capture {
            input,
            output,
            write,
            ..
        } => {
            drop(input);
            opener.forget(output, write.as_str());
        }
        Opened::Record { output, write, .. } => opener.forget(output, write.as_str()),
        Opened::Memory(_frames) => {}
        Opened::Replay {
            input: _input,
            read: _read,
            ..
        } => {}
        Opened::Socket {
            stream: _stream,
            ..
        } => {}
        Opened::Udp {
            socket: _socket,
            ..
        } => {}
    }
}

/// Empties the file that a port writes.
///
/// # Errors
///
/// `Unemptied` if that fails.
pub(crate) fn empty_out<O: Openings>(
    alloc: Global,
    opener: &mut O,
    place: usize,
    port: &Opened<O::Input, O::Output, O::Stream, O::Datagrams>,
) -> Result<(), OpenFault>
    ensures ok { OnOk result (Adds (O.done opener.old) (O.done opener.new) (emptying (shown port.now).write)) }
    ensures err { IfErr result (λ e. IsUnemptied e × (O.done opener.new ≡ O.done opener.old)) }
{
    match port {
        Opened::Capture { output, write, .. } | Opened::Record { output, write, .. } => {
            match opener.empty(output, write.as_str()) {
                Ok(()) => Ok(()),
                Err(error) => Err(unemptied(alloc, place, write, error)),
            }
        }
        _ => Ok(()),
    }
}
