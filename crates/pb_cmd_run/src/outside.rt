//! The files and sockets of the ports of a network.

ghost use Rattle.std.specs.Prelude.{◌≡◌, ◌⊎◌, [], All, length, map, vec_len, IfOk, IfErr};
ghost use Rattle.pb_lan.specs.Plans.{IsSound};
ghost use Rattle.pb_run_ports.specs.Opened.{asked, octets_at, octets_in, shown};
ghost use Rattle.pb_cmd_run.specs.AnyPorts.{of_file};
ghost use Rattle.pb_cmd_run.specs.Carried.{StartOver};
ghost use Rattle.pb_cmd_run.specs.Scripted.{script_at};
ghost use Rattle.pb_cmd_run.specs.Unsent.{waiting_at};

use crate::completing::CaptureFiles;
use crate::customer_ports::{Customer, ports_of};
use crate::file_ports::day_scale;
use crate::network_fault::NetworkFault;
use crate::peer::Peer;
use crate::readers::await_readers;
use crate::run_files::RunFiles;
use crate::settings::RunSettings;
use crate::socket_ports::Attendance;
use crate::taps::{TapPlace, put_taps, taps_of};
use crate::telling::show_open_fault;
use crate::users::Users;
use mio::net::UdpSocket;
use pb_frame::{Memory, Text};
use pb_lan::{Limits, Plan};
use pb_port::Port;
use pb_run::TapPort;
use pb_run_control::{RunProgress, Traffic};
use pb_run_ports::{Opened, open_all};
use pb_service::{PortSpec, TapSpec};
use std::alloc::Global;
use std::io::Write;
use std::net::Net;
use std::sync::Arc;
use std::time::Clock;

/// The ports and taps of a network, the files of those over captures, and the path that each port writes, if it writes
/// one.
pub(crate) struct Outside<F: Port> {
    pub ports: Vec<Customer<F>>,
    pub taps: Vec<TapPort<F>>,
    pub files: Vec<CaptureFiles>,
    pub paths: Vec<Option<Text>>,
}

/// Returns the path of the file that each port writes, if it writes one.
///
/// # Errors
///
/// `Memory` if an allocation failed.
fn paths_of<I, O>(
    alloc: Global,
    opened: &[Opened<I, O, Peer, UdpSocket>],
) -> Result<Vec<Option<Text>>, Memory>
    ensures { IfOk result (λ paths. paths.items ≡ map (λ port. (shown port).write) opened.now) }
{
    let mut paths = Vec::new(alloc);
    for port in opened {
        paths.push(path_of(port)?)?;
    }
    Ok(paths)
}

/// Returns the path of the file that a port writes, if it writes one.
///
/// # Errors
///
/// `Memory` if an allocation failed.
fn path_of<I, O>(opened: &Opened<I, O, Peer, UdpSocket>) -> Result<Option<Text>, Memory>
    ensures { IfOk result (λ path. path ≡ (shown opened.now).write) }
{
    match opened {
        Opened::Capture { write, .. } | Opened::Record { write, .. } => Ok(Some(write.clone()?)),
        _ => Ok(None),
    }
}

/// Opens the files and sockets of ports and taps, as [`open_all`] does. Writes a line to `errors` for a file or socket
/// that can't be opened.
///
/// # Errors
///
/// `Path` if a file or socket can't be opened, a file has two uses or a port may not bind its address, `Memory` if an
/// allocation failed. Sockets that were made are removed then. There are no other errors.
fn open_files<O: RunFiles, E: Write>(
    alloc: Global,
    opener: &mut O,
    settings: &RunSettings<'_>,
    users: Users<'_>,
    specs: Vec<PortSpec>,
    errors: &mut E,
) -> Result<Vec<Opened<O::Input, O::Output, Peer, UdpSocket>>, NetworkFault>
    ensures count { IfOk result (λ opened. vec_len opened ≡ vec_len specs) }
    ensures shown { IfOk result (λ opened. map shown opened.items ≡ map asked specs.items) }
    ensures octets { IfOk result (λ opened. map (octets_at O.unread) opened.items
        ≡ map (octets_in (O.holds opener.old)) specs.items) }
    ensures err { IfErr result (λ e. (e ≡ NetworkFault.Path) ⊎ (e ≡ NetworkFault.Memory)) }
{
    match open_all(alloc, opener, settings.plan, specs, settings.allows_network) {
        Ok(opened) => Ok(opened),
        Err(fault) => {
            opener.remove_sockets();
            show_open_fault(alloc, users, &fault, errors);
            Err(NetworkFault::from(fault))
        }
    }
}

/// The open files and sockets of the ports of a network, and of its taps.
struct OpenParts<I, O> {
    ports: Vec<Opened<I, O, Peer, UdpSocket>>,
    taps: Vec<Opened<I, O, Peer, UdpSocket>>,
    places: Vec<TapPlace>,
}

/// Opens the ports and taps of a plan, of which the users of files are these. Writes a line to `errors` for a file or
/// socket that can't be opened.
///
/// # Errors
///
/// `Path` if a file or socket can't be opened, a file has two uses or a port may not bind its address, `Memory` if an
/// allocation failed. Sockets that were made are removed then. There are no other errors.
fn open_parts<O: RunFiles, E: Write>(
    alloc: Global,
    opener: &mut O,
    settings: &RunSettings<'_>,
    users: Users<'_>,
    specs: Vec<PortSpec>,
    taps: Vec<TapSpec>,
    errors: &mut E,
) -> Result<OpenParts<O::Input, O::Output>, NetworkFault>
    ensures count { IfOk result (λ parts. vec_len parts.ports ≡ vec_len specs) }
    ensures shown { IfOk result (λ parts. map shown parts.ports.items ≡ map asked specs.items) }
    ensures octets { IfOk result (λ parts. map (octets_at O.unread) parts.ports.items
        ≡ map (octets_in (O.holds opener.old)) specs.items) }
    ensures err { IfErr result (λ e. (e ≡ NetworkFault.Path) ⊎ (e ≡ NetworkFault.Memory)) }
{
    let count = specs.len();
    let mut all = specs;
    let mut places = Vec::new(alloc);
    put_taps(&mut all, &mut places, taps)?;
    let mut ports = open_files(alloc, opener, settings, users, all, errors)?;
    match ports.split_off(count) {
        Ok(taps) => Ok(OpenParts {
            ports,
            taps,
            places,
        }),
        Err(_) => {
            opener.remove_sockets();
            Err(NetworkFault::Memory)
        }
    }
}

/// Opens the ports and taps of a plan that was read at the path of the settings, and waits until their pipes have
/// readers or the gate stops the run. The frames of ports are counted in `traffic`. `duty` has their sockets and
/// clocks.
///
/// # Errors
///
/// `Path` if a file or socket can't be opened, a file has two uses or a port may not bind its address, with a line in
/// `errors`. `Memory` if an allocation failed. Sockets that were made are removed then. There are no other errors.
pub(crate) fn open_ports<R: Net + Clock, O: RunFiles, G: RunProgress, E: Write>(
    rt: &R,
    alloc: Global,
    opener: &mut O,
    settings: &RunSettings<'_>,
    plan: &Plan,
    users: Users<'_>,
    specs: Vec<PortSpec>,
    taps: Vec<TapSpec>,
    limits: Limits,
    traffic: &Arc<Traffic, Global>,
    gate: &G,
    duty: &mut Attendance,
    errors: &mut E,
) -> Result<Outside<O::FilePort>, NetworkFault>
    requires sound { IsSound plan.now }
    requires count { vec_len specs ≡ length plan.now.customers }
    ensures count { IfOk result (λ outside. vec_len outside.ports ≡ length plan.now.customers) }
    ensures start { IfOk result (λ outside. StartOver O.reports (O.holds opener.old) specs.items
        (map (λ w. script_at O.FilePort.script w.port) outside.ports.items)
        (map (λ w. of_file O.FilePort.unread w.port) outside.ports.items)
        (map (λ w. of_file O.FilePort.output w.port) outside.ports.items) outside.paths.items) }
    ensures fresh { IfOk result (λ outside. All (λ w. waiting_at O.FilePort.waiting w.port ≡ []) outside.ports.items) }
    ensures err { IfErr result (λ e. (e ≡ NetworkFault.Path) ⊎ (e ≡ NetworkFault.Memory)) }
{
    let parts = open_parts(alloc, opener, settings, users, specs, taps, errors)?;
    let OpenParts {
        ports: opened,
        taps: recorded,
        places,
    } = parts;
    let first = opened.len();
    await_readers(rt, alloc, opener, gate, users, 0, opened.as_slice());
    await_readers(rt, alloc, opener, gate, users, first, recorded.as_slice());
    let day = day_scale(rt, limits.tick_ms);
    let mut files = Vec::new(alloc);
    let paths = paths_of(alloc, opened.as_slice());
    let ports = ports_of(
        rt, alloc, opener, plan, day, opened, traffic, &mut files, duty,
    );
    let taps = taps_of(
        alloc,
        opener,
        first,
        places.as_slice(),
        day,
        recorded,
        &mut files,
    );
    duty.clocks = opener.take_clocks(alloc);
    match (ports, taps, paths) {
        (Ok(ports), Ok(taps), Ok(paths)) => Ok(Outside {
            ports,
            taps,
            files,
            paths,
        }),
        _ => {
            opener.remove_sockets();
            Err(NetworkFault::Memory)
        }
    }
}
