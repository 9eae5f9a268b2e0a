//! Runs of the networks of plan files.

ghost use Rattle.std.specs.Prelude.{◌≡◌, ◌≢◌, ◌⊎◌, length, map, vec_len, All, List, [], ℕ, IfOk, IfErr, OnOk};
ghost use Rattle.std.specs.Io.KnownBytes.{Appends, Keeps};
ghost use Rattle.pb_lan.specs.Plans.{IsSound};
ghost use Rattle.pb_service.specs.PlanFiles.{Tells, IsPlanOf, RefusesFile};
ghost use Rattle.pb_service.specs.declared.port_spec.PortSpec.{PortSpec};
ghost use Rattle.pb_report.specs.Refusals.{refusal_line};
ghost use Rattle.pb_cmd_run.specs.AnyPorts.{of_file};
ghost use Rattle.pb_cmd_run.specs.Carried.{FileOctets, StartOver};
ghost use Rattle.pb_cmd_run.specs.Faults.{ComesOf};
ghost use Rattle.pb_cmd_run.specs.Networks.{PrintsRan, PrintsNetwork, PrintsNetworkOver};
ghost use Rattle.pb_cmd_run.specs.Scripted.{script_at};
ghost use Rattle.pb_cmd_run.specs.Unsent.{waiting_at};

use crate::attended::Attended;
use crate::completing::complete_all;
use crate::datagram_drops::DatagramDrops;
use crate::linger::Lingering;
use crate::network_fault::NetworkFault;
use crate::outcome::tell_run;
use crate::outside::{Outside, open_ports};
use crate::plug::plug;
use crate::run_files::RunFiles;
use crate::settings::RunSettings;
use crate::socket_ports::Attendance;
use crate::stalls::show_stalls;
use crate::system::System;
use crate::taps::link_names;
use crate::users::Users;
use pb_lan::{Limits, Plan, Spanning};
use pb_messages::write_whole;
use pb_report::write_refusal;
use pb_run::run_tapped;
use pb_run_control::{RunProgress, Steering, Traffic};
use pb_run_losses::Strictness;
use pb_service::{PlanFault, PlanFile, PortSpec, TapSpec, read_plan_file};
use std::alloc::Global;
use std::fs::{File, Files};
use std::io::Write;
use std::net::{Net, TcpListener, TcpStream};
use std::sync::{Arc, Mutex, Wait};
use std::thread::Threads;
use std::time::Clock;

/// The exit status for a refused plan file.
const REFUSED: u8 = 1;

/// Writes the rule that a plan file breaks, and returns the exit status.
///
/// # Errors
///
/// `Write` if the write failed. `Memory` if an allocation failed, and then nothing was written. There are no other
/// errors.
fn refuse<W: Write>(alloc: Global, fault: &PlanFault, writer: &mut W) -> Result<u8, NetworkFault>
    ensures status { IfOk result (λ status. status ≡ 1) }
    ensures text { OnOk result (Appends (W.contents writer.old) (W.contents writer.new) (refusal_line fault.now)) }
    ensures kinds { IfErr result (λ e. (e ≡ NetworkFault.Write) ⊎ (e ≡ NetworkFault.Memory)) }
    ensures none { IfErr result (λ e. e ≢ NetworkFault.Write → Keeps (W.contents writer.old) (W.contents writer.new)) }
{
    write_refusal(alloc, fault, writer)?;
    Ok(REFUSED)
}

/// Writes a text to `errors`, unless it is empty. A failed write is ignored.
pub(crate) fn show<E: Write>(text: &str, errors: &mut E) {
    if !text.is_empty() {
        let _ = write_whole(errors, text.as_bytes());
    }
}

/// Returns whether frames wait until the bridges have converged: the settings ask for it, and the spanning tree decides
/// the states of ports by clocks that tick.
fn waits_for(settings: &RunSettings<'_>, plan: &Plan, limits: Limits) -> bool {
    let has_clock = limits.tick_every > 0 || limits.tick_ms > 0;
    settings.settles && has_clock && plan.spanning == Spanning::Rstp
}

/// Writes a line to `errors` with the number of events that had not come when the run ended, if there are any.
fn show_left<E: Write>(alloc: Global, left: u64, errors: &mut E) {
    if left == 0 {
        return;
    }
    let text = if left == 1 {
        String::from_str(alloc, "warning: 1 event did not take place\n")
    } else {
        format!(in alloc; "warning: {left} events did not take place\n")
    };
    if let Ok(text) = text {
        show(text.as_str(), errors);
    }
}

/// Runs a plan with its ports, some of which have these capture files, and reports on the run as [`run_network`] does.
///
/// # Errors
///
/// `Memory` if an allocation failed: for the workers, and then nothing has run, or for the report after the run.
/// `Spawn` if a thread can't be started, and then nothing has run. `Write` if the report can't be written. After any
/// fault but `Write` nothing was written to `writer`. `Ports` does not occur, because there are as many ports as
/// customer ports.
fn run_ports<R, O: RunFiles, G: RunProgress, W: Write, E: Write>(
    rt: &R,
    alloc: Global,
    opener: &mut O,
    plan: &Plan,
    users: Users<'_>,
    outside: Outside<O::FilePort>,
    drops: &DatagramDrops,
    limits: Limits,
    is_lossless: bool,
    strictness: Strictness,
    lingering: Lingering<'_>,
    gate: &G,
    writer: &mut W,
    errors: &mut E,
) -> Result<u8, NetworkFault>
where
    R: Threads + Wait + Clock + Sync,
    requires sound { IsSound plan.now }
    requires count { vec_len outside.ports ≡ length plan.now.customers }
    requires paths { length outside.paths.items ≡ length plan.now.customers }
    requires fresh { All (λ w. waiting_at O.FilePort.waiting w.port ≡ []) outside.ports.items }
    ensures ok { IfOk result (λ status. (specs : List PortSpec) (was : FileOctets) → StartOver O.reports was specs
        (map (λ w. script_at O.FilePort.script w.port) outside.ports.items)
        (map (λ w. of_file O.FilePort.unread w.port) outside.ports.items)
        (map (λ w. of_file O.FilePort.output w.port) outside.ports.items) outside.paths.items
        → PrintsRan O.reports was (O.holds opener.new) strictness plan.now specs is_lossless status
        (W.contents writer.old) (W.contents writer.new)) }
    ensures err { IfErr result (λ e. e ≡ NetworkFault.Ports → ⊥) }
    ensures none { IfErr result (λ e. e ≢ NetworkFault.Write → Keeps (W.contents writer.old) (W.contents writer.new)) }
{
    let Outside {
        ports,
        taps,
        files,
        paths,
    } = outside;
    match run_tapped(rt, alloc, plan, ports, taps, gate, limits, is_lossless) {
        Ok(run) => {
            tell_run(
                rt,
                alloc,
                opener,
                strictness,
                plan,
                users,
                files.as_slice(),
                paths.as_slice(),
                drops,
                run,
                lingering,
                gate,
                writer,
                errors,
            )
        }
        Err(fault) => {
            gate.close();
            let _ = complete_all(alloc, opener, users, files.as_slice(), errors);
            Err(NetworkFault::from(fault.cause))
        }
    }
}

/// Returns the gate of a run that attends to its ports too.
fn attended<'a, R, G>(
    rt: &'a R,
    gate: &'a G,
    plan: &'a Plan,
    duty: Attendance,
) -> Attended<'a, R, G> {
    Attended {
        rt,
        gate,
        customers: plan.customers.as_slice(),
        doors: Mutex::new(duty.doors),
        watches: duty.watches,
        clocks: duty.clocks,
        drops: duty.drops,
    }
}

/// Opens the ports of a plan and runs it, as [`run_network`] does.
///
/// # Errors
///
/// The faults of [`run_ports`], and `Path` if a port can't be opened.
fn run_opened<R, O: RunFiles, G: RunProgress, W: Write, E: Write>(
    rt: &R,
    alloc: Global,
    opener: &mut O,
    plan: &Plan,
    specs: Vec<PortSpec>,
    taps: Vec<TapSpec>,
    limits: Limits,
    is_lossless: bool,
    strictness: Strictness,
    settings: &RunSettings<'_>,
    traffic: &Arc<Traffic, Global>,
    gate: &G,
    writer: &mut W,
    errors: &mut E,
) -> Result<u8, NetworkFault>
where
    R: Net<Listener = TcpListener, Stream = TcpStream> + Threads + Wait + Clock + Sync,
    requires sound { IsSound plan.now }
    requires count { vec_len specs ≡ length plan.now.customers }
    ensures ok { IfOk result (λ status. PrintsRan O.reports (O.holds opener.old) (O.holds opener.new) strictness
        plan.now specs.items is_lossless status (W.contents writer.old) (W.contents writer.new)) }
    ensures err { IfErr result (λ e. e ≡ NetworkFault.Ports → ⊥) }
    ensures none { IfErr result (λ e. e ≢ NetworkFault.Write → Keeps (W.contents writer.old) (W.contents writer.new)) }
{
    let lingering = Lingering {
        millis: settings.linger,
        traffic,
    };
    let mut duty = Attendance::new(alloc, plan.customers.len())?;
    let drops = Arc::try_clone(&duty.drops)?;
    let names = link_names(alloc, plan, taps.as_slice())?;
    let users = Users {
        customers: plan.customers.as_slice(),
        taps: names.as_slice(),
    };
    let outside = open_ports(
        rt, alloc, opener, settings, plan, users, specs, taps, limits, traffic, gate, &mut duty,
        errors,
    )?;
    let gate = attended(rt, gate, plan, duty);
    let ran = run_ports(
        rt,
        alloc,
        opener,
        plan,
        users,
        outside,
        &drops,
        limits,
        is_lossless,
        strictness,
        lingering,
        &gate,
        writer,
        errors,
    );
    opener.remove_sockets();
    ran
}

/// Runs the network of a plan file and reports on the run as [`write_report`] does. Returns the exit status. If the
/// file is no plan, it writes the rule that the file breaks, as `check` does, and returns 1.
///
/// Each bridge, each direction of a link and each customer port has a thread of its own. Ports lead to the files and
/// sockets that the file names. If the file wants a lossless run, no bridge refuses a copy of a frame because a queue
/// is full, and `errors` has a line for each service whose links form a loop at the start, since frames can wait for
/// each other there. The run keeps the limits of the file, and each worker passes the gate before each of its turns.
/// `traffic` counts the frames that enter and leave, the copies that are not queued and the ticks during the run.
///
/// Ports between bridges are disabled and enabled by the file's events, each when the clock of its bridge has ticked so
/// often. `errors` reports how many events had not come when the run ended. A client of the control socket, if the
/// settings ask for one, enables and disables ports too, reads the counts, and stops the run. If the settings ask for
/// it, and the spanning tree decides the states of ports by clocks that tick, no frame enters before the bridges seem
/// to have converged or have ticked 200 times. The gate receives which of the two it was.
///
/// Meanwhile the file's taps capture what crosses links, S-tags and BPDUs included. The run begins once each named pipe
/// that a port or tap writes has a reader. The gate is asked meanwhile, as for a turn of the first bridge, and may stop
/// the run.
///
/// After a run that has drained, files and pipes are written until they have taken every frame or the gate stops the
/// run. Then ports and taps have time to write what remains, as the settings say. An output file to
/// which nothing was written becomes a capture without records, or `errors` reports why it can't. Sockets that ports
/// made are removed. `errors` names the inputs that are pcapng. After the report it has the losses ([`lost_of`]), what
/// ports for datagrams dropped, the other dropped frames ([`dropped_of`]), the frames in transit ([`transit_of`]) and
/// those that taps did not write. A strict run that had losses, did not end drained, or could not write a file of a
/// port has the status 4 in place of 0. A run with a port for datagrams never ends drained, since frames may always
/// come.
///
/// # Errors
///
/// `Path` if the control socket can't be made, a file can't be opened, made or emptied, a socket can't be made,
/// connected to or bound, a file has two uses, or a port would bind an address that is not loopback and the settings do
/// not allow it. `errors` names it. The control socket is made first. Then files and sockets
/// are opened as [`open_all`] says, and no file is emptied before all are open.
///
/// `Memory` if an allocation failed for the plan, the ports, the workers or the written text. `Spawn` if a thread can't
/// be started. `Write` if a write to `writer` failed, and then it is not known how much was written.
///
/// Nothing has run after `Path` and `Spawn`, and they occur only if the file is a plan. After any fault but `Write`
/// nothing was written to `writer`. `Ports` does not occur, because a plan file has as many ports as its plan.
pub fn run_network<R, G: RunProgress, W: Write, E: Write>(
    rt: &R,
    alloc: Global,
    file: &[u8],
    strictness: Strictness,
    settings: &RunSettings<'_>,
    traffic: &Arc<Traffic, Global>,
    gate: &G,
    writer: &mut W,
    errors: &mut E,
) -> Result<u8, NetworkFault>
where
    R: Files<File = File> + Net<Listener = TcpListener, Stream = TcpStream>,
    R: Threads + Wait + Clock + Sync,
    ensures ok { IfOk result (λ status. PrintsNetwork strictness file.now status (W.contents writer.old)
        (W.contents writer.new)) }
    ensures err { IfErr result (λ e. e ≡ NetworkFault.Ports → ⊥) }
    ensures due { IfErr result (ComesOf file.now) }
    ensures none { IfErr result (λ e. e ≢ NetworkFault.Write → Keeps (W.contents writer.old) (W.contents writer.new)) }
{
    let mut system = System::new(rt, alloc, &settings.input);
    run_network_over(
        rt,
        alloc,
        &mut system,
        file,
        strictness,
        settings,
        traffic,
        gate,
        writer,
        errors,
    )
}

/// Runs the network of a plan file as [`run_network`] does, with the files and sockets of an opener.
///
/// If the octets of the files that ports read are known, the frames in them begin with those that entered there, and
/// are these after the end or a fault of the octets. If the ports of the opener report the octets that they write, the
/// frames in the file of each port that writes one are those that left there, but for those that wait at the end. The
/// file is that at the path after the run, unless a later port of the plan writes it too.
///
/// # Errors
///
/// Those of [`run_network`].
pub fn run_network_over<R, O: RunFiles, G: RunProgress, W: Write, E: Write>(
    rt: &R,
    alloc: Global,
    opener: &mut O,
    file: &[u8],
    strictness: Strictness,
    settings: &RunSettings<'_>,
    traffic: &Arc<Traffic, Global>,
    gate: &G,
    writer: &mut W,
    errors: &mut E,
) -> Result<u8, NetworkFault>
where
    R: Files<File = File> + Net<Listener = TcpListener, Stream = TcpStream>,
    R: Threads + Wait + Clock + Sync,
    ensures ok { IfOk result (λ status. PrintsNetworkOver O.reports (O.holds opener.old) (O.holds opener.new) strictness
        file.now status (W.contents writer.old) (W.contents writer.new)) }
    ensures err { IfErr result (λ e. e ≡ NetworkFault.Ports → ⊥) }
    ensures due { IfErr result (ComesOf file.now) }
    ensures none { IfErr result (λ e. e ≢ NetworkFault.Write → Keeps (W.contents writer.old) (W.contents writer.new)) }
{
    match read_plan_file(alloc, file) {
        Ok(
            PlanFile {
                plan,
                ports,
                limits,
                is_lossless,
                events,
                taps,
            },
        ) => {
            if is_lossless {
                show_stalls(alloc, &plan, errors);
            }
            let waits = waits_for(settings, &plan, limits);
            let steering = Steering::new(alloc, gate, &plan, traffic, events, waits)?;
            steering.expect_peers(ports.as_slice());
            plug(rt, alloc, settings.control, &steering, errors)?;
            let ran = run_opened(
                rt,
                alloc,
                opener,
                &plan,
                ports,
                taps,
                limits,
                is_lossless,
                strictness,
                settings,
                traffic,
                &steering,
                writer,
                errors,
            );
            steering.unplug(rt);
            show_left(alloc, steering.left(), errors);
            ran
        }
        Err(fault) => refuse(alloc, &fault, writer),
    }
}
