//! What a run that has ended prints.

ghost use Rattle.std.specs.Prelude.{◌≡◌, ◌≢◌, ◌⊎◌, ◌&&◌, List, length, map, string_bytes, IfOk, IfErr};
ghost use Rattle.std.specs.Io.KnownBytes.{Keeps};
ghost use Rattle.pb_lan.specs.Plans.{IsSound};
ghost use Rattle.pb_relay.specs.Settled.{TellsSettled};
ghost use Rattle.pb_cmd_run.specs.Carried.{HaveClosed};
ghost use Rattle.pb_cmd_run.specs.Networks.{PrintsReport};
ghost use Rattle.pb_cmd_run.specs.Unsent.{AreUnsent};
ghost use Rattle.pb_run_losses.specs.Strict.{lost_text};
ghost use Rattle.pb_workers.specs.Ports.{Frames, port_frames};
ghost use Rattle.pb_run_losses.specs.declared.strictness.Strictness.TheVariants.{Strict as strict};

use crate::completing::{CaptureFiles, complete_all};
use crate::customer_ports::Customer;
use crate::datagram_drops::DatagramDrops;
use crate::datagram_report::show_datagram_drops;
use crate::linger::{Lingering, lingered};
use crate::network::show;
use crate::network_fault::NetworkFault;
use crate::pcapng::show_pcapng;
use crate::port_faults::show_port_faults;
use crate::readers::read_out;
use crate::report::write_report;
use crate::rest::{Rest, close_all};
use crate::run_files::RunFiles;
use crate::taps::show_unwritten;
use crate::users::Users;
use pb_frame::{Memory, Text};
use pb_history::Tallies;
use pb_lan::Plan;
use pb_port::Port;
use pb_run::{Ran, TappedRun};
use pb_run_control::RunProgress;
use pb_run_losses::{Strictness, dropped_of, exit_status, is_whole, lost_of, transit_of};
use std::alloc::Global;
use std::io::Write;
use std::time::Clock;

/// Returns the loss report of a run. If an allocation for it fails, it is empty for a lenient run.
///
/// # Errors
///
/// `Memory` if an allocation failed in a strict run.
fn lost_under(
    alloc: Global,
    strictness: Strictness,
    plan: &Plan,
    ports: &[Rest],
    counts: &Tallies,
    settled: &Result<Option<bool>, Memory>,
) -> Result<String, NetworkFault>
    requires sound { IsSound plan.now }
    requires ports { length ports.now ≡ length plan.now.customers }
    requires lists { length counts.now.customers ≡ length plan.now.customers }
    ensures err { IfErr result (λ e. e ≡ NetworkFault.Memory) }
    ensures ok { IfOk result (λ text. strictness ≡ strict →
        string_bytes text ≡ lost_text plan.now counts.now settled.now (map (λ rest. rest.unsent.items) ports.now)) }
{
    match lost_of(alloc, plan, ports, counts, settled) {
        Ok(lost) => Ok(lost),
        Err(_) if strictness == Strictness::Lenient => Ok(String::new(alloc)),
        Err(_) => Err(NetworkFault::Memory),
    }
}

/// Writes the counts of dropped frames that are no losses to `errors`, and that of frames in transit. They are left out
/// if an allocation fails.
fn show_drops<E: Write>(alloc: Global, plan: &Plan, counts: &Tallies, errors: &mut E)
    requires { IsSound plan.now }
{
    if let Ok(text) = dropped_of(alloc, plan, counts) {
        show(text.as_str(), errors);
    }
    if let Ok(text) = transit_of(alloc, counts) {
        show(text.as_str(), errors);
    }
}

/// Returns whether a run was whole, and the files of its ports are.
fn is_intact(is_whole: bool, are_files_whole: bool) -> bool
    ensures { result ≡ (is_whole && are_files_whole) }
{
    is_whole && are_files_whole
}

/// Writes the report of a run, its losses and what ports for datagrams dropped, and returns the exit status. The ports
/// over captures have these files, and `are_files_whole` says whether all writes to them succeeded.
///
/// # Errors
///
/// `Write` if the report can't be written. `Memory` if an allocation failed for the report, or for the losses of a
/// strict run, and then nothing of the report was written. There are no other errors.
fn tell<W: Write, E: Write>(
    alloc: Global,
    strictness: Strictness,
    plan: &Plan,
    files: &[CaptureFiles],
    are_files_whole: bool,
    drops: &DatagramDrops,
    ran: &Ran<Rest>,
    writer: &mut W,
    errors: &mut E,
) -> Result<u8, NetworkFault>
    requires sound { IsSound plan.now }
    requires settled { IfOk ran.now.settled (TellsSettled plan.now ran.now.counts) }
    requires lasts { length ran.now.last.items ≡ length plan.now.customers }
    requires ports { (length ran.now.ports.items ≡ length plan.now.customers)
        × (length ran.now.counts.customers ≡ length plan.now.customers) }
    requires unsent { AreUnsent (map (λ rest. rest.unsent.items) ran.now.ports.items) ran.now.counts.customers }
    ensures ok { IfOk result (λ status. PrintsReport strictness plan.now ran.now.counts ran.now.ended ran.now.settled
        ran.now.last.items (map (λ rest. rest.unsent.items) ran.now.ports.items) status
        (W.contents writer.old) (W.contents writer.new)) }
    ensures kinds { IfErr result (λ e. (e ≡ NetworkFault.Write) ⊎ (e ≡ NetworkFault.Memory)) }
    ensures none { IfErr result (λ e. e ≢ NetworkFault.Write → Keeps (W.contents writer.old) (W.contents writer.new)) }
{
    let ports = ran.ports.as_slice();
    let lost = lost_under(alloc, strictness, plan, ports, &ran.counts, &ran.settled)?;
    let told = write_report(alloc, plan, ran, writer)?;
    show_port_faults(alloc, plan, files, ran.last.as_slice(), errors);
    show(lost.as_str(), errors);
    show_datagram_drops(alloc, plan.customers.as_slice(), drops, errors);
    show_drops(alloc, plan, &ran.counts, errors);
    let is_whole = is_whole(ran.ended, lost.as_str());
    let is_intact = is_intact(is_whole, are_files_whole);
    Ok(exit_status(strictness, is_intact, told))
}

/// The result of a run whose ports are closed.
#[derive(Drop)]
struct Closed<T> {
    tapped: TappedRun<Rest, T>,
    /// Whether all writes of ports succeeded.
    are_files_whole: bool,
}

/// Waits for the readers of a run that has drained, and closes the gate. Gives ports and taps time to write, completes
/// their files, and closes the ports. All other results of the run stay as they are.
///
/// # Errors
///
/// `Memory` if an allocation failed.
fn close_run<R: Clock, O: RunFiles, G: RunProgress, E: Write>(
    rt: &R,
    alloc: Global,
    opener: &mut O,
    users: Users<'_>,
    files: &[CaptureFiles],
    paths: &[Option<Text>],
    run: TappedRun<Customer<O::FilePort>, O::FilePort>,
    lingering: Lingering<'_>,
    gate: &G,
    errors: &mut E,
) -> Result<Closed<O::FilePort>, NetworkFault>
    requires { length paths.now ≡ length run.ran.ports.items }
    ensures counts { IfOk result (λ closed. closed.tapped.ran.counts ≡ run.ran.counts) }
    ensures last { IfOk result (λ closed. closed.tapped.ran.last ≡ run.ran.last) }
    ensures ended { IfOk result (λ closed. closed.tapped.ran.ended ≡ run.ran.ended) }
    ensures settled { IfOk result (λ closed. closed.tapped.ran.settled ≡ run.ran.settled) }
    ensures ports { IfOk result (λ closed. length closed.tapped.ran.ports.items ≡ length run.ran.ports.items) }
    ensures files { IfOk result (λ closed. HaveClosed
        (map (port_frames ⟦<Customer<O::FilePort> as Port>⟧) run.ran.ports.items)
        (map (λ rest. rest.unsent.items) closed.tapped.ran.ports.items) (O.holds opener.new) paths.now) }
    ensures err { IfErr result (λ e. e ≡ NetworkFault.Memory) }
{
    let run = read_out(rt, gate, files, run, lingering.traffic);
    gate.close();
    let TappedRun { ran, taps } = lingered(rt, run, lingering);
    let are_files_whole = complete_all(alloc, opener, users, files, errors);
    show_pcapng(
        alloc,
        opener,
        users.customers,
        files,
        ran.last.as_slice(),
        errors,
    );
    let Ran {
        counts,
        ports,
        last,
        ended,
        settled,
    } = ran;
    let ports = close_all(alloc, opener, ports, paths)?;
    let ran = Ran {
        counts,
        ports,
        last,
        ended,
        settled,
    };
    let tapped = TappedRun { ran, taps };
    Ok(Closed {
        tapped,
        are_files_whole,
    })
}

/// Waits for the readers of a run that has drained, and closes the gate. Gives ports and taps time to write, completes
/// their files, closes the ports, and writes the report and the losses, with those of taps. Returns the exit status.
///
/// # Errors
///
/// Those of [`tell`].
pub(crate) fn tell_run<R: Clock, O: RunFiles, G: RunProgress, W: Write, E: Write>(
    rt: &R,
    alloc: Global,
    opener: &mut O,
    strictness: Strictness,
    plan: &Plan,
    users: Users<'_>,
    files: &[CaptureFiles],
    paths: &[Option<Text>],
    drops: &DatagramDrops,
    run: TappedRun<Customer<O::FilePort>, O::FilePort>,
    lingering: Lingering<'_>,
    gate: &G,
    writer: &mut W,
    errors: &mut E,
) -> Result<u8, NetworkFault>
    requires sound { IsSound plan.now }
    requires settled { IfOk run.ran.settled (TellsSettled plan.now run.ran.counts) }
    requires lasts { length run.ran.last.items ≡ length plan.now.customers }
    requires ports { (length run.ran.ports.items ≡ length plan.now.customers)
        × (length run.ran.counts.customers ≡ length plan.now.customers)
        × (length paths.now ≡ length run.ran.ports.items) }
    requires unsent { AreUnsent (map ⟦<Customer<O::FilePort> as Port>⟧.waiting run.ran.ports.items)
        run.ran.counts.customers }
    ensures ok { IfOk result (λ status. (unsent : List Frames)
        × PrintsReport strictness plan.now run.ran.counts run.ran.ended run.ran.settled run.ran.last.items unsent status
        (W.contents writer.old) (W.contents writer.new)
        × HaveClosed (map (port_frames ⟦<Customer<O::FilePort> as Port>⟧) run.ran.ports.items) unsent
        (O.holds opener.new) paths.now) }
    ensures kinds { IfErr result (λ e. (e ≡ NetworkFault.Write) ⊎ (e ≡ NetworkFault.Memory)) }
    ensures none { IfErr result (λ e. e ≢ NetworkFault.Write → Keeps (W.contents writer.old) (W.contents writer.new)) }
{
    let closed = close_run(
        rt, alloc, opener, users, files, paths, run, lingering, gate, errors,
    )?;
    let Closed {
        tapped: TappedRun { ran, mut taps },
        are_files_whole,
    } = closed;
    let told = tell(
        alloc,
        strictness,
        plan,
        files,
        are_files_whole,
        drops,
        &ran,
        writer,
        errors,
    );
    show_unwritten(alloc, plan, taps.as_mut_slice(), errors);
    told
}
