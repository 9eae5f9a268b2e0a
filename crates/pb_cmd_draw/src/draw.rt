//! The command.

ghost use Rattle.std.specs.Prelude.{◌≡◌, ◌≢◌, ◌++◌, List, ℕ, true, string_bytes, IfOk, IfErr, OnOk};
ghost use Rattle.std.specs.Io.KnownBytes.{Appends, Keeps};
ghost use Rattle.pb_converge.specs.Drives.{IsCaused, ReachesLimit};
ghost use Rattle.pb_converge.specs.Enough.{HasEnoughMemory};
ghost use Rattle.pb_converge.specs.Falls.{down_count, fresh};
ghost use Rattle.pb_lan.specs.LastShapes.{last_shape};
ghost use Rattle.pb_lan.specs.Plans.{IsSound};
ghost use Rattle.pb_cmd_draw.specs.Draws.{is_found, chosen_of, IsPictureOf, IsDrawingFrom, HasDrawn, HasTold};
ghost use Rattle.pb_cmd_draw.specs.Draws.{RunsIntoLimit};
ghost use Rattle.pb_cmd_draw.specs.Failures.{failures_of};

use crate::asked::Asked;
use crate::dot::put_dot;
use crate::end::{DrawEnd, Format};
use crate::failures::failures_of;
use crate::lists::rooms;
use crate::svg::put_svg;
use pb_converge::{Convergence, DriveFault, converge, disables, fault_of, fresh, shape_of};
use pb_draw_layout::{Failures, Rooms, scene_of};
use pb_frame::Memory;
use pb_lan::{Plan, Record, Shape};
use pb_messages::{CommandFault, write_whole};
use pb_names::service_named;
use pb_net::{Net, Tallies};
use pb_report::write_refusal;
use pb_service::read_plan;
use std::alloc::Global;
use std::io::Write;

/// The most events besides ticks until convergence.
const MOST_EVENTS: u64 = 1_000_000_000;

/// What a picture shows besides the network.
#[derive(Clone, Copy)]
struct Shown<'a> {
    /// The number of the service to highlight, if one is requested.
    chosen: Option<u8>,
    /// What has failed.
    failed: &'a Failures,
    /// Whether links show their lists of services.
    lists: bool,
    /// The format of the picture.
    format: Format,
}

/// Checks whether the plan has the service to highlight, if one is requested.
fn is_found(plan: &Plan, service: Option<&str>) -> bool
    requires { IsSound plan.now }
    ensures { result ≡ is_found plan.now service.entry }
{
    match service {
        None => true,
        Some(name) => service_named(plan, name) > 0,
    }
}

/// Returns the number of the service to highlight, if one is requested.
fn chosen_of(plan: &Plan, service: Option<&str>) -> Option<u8>
    requires { IsSound plan.now }
    ensures { result ≡ chosen_of plan.now service.entry }
{
    match service {
        None => None,
        Some(name) => Some(service_named(plan, name)),
    }
}

/// Appends the picture of a network with the ports in these states and with these failures.
fn put_picture(
    alloc: Global,
    out: &mut String,
    plan: &Plan,
    shape: &Shape,
    shown: Shown<'_>,
) -> Result<(), Memory>
    requires { IsSound plan.now }
    ensures { OnOk result ((text : List ℕ) × (string_bytes out.new ≡ string_bytes out.old ++ text)
        × IsPictureOf plan.now shape.now shown.entry.chosen shown.entry.failed.now shown.entry.lists shown.entry.format
        text) }
{
    let links = rooms(alloc, plan, shown.lists)?;
    let rooms = Rooms {
        links: links.as_slice(),
        ports: 0,
    };
    let scene = scene_of(alloc, plan, shape, shown.chosen, shown.failed, rooms)?;
    match shown.format {
        Format::Svg => put_svg(alloc, out, plan, shown.lists, &scene),
        Format::Dot => put_dot(alloc, out, plan, shown.lists, &scene),
    }
}

/// Appends the picture of a network after the counted steps.
fn put_last(
    alloc: Global,
    out: &mut String,
    plan: &Plan,
    tallies: &Tallies,
    shown: Shown<'_>,
) -> Result<(), Memory>
    requires { IsSound plan.now }
    ensures enough { OnOk result (HasEnoughMemory tallies.now) }
    ensures picture { OnOk result ((text : List ℕ) × (string_bytes out.new ≡ string_bytes out.old ++ text)
        × IsPictureOf plan.now (last_shape plan.now tallies.now) shown.entry.chosen shown.entry.failed.now
        shown.entry.lists shown.entry.format text) }
{
    let shape = shape_of(alloc, plan, tallies)?;
    put_picture(alloc, out, plan, &shape, shown)
}

/// Drives a network to convergence, and appends its picture. Returns whether the bridges converged.
fn put_converged(
    alloc: Global,
    out: &mut String,
    plan: &Plan,
    mut net: Net,
    asked: &Asked<'_>,
) -> Result<Convergence, DriveFault>
    requires sound { IsSound plan.now }
    requires plan { net.plan ≡ plan.now }
    ensures ok { IfOk result (λ convergence. (text : List ℕ) × (string_bytes out.new ≡ string_bytes out.old ++ text)
        × IsDrawingFrom plan.now asked.now net convergence text) }
    ensures err { IfErr result (λ fault. IsCaused asked.now.ticks 0 0 1000000000 fault net) }
{
    let convergence = converge(alloc, &mut net, plan, asked.ticks, MOST_EVENTS)?;
    let chosen = chosen_of(plan, asked.service);
    let failed = failures_of(alloc, plan, asked.downs)?;
    let shown = Shown {
        chosen,
        failed: &failed,
        lists: asked.lists,
        format: asked.format,
    };
    let tallies = net.tallies()?;
    put_last(alloc, out, plan, &tallies, shown)?;
    Ok(convergence)
}

/// Disables what `asked.downs` names, and appends the picture. If a name is unknown or ambiguous, nothing is appended,
/// and `NoDown` is returned.
fn put_fallen(
    alloc: Global,
    out: &mut String,
    plan: &Plan,
    asked: &Asked<'_>,
) -> Result<DrawEnd, DriveFault>
    requires sound { IsSound plan.now }
    requires found { is_found plan.now asked.now.service ≡ true }
    ensures ok { IfOk result (λ end. (text : List ℕ) × (string_bytes out.new ≡ string_bytes out.old ++ text)
        × HasDrawn plan.now asked.now end text) }
    ensures err { IfErr result (λ fault. IsCaused asked.now.ticks 0 (down_count plan.now asked.now.downs.now) 1000000000
        fault (fresh plan.now)) }
{
    let mut net = fresh(alloc, plan)?;
    match disables(alloc, &mut net, plan, asked.downs)? {
        Some(fault) => Ok(DrawEnd::NoDown(fault)),
        None => {
            let convergence = put_converged(alloc, out, plan, net, asked)?;
            Ok(DrawEnd::Drawn(convergence))
        }
    }
}

/// Appends the requested picture, or nothing if the plan lacks the service.
fn put_drawing(
    alloc: Global,
    out: &mut String,
    plan: &Plan,
    asked: &Asked<'_>,
) -> Result<DrawEnd, DriveFault>
    requires { IsSound plan.now }
    ensures ok { IfOk result (λ end. (text : List ℕ) × (string_bytes out.new ≡ string_bytes out.old ++ text)
        × HasDrawn plan.now asked.now end text) }
    ensures err { IfErr result (λ fault. IsCaused asked.now.ticks 0 (down_count plan.now asked.now.downs.now) 1000000000
        fault (fresh plan.now)) }
{
    if is_found(plan, asked.service) {
        put_fallen(alloc, out, plan, asked)
    } else {
        Ok(DrawEnd::NoService)
    }
}

/// Writes the requested picture, or nothing if there is none.
fn draw<W: Write>(
    alloc: Global,
    plan: &Plan,
    asked: &Asked<'_>,
    writer: &mut W,
) -> Result<DrawEnd, CommandFault>
    requires { IsSound plan.now }
    ensures ok { IfOk result (λ end. (text : List ℕ) × Appends (W.contents writer.old) (W.contents writer.new) text
        × HasDrawn plan.now asked.now end text) }
    ensures kinds { IfErr result (λ e. e ≢ CommandFault.Read) }
    ensures steps { IfErr result (λ e. e ≡ CommandFault.Steps
        → ReachesLimit asked.now.ticks 0 (down_count plan.now asked.now.downs.now) 1000000000 (fresh plan.now)) }
    ensures none { IfErr result (λ e. e ≢ CommandFault.Write → Keeps (W.contents writer.old) (W.contents writer.new)) }
{
    let mut out = String::new(alloc);
    match put_drawing(alloc, &mut out, plan, asked) {
        Ok(end) => {
            write_whole(writer, out.as_bytes())?;
            Ok(end)
        }
        Err(fault) => Err(fault_of(fault)),
    }
}

/// Reads a plan file, disables links, bridges and ports, drives the bridges to convergence, and writes a picture of the
/// network.
///
/// Each of `asked.downs` names a link, a bridge, or a port to another bridge as `BRIDGE:PORT`, as [`disables`]
/// describes. If the bridges run the rapid spanning tree (IEEE 802.1D-2004 clause 17), each takes at most `asked.ticks`
/// ticks (seconds). The picture has the states at the end of a lawful record of that network, as [`Net::tallies`]
/// counts it, in which no allocation failed. `Drawn` has whether the bridges converged. [`scene_of`] decides what is
/// drawn, [`put_svg`] and [`put_dot`] how.
///
/// If the file is not a valid plan, the line `plan: N WORD` is written, as `check` prints it, and `Refused` is
/// returned. `NoService` is returned if the plan lacks the service, and else `NoDown` if a name of `asked.downs` is
/// unknown or ambiguous; nothing is written in these two cases.
///
/// # Errors
///
/// `Memory` if an allocation failed, also in a bridge, which then drops what it can't store. `Steps` if a place would
/// take more steps than the plan allows or more than 1,000,000,000 events are due, and no allocation failed. Nothing
/// was written then. `Write` if a write failed; what was written is unknown then. `Read` never comes.
pub fn run_draw<W: Write>(
    alloc: Global,
    file: &[u8],
    asked: &Asked<'_>,
    writer: &mut W,
) -> Result<DrawEnd, CommandFault>
    ensures ok { IfOk result (λ end. HasTold file.now asked.now end (W.contents writer.old) (W.contents writer.new)) }
    ensures kinds { IfErr result (λ e. e ≢ CommandFault.Read) }
    ensures steps { IfErr result (λ e. e ≡ CommandFault.Steps → RunsIntoLimit file.now asked.now) }
    ensures none { IfErr result (λ e. e ≢ CommandFault.Write → Keeps (W.contents writer.old) (W.contents writer.new)) }
{
    match read_plan(alloc, file) {
        Ok((plan, _ports)) => draw(alloc, &plan, asked, writer),
        Err(fault) => {
            write_refusal(alloc, &fault, writer)?;
            Ok(DrawEnd::Refused)
        }
    }
}
