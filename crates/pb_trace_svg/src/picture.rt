//! The command `trace` with a picture.

ghost use Rattle.std.specs.Prelude.{◌≡◌, ◌≢◌, ◌++◌, List, ℕ, true, string_bytes, IfOk, IfErr, OnOk};
ghost use Rattle.std.specs.Io.KnownBytes.{Keeps};
ghost use Rattle.pb_lan.specs.Plans.{IsSound};
ghost use Rattle.pb_cmd_draw.specs.Failures.{failures_of};
ghost use Rattle.pb_cmd_trace.specs.Traces.{RunsIntoLimit};
ghost use Rattle.pb_cmd_trace.specs.Tracings.{IsTracingFault, TracingReachesLimit};
ghost use Rattle.pb_trace_svg.specs.Pictures.{AnswersPicture, WritesPicture, HasShown, IsPictureOf, over_text};

use crate::hops::hops_in;
use crate::marks::{HopMark, marks_of};
use crate::spots::{all_placed, link_rooms, port_room};
use crate::style::HOP_STYLE;
use crate::svg_hops::{put_hops, put_ways};
use pb_cmd_draw::{Failures, LinkMark, Rooms, failures_of, put_svg_with, scene_of};
use pb_cmd_trace::{Asked, TraceEnd, TraceReport, Tracing, trace_plan};
use pb_converge::{DriveFault, fault_of};
use pb_frame::Memory;
use pb_lan::Plan;
use pb_messages::{CommandFault, write_whole};
use pb_report::write_refusal;
use pb_service::read_plan;
use std::alloc::Global;
use std::io::Write;

/// Appends what is drawn over the network: the style of hops, the lines of hops over links, and the hops.
fn put_over(
    out: &mut String,
    plan: &Plan,
    links: &[LinkMark],
    marks: &[HopMark],
) -> Result<(), Memory>
    ensures { OnOk result (string_bytes out.new ≡ string_bytes out.old ++ over_text plan.now links.now marks.now) }
{
    out.push_str(HOP_STYLE)?;
    put_ways(out, links, marks)?;
    put_hops(out, plan, marks)
}

/// Appends the picture of a trace in a network with these failures.
fn put_picture(
    alloc: Global,
    out: &mut String,
    plan: &Plan,
    failed: &Failures,
    report: &TraceReport,
) -> Result<(), Memory>
    requires { IsSound plan.now }
    ensures { OnOk result ((text : List ℕ) × (string_bytes out.new ≡ string_bytes out.old ++ text)
        × IsPictureOf plan.now failed.now report.now text) }
{
    let hops = hops_in(alloc, report.lines.as_slice())?;
    let placed = all_placed(alloc, plan, hops.as_slice())?;
    let links = link_rooms(alloc, plan, placed.as_slice())?;
    let rooms = Rooms {
        links: links.as_slice(),
        ports: port_room(plan, placed.as_slice()),
    };
    let scene = scene_of(alloc, plan, &report.shape, None, failed, rooms)?;
    let marks = marks_of(alloc, plan, &scene, placed.as_slice(), hops.as_slice())?;
    let mut over = String::new(alloc);
    put_over(&mut over, plan, scene.links.as_slice(), marks.as_slice())?;
    put_svg_with(alloc, out, plan, &scene, over.as_str())
}

/// Appends the picture of a trace in the network of a plan, in which what `asked.downs` names has failed.
fn put_report(
    alloc: Global,
    out: &mut String,
    plan: &Plan,
    asked: &Asked<'_>,
    report: &TraceReport,
) -> Result<(), Memory>
    requires { IsSound plan.now }
    ensures { OnOk result ((text : List ℕ) × (string_bytes out.new ≡ string_bytes out.old ++ text)
        × IsPictureOf plan.now (failures_of plan.now asked.now.downs.now) report.now text) }
{
    let failed = failures_of(alloc, plan, asked.downs)?;
    put_picture(alloc, out, plan, &failed, report)
}

/// Appends the picture of the traces of frames in the network of a plan. If an argument is wrong, nothing is appended.
fn put_trace(
    alloc: Global,
    out: &mut String,
    plan: &Plan,
    asked: &Asked<'_>,
) -> Result<TraceEnd, DriveFault>
    requires { IsSound plan.now }
    ensures ok { IfOk result (λ end. (text : List ℕ) × (string_bytes out.new ≡ string_bytes out.old ++ text)
        × AnswersPicture plan.now asked.now end text) }
    ensures err { IfErr result (IsTracingFault plan.now asked.now) }
{
    match trace_plan(alloc, plan, asked)? {
        Tracing::Told(report) => {
            put_report(alloc, out, plan, asked, &report)?;
            Ok(TraceEnd::Told)
        }
        Tracing::NoPort(index) => Ok(TraceEnd::NoPort(index)),
        Tracing::NoFrame(index) => Ok(TraceEnd::NoFrame(index)),
        Tracing::NoDown(fault) => Ok(TraceEnd::NoDown(fault)),
    }
}

/// Writes the picture of the traces of frames in the network of a plan. If an argument is wrong, nothing is written.
fn write_trace<W: Write>(
    alloc: Global,
    plan: &Plan,
    asked: &Asked<'_>,
    writer: &mut W,
) -> Result<TraceEnd, CommandFault>
    requires { IsSound plan.now }
    ensures ok { IfOk result (λ end. WritesPicture plan.now asked.now end (W.contents writer.old)
        (W.contents writer.new)) }
    ensures kinds { IfErr result (λ e. e ≢ CommandFault.Read) }
    ensures steps { IfErr result (λ e. e ≡ CommandFault.Steps → TracingReachesLimit plan.now asked.now) }
    ensures none { IfErr result (λ e. e ≢ CommandFault.Write → Keeps (W.contents writer.old) (W.contents writer.new)) }
{
    let mut out = String::new(alloc);
    match put_trace(alloc, &mut out, plan, asked) {
        Ok(TraceEnd::Told) => {
            write_whole(writer, out.as_bytes())?;
            Ok(TraceEnd::Told)
        }
        Ok(TraceEnd::Refused) => Ok(TraceEnd::Refused),
        Ok(TraceEnd::NoPort(index)) => Ok(TraceEnd::NoPort(index)),
        Ok(TraceEnd::NoFrame(index)) => Ok(TraceEnd::NoFrame(index)),
        Ok(TraceEnd::NoDown(fault)) => Ok(TraceEnd::NoDown(fault)),
        Err(fault) => Err(fault_of(fault)),
    }
}

/// Reads a plan file, injects frames one after the other, and writes where each goes as a self-contained SVG picture.
///
/// The frames are traced as [`run_trace`](pb_cmd_trace::run_trace) describes. The picture is that of the network before
/// the first frame, as [`scene_of`] describes it, in which what `asked.downs` names has failed. Over it is an element
/// with the class `hop` for each of these hops, numbered from 1 in the order of the trace:
///
/// - a frame that was injected at a customer port;
/// - a frame on a link, with the VID and the priority of its S-tag or `untagged`. The line of the link has an arrow, or
///   is dashed if the link lost the frame;
/// - a frame that a bridge dropped, or a copy that a queue did not take: a cross, and the reason;
/// - a frame that a customer port delivered, or that the customer did not take.
///
/// The text of a hop is under the name of its link or in the line of its customer port. No contract covers the
/// positions.
///
/// If the file is not a valid plan, the line `plan: N WORD` is written, as `check` prints it, and `Refused` is
/// returned. `NoDown` is returned if a name of `asked.downs` is unknown or ambiguous, `NoPort` if the plan lacks a
/// frame's customer port, and `NoFrame` if its text is not one or more pairs of hexadecimal digits. Nothing was written
/// in these three cases.
///
/// # Errors
///
/// `Memory` if an allocation failed, also in a bridge, which then drops what it can't store. Else `Steps` if a place
/// would take more steps than the plan allows, more than 1,000,000,000 events besides ticks are due until convergence,
/// or more than 1,000,000 other events are due after a frame. Nothing was written then. `Write` if a write failed; what
/// was written is unknown then. `Read` never comes.
pub fn run_trace_svg<W: Write>(
    alloc: Global,
    file: &[u8],
    asked: &Asked<'_>,
    writer: &mut W,
) -> Result<TraceEnd, CommandFault>
    ensures ok { IfOk result (λ end. HasShown file.now asked.now end (W.contents writer.old)
        (W.contents writer.new)) }
    ensures kinds { IfErr result (λ e. e ≢ CommandFault.Read) }
    ensures steps { IfErr result (λ e. e ≡ CommandFault.Steps → RunsIntoLimit file.now asked.now) }
    ensures none { IfErr result (λ e. e ≢ CommandFault.Write → Keeps (W.contents writer.old) (W.contents writer.new)) }
{
    match read_plan(alloc, file) {
        Ok((plan, _ports)) => write_trace(alloc, &plan, asked, writer),
        Err(fault) => {
            write_refusal(alloc, &fault, writer)?;
            Ok(TraceEnd::Refused)
        }
    }
}
