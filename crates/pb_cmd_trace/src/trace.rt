//! The command.

ghost use Rattle.std.specs.Prelude.{◌≡◌, ◌≢◌, ◌++◌, List, ℕ, true, string_bytes, IfOk, IfErr, OnOk};
ghost use Rattle.std.specs.Io.KnownBytes.{Keeps};
ghost use Rattle.pb_lan.specs.Plans.{IsSound};
ghost use Rattle.pb_lan.specs.Records.{IsLawfulRecord};
ghost use Rattle.pb_relay.specs.Protocol.{spanning_tree};
ghost use Rattle.pb_cmd_trace.specs.Traces.{AnswersTrace, HasTold, HasTraced, RunsIntoLimit, end_lines, head_text};
ghost use Rattle.pb_cmd_trace.specs.Traces.{trace_text};
ghost use Rattle.pb_cmd_trace.specs.Tracings.{IsTracingFault, TracingReachesLimit};

use crate::asked::Asked;
use crate::end::TraceEnd;
use crate::round::{FrameId, put_round};
use crate::summary::put_summary;
use crate::telling::put_lines;
use crate::tracing::{TraceReport, Tracing, trace_plan};
use pb_converge::{Convergence, DriveFault, fault_of, put_convergence};
use pb_frame::Memory;
use pb_lan::{Plan, Record};
use pb_messages::{CommandFault, write_whole};
use pb_report::write_refusal;
use pb_service::read_plan;
use std::alloc::Global;
use std::io::Write;

/// Appends whether the bridges converged first, if that was requested.
fn put_head(out: &mut String, convergence: Option<Convergence>) -> Result<(), Memory>
    ensures { OnOk result (string_bytes out.new ≡ string_bytes out.old ++ head_text convergence) }
{
    match convergence {
        None => Ok(()),
        Some(convergence) => put_convergence(out, convergence),
    }
}

/// Appends the last lines: the forwarding loop if there is one, and the summary.
fn put_end(
    alloc: Global,
    out: &mut String,
    plan: &Plan,
    rec: &Record,
    round: Option<FrameId>,
) -> Result<(), Memory>
    requires sound { IsSound plan.now }
    requires lawful { IsLawfulRecord spanning_tree plan.now rec.now }
    ensures { OnOk result (string_bytes out.new ≡ string_bytes out.old ++ end_lines plan.now rec.now round) }
{
    put_round(out, plan, rec, round)?;
    put_summary(alloc, out, plan, rec)
}

/// Appends the lines of a trace.
fn put_report(
    alloc: Global,
    out: &mut String,
    plan: &Plan,
    report: &TraceReport,
) -> Result<(), Memory>
    requires sound { IsSound plan.now }
    requires lawful { IsLawfulRecord spanning_tree plan.now report.now.record }
    ensures { OnOk result (string_bytes out.new ≡ string_bytes out.old ++ trace_text plan.now report.now) }
{
    put_head(out, report.convergence)?;
    put_lines(alloc, out, plan, report.lines.as_slice())?;
    put_end(alloc, out, plan, &report.record, report.round)
}

/// Appends the traces of frames in the network of a plan. If an argument is wrong, nothing is appended.
fn put_trace(
    alloc: Global,
    out: &mut String,
    plan: &Plan,
    asked: &Asked<'_>,
) -> Result<TraceEnd, DriveFault>
    requires { IsSound plan.now }
    ensures ok { IfOk result (λ end. (text : List ℕ) × (string_bytes out.new ≡ string_bytes out.old ++ text)
        × AnswersTrace plan.now asked.now end text) }
    ensures err { IfErr result (IsTracingFault plan.now asked.now) }
{
    match trace_plan(alloc, plan, asked)? {
        Tracing::Told(report) => {
            put_report(alloc, out, plan, &report)?;
            Ok(TraceEnd::Told)
        }
        Tracing::NoPort(index) => Ok(TraceEnd::NoPort(index)),
        Tracing::NoFrame(index) => Ok(TraceEnd::NoFrame(index)),
        Tracing::NoDown(fault) => Ok(TraceEnd::NoDown(fault)),
    }
}

/// Writes the traces of frames in the network of a plan. If an argument is wrong, nothing is written.
fn write_trace<W: Write>(
    alloc: Global,
    plan: &Plan,
    asked: &Asked<'_>,
    writer: &mut W,
) -> Result<TraceEnd, CommandFault>
    requires { IsSound plan.now }
    ensures ok { IfOk result (λ end. HasTraced plan.now asked.now end (W.contents writer.old)
        (W.contents writer.new)) }
    ensures kinds { IfErr result (λ e. e ≢ CommandFault.Read) }
    ensures steps { IfErr result (λ e. e ≡ CommandFault.Steps → TracingReachesLimit plan.now asked.now) }
    ensures none { IfErr result (λ e. e ≢ CommandFault.Write → Keeps (W.contents writer.old) (W.contents writer.new)) }
{
    let mut out = String::new(alloc);
    match put_trace(alloc, &mut out, plan, asked) {
        Ok(TraceEnd::Told) => {
            write_whole(writer, out.as_bytes())?;
            Ok(TraceEnd::Told)
        }
        Ok(TraceEnd::Refused) => Ok(TraceEnd::Refused),
        Ok(TraceEnd::NoPort(index)) => Ok(TraceEnd::NoPort(index)),
        Ok(TraceEnd::NoFrame(index)) => Ok(TraceEnd::NoFrame(index)),
        Ok(TraceEnd::NoDown(fault)) => Ok(TraceEnd::NoDown(fault)),
        Err(fault) => Err(fault_of(fault)),
    }
}

/// Reads a plan file, injects frames one after the other, and writes where each goes, step by step.
///
/// Each of `asked.downs` names a link, a bridge, or a port to another bridge as `BRIDGE:PORT`, which is disabled first,
/// as [`disables`] describes. If `asked.settle` is given and the bridges run the rapid spanning tree (IEEE 802.1D-2004
/// clause 17), they converge then, within so many ticks of each: the first line is `converged ticks N` or
/// `not converged ticks N`. Each frame is injected at its customer port when the one before it has gone as far as it
/// goes. Its lines are
///
/// - `in HEX: polled PORT K` for the injected frame;
/// - `BRIDGE N from NAME, ..` for each bridge that received it: service and priority, what was learnt, whether the
///   destination is known, and the outcome (IEEE 802.1Q clause 8.6);
/// - `BRIDGE N to NAME, ..` for each copy that a bridge sent, with its S-tag (IEEE 802.1ad clause 9);
/// - `LINK ab: taken K` or `LINK ab: lost K` for each link that took a copy, with `ba` for the other direction;
/// - `PORT: delivered HEX` for each customer port that delivered one;
/// - `other events N`, if N other events were due afterwards.
///
/// A line is indented by two spaces for each bridge that has relayed its frame, and two more, at most 66. A copy is
/// followed to its end before the next one; of a bridge's copies the one at the lowest port comes first. If the port
/// still holds another frame, the frame is not injected, and one line reports that.
///
/// A frame that takes 1,000 events is in a forwarding loop. No more frames are injected then, and a line names each
/// link that the frame passed twice or more in one direction. The last line has the customer ports at which frames
/// were delivered, the number of customer frames and copies that bridges dropped, and the number that links lost. The
/// record of the network is lawful at the first frame and after each step of a frame, and the last line counts the
/// steps of a lawful record, as [`Net::finish`] returns it, in which no allocation failed.
///
/// If the file is not a valid plan, the line `plan: N WORD` is written, as `check` prints it, and `Refused` is
/// returned. `NoDown` is returned if a name of `asked.downs` is unknown or ambiguous, `NoPort` if the plan lacks a
/// frame's customer port, and `NoFrame` if its text is not one or more pairs of hexadecimal digits. Nothing was written
/// in these three cases.
///
/// # Errors
///
/// `Memory` if an allocation failed, also in a bridge, which then drops what it can't store. Else `Steps` if a place
/// would take more steps than the plan allows, more than 1,000,000,000 events besides ticks are due until convergence,
/// or more than 1,000,000 other events are due after a frame. Nothing was written then. `Write` if a write failed; what
/// was written is unknown then. `Read` never comes.
pub fn run_trace<W: Write>(
    alloc: Global,
    file: &[u8],
    asked: &Asked<'_>,
    writer: &mut W,
) -> Result<TraceEnd, CommandFault>
    ensures ok { IfOk result (λ end. HasTold file.now asked.now end (W.contents writer.old)
        (W.contents writer.new)) }
    ensures kinds { IfErr result (λ e. e ≢ CommandFault.Read) }
    ensures steps { IfErr result (λ e. e ≡ CommandFault.Steps → RunsIntoLimit file.now asked.now) }
    ensures none { IfErr result (λ e. e ≢ CommandFault.Write → Keeps (W.contents writer.old) (W.contents writer.new)) }
{
    match read_plan(alloc, file) {
        Ok((plan, _ports)) => write_trace(alloc, &plan, asked, writer),
        Err(fault) => {
            write_refusal(alloc, &fault, writer)?;
            Ok(TraceEnd::Refused)
        }
    }
}
