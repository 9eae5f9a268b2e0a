//! The traces of frames in the network of a plan.

ghost use Rattle.std.specs.Prelude.{◌≡◌, length, unwrap_or, true, IfOk, IfErr};
ghost use Rattle.pb_converge.specs.Drives.{IsCaused};
ghost use Rattle.pb_converge.specs.Enough.{HasEnoughMemory};
ghost use Rattle.pb_converge.specs.Falls.{fresh_by};
ghost use Rattle.pb_lan.specs.Events.{has_place};
ghost use Rattle.pb_lan.specs.LastShapes.{last_shape};
ghost use Rattle.pb_lan.specs.Plans.{IsSound};
ghost use Rattle.pb_lan.specs.Records.{IsLawfulRecord};
ghost use Rattle.pb_lan.specs.declared.step.Place.TheVariants.{Customer};
ghost use Rattle.pb_relay.specs.Protocol.{spanning_tree};
ghost use Rattle.pb_cmd_trace.specs.Tracings.{EndsTracing, IsTracing, IsTracingFault};

use crate::asked::Asked;
use crate::beginning::begin;
use crate::journey::{Journey, travel};
use crate::lines::TraceLine;
use crate::round::FrameId;
use pb_converge::{Convergence, DownFault, DriveFault, check_memory, copied, disables, shape_of};
use pb_frame::{Memory, Seq};
use pb_lan::{Place, Plan, Record, Shape};
use pb_net::Net;
use std::alloc::Global;

/// The trace of frames that were injected one after the other.
#[derive(Debug, Drop)]
pub struct TraceReport {
    /// Whether the bridges converged before the first frame, if that was requested.
    pub convergence: Option<Convergence>,
    /// The states of all ports before the first frame.
    pub shape: Shape,
    /// The reports, in order.
    pub lines: Seq<TraceLine>,
    /// The frame that is in a forwarding loop, if one is. It is the last one that was injected.
    pub round: Option<FrameId>,
    /// The steps of all places.
    pub record: Record,
}

/// The end of a trace, if it ended without a fault.
#[derive(Debug, Drop)]
pub enum Tracing {
    /// The frames were traced.
    Told(TraceReport),
    /// The plan lacks the customer port of the frame at this index, from 0.
    NoPort(usize),
    /// The digits at this index, from 0, are no frame.
    NoFrame(usize),
    /// A name to disable is unknown or ambiguous.
    NoDown(DownFault),
}

/// Shows that the record of a network with customer ports is lawful, and does nothing.
fn steps_are_lawful(net: &Net)
    requires { net.now.is_kept ≡ true }
    ensures { has_place net.now.plan (Customer 1) ≡ true → IsLawfulRecord spanning_tree net.now.plan net.now.rec }
{
    let first = Place::Customer(1);
    if net.has_place(first) {
        let _steps = net.steps(first);
    }
}

/// Returns the states of all ports of a network.
fn shape_in(alloc: Global, plan: &Plan, net: &Net) -> Result<Shape, Memory>
    requires { IsSound plan.now }
    ensures { IfOk result (λ shape. shape ≡ last_shape plan.now net.now.rec) }
{
    let tallies = copied(net)?.tallies()?;
    shape_of(alloc, plan, &tallies)
}

/// Ends a network, and returns the steps of all its places, in none of which an allocation failed.
fn record_of(alloc: Global, net: Net) -> Result<Record, Memory>
    requires { net.is_kept ≡ true }
    ensures record { IfOk result (λ rec. rec ≡ net.rec) }
    ensures lawful { IfOk result (IsLawfulRecord spanning_tree net.plan) }
    ensures enough { IfOk result HasEnoughMemory }
{
    let record = net.finish();
    check_memory(alloc, &record)?;
    Ok(record)
}

/// Traces frames, from a network that no frame has entered.
fn follow_all(
    alloc: Global,
    plan: &Plan,
    mut net: Net,
    asked: &Asked<'_>,
) -> Result<Tracing, DriveFault>
    requires sound { IsSound plan.now }
    requires plan { net.plan ≡ plan.now }
    requires kept { net.is_kept ≡ true }
    ensures ok { IfOk result (EndsTracing plan.now asked.now net) }
    ensures err { IfErr result (λ fault.
        IsCaused (unwrap_or asked.now.settle 0) (length asked.now.entries.now) 0 1000000 fault net) }
{
    let convergence = begin(alloc, plan, &mut net, asked.settle)?;
    steps_are_lawful(&net);
    let shape = shape_in(alloc, plan, &net)?;
    let mut lines = Vec::new(alloc);
    match travel(alloc, &mut lines, plan, &mut net, asked.entries)? {
        Journey::Told(round) => {
            let record = record_of(alloc, net)?;
            Ok(Tracing::Told(TraceReport {
                convergence,
                shape,
                lines: Seq::from_vec(lines),
                round,
                record,
            }))
        }
        Journey::NoPort(index) => Ok(Tracing::NoPort(index)),
        Journey::NoFrame(index) => Ok(Tracing::NoFrame(index)),
    }
}

/// Returns the network of a plan, in which no place has taken a step. It keeps its steps.
fn kept(alloc: Global, plan: &Plan) -> Result<Net, Memory>
    requires { IsSound plan.now }
    ensures { IfOk result (λ net. net ≡ fresh_by true plan.now) }
{
    Net::new(alloc, plan.clone()?)
}

/// Disables what `asked.downs` names, drives the bridges of a sound plan to convergence if that is requested, and
/// traces frames that are injected one after the other, as [`run_trace`](crate::run_trace) describes.
///
/// The record of the network is lawful at the first frame and after each step of a frame. The returned record is
/// lawful, and no allocation failed in it. `NoDown` is returned if a name of `asked.downs` is unknown or ambiguous,
/// `NoPort` if the plan lacks a frame's customer port, and `NoFrame` if its text is not one or more pairs of
/// hexadecimal digits.
///
/// # Errors
///
/// `Memory` if an allocation failed, also in a bridge, which then drops what it can't store. Else `Steps` if a place
/// would take more steps than the plan allows, and `Events` if more than 1,000,000,000 events besides ticks are due
/// until convergence, or more than 1,000,000 other events after a frame.
pub fn trace_plan(alloc: Global, plan: &Plan, asked: &Asked<'_>) -> Result<Tracing, DriveFault>
    requires { IsSound plan.now }
    ensures ok { IfOk result (IsTracing plan.now asked.now) }
    ensures err { IfErr result (IsTracingFault plan.now asked.now) }
{
    let mut net = kept(alloc, plan)?;
    match disables(alloc, &mut net, plan, asked.downs)? {
        Some(fault) => Ok(Tracing::NoDown(fault)),
        None => follow_all(alloc, plan, net, asked),
    }
}
