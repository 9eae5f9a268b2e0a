//! The trace of one frame.

ghost use Rattle.std.specs.Prelude.{◌≡◌, ◌++◌, ◌∷◌, [], List, ℕ, true, IfOk, IfErr, OnOk};
ghost use Rattle.pb_lan.specs.Events.{has_place};
ghost use Rattle.pb_lan.specs.Plans.{IsSound};
ghost use Rattle.pb_lan.specs.declared.step.Place.TheVariants.{Customer};
ghost use Rattle.pb_converge.specs.Drives.{HasDrained, IsCaused};
ghost use Rattle.pb_cmd_step.specs.Steps.{HasGrown};
ghost use Rattle.pb_cmd_trace.specs.Stories.{AnswersFrame, IsConclusion, IsEntry, IsFollowed, entry_number};
ghost use Rattle.pb_cmd_trace.specs.declared.lines.TraceLine.{TraceLine};
ghost use Rattle.pb_cmd_trace.specs.declared.lines.TraceLine.TheVariants.{Others};

use crate::lines::{TraceLine, push_entry, push_others, push_waits};
use crate::walk::{Course, newest, walk};
use bytes::Bytes;
use pb_converge::{DriveFault, drain, fault_in};
use pb_frame::Memory;
use pb_lan::{Event, Place, Plan, Step};
use pb_net::{Did, Net, NetFault};
use std::alloc::Global;

/// The most other events until nothing is due.
const MOST_OTHERS: u64 = 1_000_000;

/// The end of a frame's trace.
#[derive(Clone, Copy, Debug, PartialEq, Eq)]
pub(crate) enum Fate {
    /// It and its copies went as far as they go, or its port holds another frame.
    Ended,
    /// It is in a forwarding loop; its number among the frames of its port.
    GoesRound(u64),
    /// The plan lacks its customer port.
    NoPort,
    /// The digits are no frame.
    NoFrame,
}

/// Returns the number of an injected frame among those of its port.
fn entry_number(step: &Step) -> u64
    ensures { result ≡ entry_number step.now }
{
    match step {
        Step::Poll { item } => match item.mark {
            Some(mark) => mark.number.get(),
            None => 0,
        },
        _ => 0,
    }
}

/// Appends the report of a frame that was just injected at a customer port, and returns its number among those of the
/// port.
fn tell_entry(lines: &mut Vec<TraceLine>, net: &Net, port: u8) -> Result<u64, Memory>
    requires has { has_place net.now.plan (Customer port) ≡ true }
    requires grown { HasGrown net.now.rec (Customer port) }
    requires kept { net.now.is_kept ≡ true }
    ensures { IfOk result (λ number. (more : List TraceLine) × (lines.new.items ≡ lines.old.items ++ more)
        × IsEntry port number net.now more) }
{
    let (_, step) = newest(net, Place::Customer(port));
    push_entry(lines, port, step)?;
    Ok(entry_number(step))
}

/// Does what else is due, and appends the number of these events.
fn finish(lines: &mut Vec<TraceLine>, plan: &Plan, net: &mut Net) -> Result<(), DriveFault>
    requires sound { IsSound plan.now }
    requires plan { net.old.plan ≡ plan.now }
    ensures plan { net.new.plan ≡ plan.now }
    ensures ok { OnOk result ((others : ℕ) × HasDrained others net.old net.new
        × (lines.new.items ≡ lines.old.items ++ Others others ∷ [])) }
    ensures err { IfErr result (λ fault. IsCaused 0 0 0 1000000 fault net.old) }
{
    match drain(net, plan, MOST_OTHERS) {
        Ok(others) => Ok(push_others(lines, others)?),
        Err(fault) => Err(fault_in(net, fault)),
    }
}

/// Does what else is due, if the frame and its copies went as far as they go.
fn conclude(
    lines: &mut Vec<TraceLine>,
    plan: &Plan,
    net: &mut Net,
    course: Course,
    number: u64,
) -> Result<Fate, DriveFault>
    requires sound { IsSound plan.now }
    requires plan { net.old.plan ≡ plan.now }
    ensures plan { net.new.plan ≡ plan.now }
    ensures ok { IfOk result (λ fate. (more : List TraceLine) × (lines.new.items ≡ lines.old.items ++ more)
        × IsConclusion course fate number net.old net.new more) }
    ensures err { IfErr result (λ fault. IsCaused 0 0 0 1000000 fault net.old) }
{
    match course {
        Course::GoesRound => Ok(Fate::GoesRound(number)),
        Course::Ended => {
            finish(lines, plan, net)?;
            Ok(Fate::Ended)
        }
    }
}

/// Appends the trace of a frame that was just injected at a customer port.
fn follow(
    alloc: Global,
    lines: &mut Vec<TraceLine>,
    plan: &Plan,
    net: &mut Net,
    port: u8,
) -> Result<Fate, DriveFault>
    requires sound { IsSound plan.now }
    requires plan { net.old.plan ≡ plan.now }
    requires kept { net.old.is_kept ≡ true }
    requires has { has_place net.old.plan (Customer port) ≡ true }
    requires grown { HasGrown net.old.rec (Customer port) }
    ensures plan { net.new.plan ≡ plan.now }
    ensures ok { IfOk result (λ fate. (more : List TraceLine) × (lines.new.items ≡ lines.old.items ++ more)
        × IsFollowed plan.now port fate net.old net.new more) }
    ensures err { IfErr result (λ fault. IsCaused 0 0 0 1000000 fault net.old) }
{
    let number = tell_entry(lines, net, port)?;
    let course = walk(alloc, lines, plan, net, port)?;
    conclude(lines, plan, net, course, number)
}

/// Injects a frame at a customer port, and appends its trace.
pub(crate) fn trace_frame(
    alloc: Global,
    lines: &mut Vec<TraceLine>,
    plan: &Plan,
    net: &mut Net,
    port: u8,
    frame: Bytes,
) -> Result<Fate, DriveFault>
    requires sound { IsSound plan.now }
    requires plan { net.old.plan ≡ plan.now }
    requires kept { net.old.is_kept ≡ true }
    ensures plan { net.new.plan ≡ plan.now }
    ensures ok { IfOk result (λ fate. (more : List TraceLine) × (lines.new.items ≡ lines.old.items ++ more)
        × AnswersFrame plan.now port frame fate net.old net.new more) }
    ensures err { IfErr result (λ fault. IsCaused 0 1 0 1000000 fault net.old) }
{
    match net.step(Event::Poll { port, frame }) {
        Ok(Did::Done(_)) => follow(alloc, lines, plan, net, port),
        Ok(Did::Idle) => {
            push_waits(lines)?;
            Ok(Fate::Ended)
        }
        Err(NetFault::NoSuch) => Ok(Fate::NoPort),
        Err(NetFault::StepLimit) => Err(fault_in(net, DriveFault::Steps)),
        Err(NetFault::Memory) => Err(DriveFault::Memory),
    }
}
