//! The walk of a frame and its copies through a network, step by step.

ghost use Rattle.std.specs.Prelude.{◌≡◌, ◌++◌, ◌∷◌, [], List, true, Some, IfOk, IfErr};
ghost use Rattle.pb_converge.specs.Drives.{IsCaused};
ghost use Rattle.pb_lan.specs.Events.{has_place, steps_at};
ghost use Rattle.pb_lan.specs.Plans.{IsSound};
ghost use Rattle.pb_lan.specs.Records.{IsLawfulRecord};
ghost use Rattle.pb_relay.specs.Protocol.{spanning_tree};
ghost use Rattle.pb_cmd_step.specs.Steps.{newest_at, HasGrown};
ghost use Rattle.pb_cmd_trace.specs.Walks.{GoesOn, HasWalked};
ghost use Rattle.pb_cmd_trace.specs.declared.lines.TraceLine.{TraceLine};
ghost use Rattle.pb_cmd_trace.specs.declared.onward.Onward.TheVariants.{Feed};

use crate::following::push_following;
use crate::lines::{TraceLine, push_step};
use crate::onward::{Onward, event_of};
use pb_converge::{DriveFault, fault_in};
use pb_frame::Memory;
use pb_lan::{Place, Plan, Step};
use pb_net::{Did, Net, NetFault};
use std::alloc::Global;

/// The most events of a frame after its injection.
///
/// A plan uses at most 256 ports, 128 of them at links. Without a loop a frame leaves each of them at most once
/// (IEEE 802.1Q clause 8.6), which takes two events, and four at a link. A frame that takes 1,000 is in a loop.
const MOST_EVENTS: u32 = 1_000;

/// The end of a walk.
#[derive(Clone, Copy, Debug, PartialEq, Eq)]
pub(crate) enum Course {
    /// The frame and its copies went as far as they go.
    Ended,
    /// The most events were done: the frame is in a forwarding loop.
    GoesRound,
}

/// Returns the steps of a place that has taken one, and the newest of them.
pub(crate) fn newest(net: &Net, place: Place) -> (&[Step], &Step)
    requires has { has_place net.now.plan place ≡ true }
    requires grown { HasGrown net.now.rec place }
    requires kept { net.now.is_kept ≡ true }
    ensures lawful { IsLawfulRecord spanning_tree net.now.plan net.now.rec }
    ensures steps { result.0.now ≡ steps_at net.now.rec place }
    ensures newest { newest_at net.now.rec place ≡ Some result.1.now }
{
    let steps = net.steps(place);
    let Some(step) = steps.last() else {
        unreachable!();
    };
    (steps, step)
}

/// Does an event if it is due, appends the report of its step, and appends the events that follow to `todo`. Returns
/// whether it was due.
fn go_on(
    lines: &mut Vec<TraceLine>,
    plan: &Plan,
    net: &mut Net,
    todo: &mut Vec<Onward>,
    onward: Onward,
) -> Result<bool, DriveFault>
    requires sound { IsSound plan.now }
    requires plan { net.old.plan ≡ plan.now }
    requires kept { net.old.is_kept ≡ true }
    ensures plan { net.new.plan ≡ plan.now }
    ensures ok { IfOk result (λ went. GoesOn went plan.now onward net.old net.new todo.old.items todo.new.items
        lines.old.items lines.new.items) }
    ensures err { IfErr result (λ fault. IsCaused 0 0 0 1000000 fault net.old) }
{
    match net.step(event_of(onward)) {
        Ok(Did::Done(place)) => {
            let (steps, step) = newest(net, place);
            push_step(lines, plan, steps, onward, step)?;
            push_following(todo, plan, onward, step)?;
            Ok(true)
        }
        Ok(Did::Idle) | Err(NetFault::NoSuch) => Ok(false),
        Err(NetFault::StepLimit) => Err(fault_in(net, DriveFault::Steps)),
        Err(NetFault::Memory) => Err(DriveFault::Memory),
    }
}

/// Does the events of `todo`, the last one first, and appends the report of each step.
fn walk_on(
    lines: &mut Vec<TraceLine>,
    plan: &Plan,
    net: &mut Net,
    todo: &mut Vec<Onward>,
) -> Result<Course, DriveFault>
    requires sound { IsSound plan.now }
    requires plan { net.old.plan ≡ plan.now }
    requires kept { net.old.is_kept ≡ true }
    ensures plan { net.new.plan ≡ plan.now }
    ensures ok { IfOk result (λ course. (more : List TraceLine) × (lines.new.items ≡ lines.old.items ++ more)
        × HasWalked plan.now todo.old.items course net.old net.new more) }
    ensures err { IfErr result (λ fault. IsCaused 0 0 0 1000000 fault net.old) }
{
    for _ in 0..MOST_EVENTS {
        let Some(onward) = todo.pop() else {
            return Ok(Course::Ended);
        };
        if !go_on(lines, plan, net, todo, onward)? {
            return Ok(Course::Ended);
        }
    }
    Ok(Course::GoesRound)
}

/// Returns the list with the event that feeds a customer port's frame to its bridge.
fn feeding(alloc: Global, port: u8) -> Result<Vec<Onward>, Memory>
    ensures { IfOk result (λ todo. todo.items ≡ Feed port ∷ []) }
{
    let mut todo = Vec::new(alloc);
    todo.push(Onward::Feed(port))?;
    Ok(todo)
}

/// Follows the frame that a customer port holds, with its copies, and appends the report of each step.
///
/// A copy is followed to its end before the next one; of a bridge's copies the one at the lowest port comes first.
pub(crate) fn walk(
    alloc: Global,
    lines: &mut Vec<TraceLine>,
    plan: &Plan,
    net: &mut Net,
    port: u8,
) -> Result<Course, DriveFault>
    requires sound { IsSound plan.now }
    requires plan { net.old.plan ≡ plan.now }
    requires kept { net.old.is_kept ≡ true }
    ensures plan { net.new.plan ≡ plan.now }
    ensures ok { IfOk result (λ course. (more : List TraceLine) × (lines.new.items ≡ lines.old.items ++ more)
        × HasWalked plan.now (Feed port ∷ []) course net.old net.new more) }
    ensures err { IfErr result (λ fault. IsCaused 0 0 0 1000000 fault net.old) }
{
    let mut todo = feeding(alloc, port)?;
    walk_on(lines, plan, net, &mut todo)
}
