//! The traces of several frames, one after the other.

ghost use Rattle.std.specs.Prelude.{◌≡◌, ◌++◌, List, length, true, IfOk, IfErr};
ghost use Rattle.pb_converge.specs.Drives.{IsCaused};
ghost use Rattle.pb_lan.specs.Plans.{IsSound};
ghost use Rattle.pb_cmd_trace.specs.Stories.{AnswersEntry, HasJourneyed};
ghost use Rattle.pb_cmd_trace.specs.declared.lines.TraceLine.{TraceLine};

use crate::entry::Entry;
use crate::frame::{Fate, trace_frame};
use crate::lines::TraceLine;
use crate::round::FrameId;
use pb_converge::DriveFault;
use pb_lan::Plan;
use pb_names::port_named;
use pb_net::Net;
use pb_step_script::read_frame;
use std::alloc::Global;

/// The end of the traces of several frames.
#[derive(Clone, Copy, Debug, PartialEq, Eq)]
pub(crate) enum Journey {
    /// All went as far as they go; or this one is in a forwarding loop, and the later ones were not injected.
    Told(Option<FrameId>),
    /// The plan lacks the customer port of the frame at this index.
    NoPort(usize),
    /// The digits at this index are no frame.
    NoFrame(usize),
}

/// Injects the frame of an entry, and appends its trace.
fn trace_entry(
    alloc: Global,
    lines: &mut Vec<TraceLine>,
    plan: &Plan,
    net: &mut Net,
    entry: &Entry,
) -> Result<Fate, DriveFault>
    requires sound { IsSound plan.now }
    requires plan { net.old.plan ≡ plan.now }
    requires kept { net.old.is_kept ≡ true }
    ensures plan { net.new.plan ≡ plan.now }
    ensures ok { IfOk result (λ fate. (more : List TraceLine) × (lines.new.items ≡ lines.old.items ++ more)
        × AnswersEntry plan.now entry.now fate net.old net.new more) }
    ensures err { IfErr result (λ fault. IsCaused 0 1 0 1000000 fault net.old) }
{
    let port = port_named(plan, entry.port.as_str());
    match read_frame(alloc, entry.hex.as_bytes())? {
        Some(frame) => trace_frame(alloc, lines, plan, net, port, frame),
        None => Ok(Fate::NoFrame),
    }
}

/// Injects frames one after the other, and appends their traces.
pub(crate) fn travel(
    alloc: Global,
    lines: &mut Vec<TraceLine>,
    plan: &Plan,
    net: &mut Net,
    entries: &[Entry],
) -> Result<Journey, DriveFault>
    requires sound { IsSound plan.now }
    requires plan { net.old.plan ≡ plan.now }
    requires kept { net.old.is_kept ≡ true }
    ensures plan { net.new.plan ≡ plan.now }
    ensures ok { IfOk result (λ journey. (more : List TraceLine) × (lines.new.items ≡ lines.old.items ++ more)
        × HasJourneyed plan.now entries.now journey net.old net.new more) }
    ensures err { IfErr result (λ fault. IsCaused 0 (length entries.now) 0 1000000 fault net.old) }
{
    for (index, entry) in entries.iter().enumerate() {
        match trace_entry(alloc, lines, plan, net, entry)? {
            Fate::Ended => {}
            Fate::GoesRound(number) => {
                let port = port_named(plan, entry.port.as_str());
                return Ok(Journey::Told(Some(FrameId { port, number })));
            }
            Fate::NoPort => return Ok(Journey::NoPort(index)),
            Fate::NoFrame => return Ok(Journey::NoFrame(index)),
        }
    }
    Ok(Journey::Told(None))
}
