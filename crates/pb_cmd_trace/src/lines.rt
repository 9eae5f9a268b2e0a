//! What a trace reports, in order.

ghost use Rattle.std.specs.Prelude.{◌≡◌, ◌++◌, ◌∷◌, [], OnOk};
ghost use Rattle.pb_cmd_trace.specs.Stations.{known_at};
ghost use Rattle.pb_cmd_trace.specs.declared.lines.TraceLine.TheVariants.{Entered, Others, Waits, Went};

use crate::onward::Onward;
use crate::stations::known_at;
use pb_frame::Memory;
use pb_lan::{Plan, Step};

/// One report of a trace, which is printed as a line.
#[derive(Debug, Drop)]
pub enum TraceLine {
    /// A frame was injected.
    Entered {
        /// The number of its customer port.
        port: u8,
        /// The Poll step of that port.
        step: Step,
    },
    /// The customer port still held another frame, and the frame was not injected.
    Waits,
    /// A place took a step with the frame or a copy of it. A Feed and a Put are not printed.
    Went {
        /// The event.
        event: Onward,
        /// The step.
        step: Step,
        /// Whether a bridge received the frame, and had learnt the station of its destination.
        known: bool,
    },
    /// So many other events were due after the frame and its copies had gone as far as they go. 0 is not printed.
    Others(u64),
}

/// Appends the report of a step, which is the last one of `steps`.
pub(crate) fn push_step(
    lines: &mut Vec<TraceLine>,
    plan: &Plan,
    steps: &[Step],
    event: Onward,
    step: &Step,
) -> Result<(), Memory>
    ensures { OnOk result (lines.new.items ≡ lines.old.items
        ++ Went event step.now (known_at plan.now steps.now event step.now) ∷ []) }
{
    let known = known_at(plan, steps, event, step);
    let step = step.clone()?;
    lines.push(TraceLine::Went { event, step, known })?;
    Ok(())
}

/// Appends the report of a frame that was just injected at a customer port.
pub(crate) fn push_entry(lines: &mut Vec<TraceLine>, port: u8, step: &Step) -> Result<(), Memory>
    ensures { OnOk result (lines.new.items ≡ lines.old.items ++ Entered port step.now ∷ []) }
{
    let step = step.clone()?;
    lines.push(TraceLine::Entered { port, step })?;
    Ok(())
}

/// Appends the report of a frame that was not injected, as its port still held another one.
pub(crate) fn push_waits(lines: &mut Vec<TraceLine>) -> Result<(), Memory>
    ensures { OnOk result (lines.new.items ≡ lines.old.items ++ Waits ∷ []) }
{
    lines.push(TraceLine::Waits)?;
    Ok(())
}

/// Appends the report of other events.
pub(crate) fn push_others(lines: &mut Vec<TraceLine>, others: u64) -> Result<(), Memory>
    ensures { OnOk result (lines.new.items ≡ lines.old.items ++ Others others ∷ []) }
{
    lines.push(TraceLine::Others(others))?;
    Ok(())
}
