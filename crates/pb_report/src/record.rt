//! The printed report of a record.

ghost use Rattle.std.specs.Prelude.{◌≡◌, ◌++◌, List, ℕ, string_bytes, OnOk};
ghost use Rattle.pb_lan.specs.Plans.{IsSound};
ghost use Rattle.pb_report.specs.RecordTexts.{settled_line, IsRecordText};

use crate::forests::put_forest;
use pb_frame::Memory;
use pb_history::{Tallies, last_shape};
use pb_lan::Plan;
use pb_step_script::put_counts;
use std::alloc::Global;

/// Appends the report of a record: a line for each customer port and each link, sorted by name, and then whether its
/// last shape is a forest for each service, as [`put_forest`] prints it. The plan is sound.
///
/// # Errors
///
/// `Memory` if an allocation failed.
pub fn put_record(
    alloc: Global,
    out: &mut String,
    plan: &Plan,
    tallies: &Tallies,
) -> Result<(), Memory>
    requires { IsSound plan.now }
    ensures { OnOk result ((text : List ℕ) × (string_bytes out.new ≡ string_bytes out.old ++ text)
        × IsRecordText plan.now tallies.now text) }
{
    put_counts(alloc, out, plan, tallies)?;
    let shape = last_shape(alloc, plan, tallies)?;
    put_forest(alloc, out, plan, &shape)
}

/// Appends `settled yes` or `settled no`. Appends nothing for `None`, which means that the plan gives the states of
/// ports.
///
/// # Errors
///
/// `Memory` if an allocation failed.
pub fn put_settled(out: &mut String, answer: Option<bool>) -> Result<(), Memory>
    ensures { OnOk result (string_bytes out.new ≡ string_bytes out.old ++ settled_line answer) }
{
    match answer {
        None => {}
        Some(true) => out.push_str("settled yes\n")?,
        Some(false) => out.push_str("settled no\n")?,
    }
    Ok(())
}
