//! The loops over which a lossless run may stall.

ghost use Rattle.pb_lan.specs.Plans.{IsSound};

use pb_frame::Memory;
use pb_lan::{Plan, start_shape};
use pb_messages::write_whole;
use pb_report::put_forest;
use std::alloc::Global;
use std::io::Write;

/// Returns a line for each service whose forwarding ports form a loop at the start, sorted by name.
///
/// # Errors
///
/// `Memory` if an allocation failed.
fn stall_lines(alloc: Global, plan: &Plan) -> Result<String, Memory>
    requires { IsSound plan.now }
{
    let shape = start_shape(alloc, plan)?;
    let mut loops = String::new(alloc);
    put_forest(alloc, &mut loops, plan, &shape)?;
    let mut lines = String::new(alloc);
    for line in loops.as_str().lines() {
        if let Some(name) = line.strip_prefix("loop ") {
            writeln!(
                lines,
                "warning: service {name} has a loop at start: a lossless run may stall"
            )?;
        }
    }
    Ok(lines)
}

/// Writes a line to `errors` for each service whose forwarding ports form a loop at the start. Frames can wait for each
/// other there in a lossless run. A failed write or allocation is ignored.
pub(crate) fn show_stalls<E: Write>(alloc: Global, plan: &Plan, errors: &mut E)
    requires { IsSound plan.now }
{
    if let Ok(lines) = stall_lines(alloc, plan) {
        if !lines.is_empty() {
            let _ = write_whole(errors, lines.as_bytes());
        }
    }
}
