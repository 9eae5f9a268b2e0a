//! The command `check` with the forest after convergence.

ghost use Rattle.std.specs.Prelude.{◌≡◌, ◌≢◌, ◌++◌, List, ℕ, string_bytes, IfOk, IfErr, OnOk};
ghost use Rattle.std.specs.Io.KnownBytes.{Appends, Keeps};
ghost use Rattle.pb_lan.specs.Plans.{IsSound};
ghost use Rattle.pb_cmd_check.specs.Converged.{IsConvergedCheckText, IsConvergedText};

use crate::check::{REFUSED, TAKEN, put_plan};
use pb_converge::{convergence_of, fresh, put_convergence, shape_of};
use pb_lan::{Plan, start_shape};
use pb_messages::{CommandFault, write_whole};
use pb_report::{put_forest, put_refusal};
use pb_service::read_plan;
use std::alloc::Global;
use std::io::Write;

/// Drives the network of a plan to convergence, and appends whether its active links are a forest then.
///
/// # Errors
///
/// `Memory` if an allocation failed, `Steps` if a place would take too many steps or too many events are due.
fn put_converged(
    alloc: Global,
    out: &mut String,
    plan: &Plan,
    ticks: u32,
) -> Result<(), CommandFault>
    requires { IsSound plan.now }
    ensures { OnOk result ((text : List ℕ) × (string_bytes out.new ≡ string_bytes out.old ++ text)
        × IsConvergedText plan.now ticks text) }
{
    let mut net = fresh(alloc, plan)?;
    let convergence = convergence_of(alloc, &mut net, plan, ticks)?;
    let tallies = net.tallies()?;
    let shape = shape_of(alloc, plan, &tallies)?;
    put_convergence(out, convergence)?;
    out.push_str("converged ")?;
    put_forest(alloc, out, plan, &shape)?;
    Ok(())
}

/// Appends the text for a plan file, and returns the exit status.
///
/// # Errors
///
/// Those of [`put_converged`].
fn put_converged_check(
    alloc: Global,
    out: &mut String,
    file: &[u8],
    ticks: u32,
) -> Result<u8, CommandFault>
    ensures { IfOk result (λ status. (text : List ℕ) × (string_bytes out.new ≡ string_bytes out.old ++ text)
        × IsConvergedCheckText file.now ticks status text) }
{
    match read_plan(alloc, file) {
        Ok((plan, _ports)) => {
            put_plan(out, &plan)?;
            let shape = start_shape(alloc, &plan)?;
            put_forest(alloc, out, &plan, &shape)?;
            put_converged(alloc, out, &plan, ticks)?;
            Ok(TAKEN)
        }
        Err(fault) => {
            put_refusal(out, &fault)?;
            Ok(REFUSED)
        }
    }
}

/// Checks a plan file as [`run_check`](crate::run_check) does, and then drives the bridges of a plan to convergence,
/// with at most `ticks` ticks of each. Returns the exit status: 0 for a plan, 1 for any other file.
///
/// After the lines of `run_check` for a plan follow `converged ticks N` or `not converged ticks N`, if the bridges run
/// the rapid spanning tree, and then `converged forest yes`, or `converged forest no` and a line `loop NAME` for each
/// service whose active links form a loop after convergence, sorted by name.
///
/// # Errors
///
/// `Memory` if an allocation failed, also in a bridge, which then drops what it can't store. Else `Steps` if a place
/// would take more steps than the plan allows or more than 1,000,000,000 events are due. Nothing was written then.
/// `Write` if the write failed, and then it is not known how much was written. `Read` never comes.
pub fn run_converged_check<W: Write>(
    alloc: Global,
    file: &[u8],
    ticks: u32,
    writer: &mut W,
) -> Result<u8, CommandFault>
    ensures ok { IfOk result (λ status. (text : List ℕ) × Appends (W.contents writer.old) (W.contents writer.new) text
        × IsConvergedCheckText file.now ticks status text) }
    ensures none { IfErr result (λ e. e ≢ CommandFault.Write → Keeps (W.contents writer.old) (W.contents writer.new)) }
{
    let mut out = String::new(alloc);
    let status = put_converged_check(alloc, &mut out, file, ticks)?;
    write_whole(writer, out.as_bytes())?;
    Ok(status)
}
