//! The command `check`.

ghost use Rattle.std.specs.Prelude.{◌≡◌, ◌≢◌, ◌⊎◌, ◌++◌, List, ℕ, string_bytes, IfOk, IfErr, OnOk};
ghost use Rattle.std.specs.Io.KnownBytes.{Appends, Keeps};
ghost use Rattle.pb_lan.specs.Plans.{IsSound};
ghost use Rattle.pb_cmd_check.specs.Checks.{IsCheckText, plan_line};

use pb_frame::Memory;
use pb_lan::{Plan, start_shape};
use pb_messages::{CommandFault, write_whole};
use pb_report::{put_forest, put_refusal};
use pb_service::read_plan;
use std::alloc::Global;
use std::io::Write;

/// The exit status for a plan.
pub(crate) const TAKEN: u8 = 0;

/// The exit status for a refused file.
pub(crate) const REFUSED: u8 = 1;

/// Appends the line for a plan.
pub(crate) fn put_plan(out: &mut String, plan: &Plan) -> Result<(), Memory>
    ensures { OnOk result (string_bytes out.new ≡ string_bytes out.old ++ plan_line plan.now) }
{
    let bridges = plan.bridges.len();
    let links = plan.links.len();
    let services = plan.services.len();
    let ports = plan.customers.len();
    writeln!(
        out,
        "ok bridges {bridges} links {links} services {services} ports {ports}"
    )?;
    Ok(())
}

/// Appends the text for a plan file, and returns the exit status.
///
/// # Errors
///
/// `Memory` if an allocation failed.
fn put_check(alloc: Global, out: &mut String, file: &[u8]) -> Result<u8, Memory>
    ensures { IfOk result (λ status. (text : List ℕ) × (string_bytes out.new ≡ string_bytes out.old ++ text)
        × IsCheckText file.now status text) }
{
    match read_plan(alloc, file) {
        Ok((plan, _ports)) => {
            put_plan(out, &plan)?;
            let shape = start_shape(alloc, &plan)?;
            put_forest(alloc, out, &plan, &shape)?;
            Ok(TAKEN)
        }
        Err(fault) => {
            put_refusal(out, &fault)?;
            Ok(REFUSED)
        }
    }
}

/// Checks a plan file and writes the result. Returns the exit status: 0 for a plan, 1 for any other file.
///
/// For a plan the text is `ok bridges N links N services N ports N`, and then `forest yes`, or `forest no` and a line
/// `loop NAME` for each service whose forwarding ports form a loop at the start, sorted by name. For any other file it
/// is `plan: N TEXT` with the number and the text of the rule that the file breaks, and the key or name if there is
/// one.
///
/// # Errors
///
/// `Memory` if an allocation failed, and then nothing was written. `Write` if the write failed, and then it is not
/// known how much was written. There are no other errors.
///
/// # Examples
///
/// ```
/// use pb_cmd_check::run_check;
///
/// let mut output = Vec::new(rt.alloc());
/// let status = run_check(rt.alloc(), b"[network]\nageing = 9\n", &mut output)?;
/// assert_eq!(rt; status, 1);
/// let line = b"plan: 5 range network.ageing\n";
/// assert_eq!(rt; output.as_slice(), line.as_slice());
/// ```
pub fn run_check<W: Write>(alloc: Global, file: &[u8], writer: &mut W) -> Result<u8, CommandFault>
    ensures ok { IfOk result (λ status. (text : List ℕ) × Appends (W.contents writer.old) (W.contents writer.new) text
        × IsCheckText file.now status text) }
    ensures kinds { IfErr result (λ e. (e ≡ CommandFault.Write) ⊎ (e ≡ CommandFault.Memory)) }
    ensures none { IfErr result (λ e. e ≢ CommandFault.Write → Keeps (W.contents writer.old) (W.contents writer.new)) }
{
    let mut out = String::new(alloc);
    let status = put_check(alloc, &mut out, file)?;
    write_whole(writer, out.as_bytes())?;
    Ok(status)
}
