//! Step scripts over plan files.

ghost use Rattle.std.specs.Prelude.{◌≡◌, ◌≢◌, ◌⊎◌, ◌++◌, List, ℕ, string_bytes, IfOk, IfErr, OnOk};
ghost use Rattle.std.specs.Io.KnownBytes.{Appends};
ghost use Rattle.pb_lan.specs.Plans.{IsSound};
ghost use Rattle.pb_report.specs.Refusals.{IsRefusalText, refusal_line};
ghost use Rattle.pb_cmd_step.specs.Scripts.{PrintsScript, PrintsScriptBeginning, PrintsTest, PrintsTestBeginning};
ghost use Rattle.pb_service.specs.declared.fault.PlanFault.{PlanFault};

use crate::steps::{run_steps, test_steps};
use crate::testing::TestNotes;
use pb_messages::CommandFault;
use pb_report::write_refusal;
use pb_service::read_plan;
use std::alloc::Global;
use std::io::{Read, Write};

/// The exit status after a script was read to its end.
const DRIVEN: u8 = 0;

/// The exit status for a refused plan file.
const REFUSED: u8 = 1;

/// Drives the network of a plan file by the lines of a step script, as [`run_steps`] does, and returns the exit status
/// 0. If the file is no plan, it writes the rule that the file breaks, as `check` does, and returns 1.
///
/// # Errors
///
/// If the file is a plan, the faults of [`run_steps`], with what they say about the written octets. `Memory` also if an
/// allocation failed before the first line, and then nothing was written.
///
/// If the file is no plan, `Memory` if an allocation failed, and then nothing was written. `Write` if the write failed,
/// and then it is not known how much was written.
pub fn run_script<R: Read, W: Write>(
    alloc: Global,
    file: &[u8],
    reader: &mut R,
    writer: &mut W,
) -> Result<u8, CommandFault>
    ensures ok { IfOk result (λ status. PrintsScript file.now status (R.remaining reader.old) (W.contents writer.old)
        (W.contents writer.new)) }
    ensures part { IfErr result (λ e. e ≢ CommandFault.Write →
        PrintsScriptBeginning e file.now (R.remaining reader.old) (W.contents writer.old) (W.contents writer.new)) }
{
    match read_plan(alloc, file) {
        Ok((plan, _ports)) => {
            run_steps(alloc, plan, reader, writer)?;
            Ok(DRIVEN)
        }
        Err(fault) => {
            write_refusal(alloc, &fault, writer)?;
            Ok(REFUSED)
        }
    }
}

/// Drives the network of a plan file by the lines of a script that is a test, as [`test_steps`] does. Returns the exit
/// status: 0, or 4 if the notes have a finding. If the file is no plan, it writes the rule that the file breaks, as
/// `check` does, and returns 1. Earlier notes are dropped.
///
/// # Errors
///
/// The faults of [`run_script`], with what they say about the written octets. The notes may have a part of the last
/// finding after the fault `Memory`.
pub fn run_test<R: Read, W: Write>(
    alloc: Global,
    file: &[u8],
    reader: &mut R,
    writer: &mut W,
    notes: &mut TestNotes,
) -> Result<u8, CommandFault>
    ensures ok { IfOk result (λ status. PrintsTest file.now status (R.remaining reader.old) notes.new.findings
        (W.contents writer.old) (W.contents writer.new)) }
    ensures part { IfErr result (λ e. e ≢ CommandFault.Write →
        PrintsTestBeginning e file.now (R.remaining reader.old) (W.contents writer.old) (W.contents writer.new)) }
{
    *notes = TestNotes::new(alloc);
    match read_plan(alloc, file) {
        Ok((plan, _ports)) => {
            test_steps(alloc, plan, reader, writer, notes)?;
            Ok(notes.status())
        }
        Err(refusal) => {
            write_refusal(alloc, &refusal, writer)?;
            Ok(REFUSED)
        }
    }
}
