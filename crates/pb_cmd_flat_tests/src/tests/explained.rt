//! The guarantee of a run over lines, as a caller may use it.

ghost use Rattle.std.specs.Prelude.{◌≡◌, ◌≢◌, ◌≤◌, ◌++◌, ℕ, List, [], length, IfErr, IfSome, OnOk};
ghost use Rattle.std.specs.Io.KnownBytes.{Appends};
ghost use Rattle.pb_cmd_flat.specs.Answers.{Answers};
ghost use Rattle.pb_cmd_flat.specs.Progress.{least_frames};
ghost use Rattle.pb_cmd_flat.specs.Receipts.{receipts};
ghost use Rattle.pb_cmd_flat.specs.Switches.{IsFlatPast};
ghost use Rattle.pb_lan.specs.declared.step.Step.{Step};
ghost use Rattle.pb_lines.specs.Lines.{lines_of};
ghost use Rattle.pb_messages.specs.BadLines.{longest_line};

use pb_cmd_flat::run_flat;
use pb_messages::CommandFault;
use std::alloc::Global;
use std::io::{Read, Write};

/// Calls `run_flat`. Its contract says that one past of a bridge with so many ports explains the whole output line by
/// line, or, after a fault, the output before it.
pub(super) fn explained<R: Read, W: Write>(
    alloc: Global,
    ports: u8,
    reader: &mut R,
    writer: &mut W,
) -> Result<(), CommandFault>
    requires { (2 ≤ ports) × (ports ≤ 16) }
    ensures whole { OnOk result (IfSome (R.remaining reader.old) (λ octets. (text : List ℕ)
        × Appends (W.contents writer.old) (W.contents writer.new) text
        × (steps : List Step) × IsFlatPast ports steps
        × Answers longest_line ports 1 (lines_of octets) [] (receipts steps) text)) }
    ensures part { IfErr result (λ e. e ≢ CommandFault.Write →
        IfSome (R.remaining reader.old) (λ octets. (text : List ℕ)
        × Appends (W.contents writer.old) (W.contents writer.new) text
        × (front : List (List ℕ)) × (back : List (List ℕ)) × (lines_of octets ≡ front ++ back)
        × (steps : List Step) × IsFlatPast ports steps × Answers longest_line ports 1 front [] (receipts steps) text
        × (least_frames e ≤ length (receipts steps)))) }
{
    run_flat(alloc, ports, reader, writer)
}
