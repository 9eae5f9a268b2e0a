//! A bridge, driven by lines of text.

ghost use Rattle.std.specs.Prelude.{◌≡◌, ◌≢◌, ◌<◌, ◌≤◌, ◌-◌, ◌^◌, ◌++◌, [], ℕ, List, length, true, IsErrOf, OnOk};
ghost use Rattle.std.specs.Prelude.{IfErr};
ghost use Rattle.std.specs.Io.KnownBytes.{Keeps};
ghost use Rattle.pb_lines.specs.Reader.{held, limit_of};
ghost use Rattle.pb_messages.specs.BadLines.{longest_line};
ghost use Rattle.pb_cmd_flat.specs.Answers.{Answer};
ghost use Rattle.pb_cmd_flat.specs.Receipts.{receipts};
ghost use Rattle.pb_cmd_flat.specs.Switches.{IsFlatPast, IsReadyAt};
ghost use Rattle.pb_cmd_flat.specs.Progress.{Prints, PrintsBeginning};

use crate::line::read_frame_line;
use crate::print::append_bad;
use crate::switch::Switch;
use bytes::BytesMut;
use pb_frame::{HexFault, hex_octets_in};
use pb_lines::{Found, LineReader};
use pb_messages::{CommandFault, MAX_LINE};
use std::alloc::Global;
use std::io::{Read, Write};

/// Appends the output of one line. Its frame takes its memory from the buffer `frames`, which is empty before and
/// after.
///
/// # Errors
///
/// The faults of [`Switch::handle`], and `Memory` if an allocation failed.
fn answer(
    limit: usize,
    ports: u8,
    number: u64,
    line: &[u8],
    frames: &mut BytesMut,
    switch: &mut Switch,
    out: &mut Vec<u8>,
) -> Result<(), CommandFault>
    requires frames { frames.old.items ≡ [] }
    requires ports { ports ≡ switch.old.ports }
    requires ready { switch.old.is_ready ≡ true }
    ensures frames { frames.new.items ≡ [] }
    ensures ready { OnOk result (IsReadyAt ports switch.new) }
    ensures steps { IsErrOf result CommandFault.Steps → 2 ^ 60 - 1 ≤ length (receipts switch.old.steps) }
    ensures past { OnOk result (IsFlatPast ports switch.old.steps → IsFlatPast ports switch.new.steps) }
    ensures ok { OnOk result ((text : List ℕ) × (out.new.items ≡ out.old.items ++ text)
        × Answer limit ports number line.now (receipts switch.old.steps) (receipts switch.new.steps) text) }
{
    if line.is_empty() {
        return Ok(());
    }
    let alloc = *frames.allocator();
    let Some(handed) = read_frame_line(limit, ports, line) else {
        append_bad(alloc, out, number)?;
        return Ok(());
    };
    // The frame is moved into the bridge from where it was made. In a value of `read_frame_line` it would be moved
    // twice more.
    match hex_octets_in(frames, handed.digits) {
        Ok(frame) => switch.handle(alloc, handed.port, frame, handed.digits, out)?,
        Err(HexFault::Memory) => return Err(CommandFault::Memory),
        Err(HexFault::Digit) => append_bad(alloc, out, number)?,
        Err(HexFault::Odd) => append_bad(alloc, out, number)?,
    }
    Ok(())
}

/// Flushes the writer.
///
/// # Errors
///
/// `Write` if that failed.
fn finish<W: Write>(writer: &mut W) -> Result<(), CommandFault>
    ensures ok { OnOk result (Keeps (W.contents writer.old) (W.contents writer.new)) }
    ensures err { IfErr result (λ e. e ≡ CommandFault.Write) }
{
    if writer.flush().is_err() {
        return Err(CommandFault::Write);
    }
    Ok(())
}

/// Reads all lines and writes the output of each. The line reader and the bridge have read nothing before.
///
/// # Errors
///
/// The faults of [`run_flat`].
fn answer_lines<R: Read, W: Write>(
    alloc: Global,
    limit: usize,
    ports: u8,
    lines: &mut LineReader,
    switch: &mut Switch,
    reader: &mut R,
    writer: &mut W,
) -> Result<(), CommandFault>
    requires limit { limit < 2 ^ 32 }
    requires lines { limit_of lines.old ≡ limit }
    requires held { held lines.old ≡ [] }
    requires ports { switch.old.ports ≡ ports }
    requires ready { switch.old.is_ready ≡ true }
    requires fresh { switch.old.steps ≡ [] }
    ensures ok { OnOk result (Prints limit ports (R.remaining reader.old) (W.contents writer.old)
        (W.contents writer.new)) }
    ensures part { IfErr result (λ e. e ≢ CommandFault.Write →
        PrintsBeginning e limit ports (R.remaining reader.old) (W.contents writer.old) (W.contents writer.new)) }
{
    let mut out = Vec::new(alloc);
    let mut frames = BytesMut::new(alloc);
    for number in 1..u64::MAX {
        let found = lines.next(reader)?;
        if found == Found::End {
            finish(writer)?;
            return Ok(());
        }
        out.clear();
        let line = lines.line();
        answer(limit, ports, number, line, &mut frames, switch, &mut out)?;
        if writer.write_all(out.as_slice()).is_err() {
            return Err(CommandFault::Write);
        }
        if found == Found::Last {
            finish(writer)?;
            return Ok(());
        }
    }
    Err(CommandFault::Read)
}

/// Runs a new bridge over lines, as [`run_flat`] does with a bridge of its own. The bridge remains with the caller.
///
/// # Errors
///
/// The faults of [`run_flat`].
pub fn run_flat_on<R: Read, W: Write>(
    alloc: Global,
    switch: &mut Switch,
    reader: &mut R,
    writer: &mut W,
) -> Result<(), CommandFault>
    requires ready { switch.old.is_ready ≡ true }
    requires fresh { switch.old.steps ≡ [] }
    ensures ok { OnOk result (Prints longest_line switch.old.ports (R.remaining reader.old) (W.contents writer.old)
        (W.contents writer.new)) }
    ensures part { IfErr result (λ e. e ≢ CommandFault.Write →
        PrintsBeginning e longest_line switch.old.ports (R.remaining reader.old) (W.contents writer.old)
        (W.contents writer.new)) }
{
    let mut lines = LineReader::new(alloc, MAX_LINE)?;
    let ports = switch.ports();
    answer_lines(alloc, MAX_LINE, ports, &mut lines, switch, reader, writer)
}

/// Runs one bridge (IEEE 802.1Q) over lines. It has 2 to 16 customer ports of one service. The output of each line is
/// written by one call of `write_all`, in order.
///
/// The line `in PORT HEX` brings a frame to a port. Its output is one line `out PORT HEX` for each port at which the
/// frame leaves, in rising order, or one line `filtered PORT REASON`. An empty line has no output. Any other line has
/// the output `line N: bad`, and so has a line of more than [`MAX_LINE`] octets.
///
/// # Errors
///
/// `Read` if a read failed. `Write` if a write failed, and then it is not known how much was written. `Steps` if the
/// bridge has reached its limit of steps: at least 2^60-1 lines brought a frame then. `Memory` if an allocation failed.
/// After any fault but `Write`, the output of the first lines is written whole, and nothing else is.
///
/// # Examples
///
/// ```
/// use pb_cmd_flat::run_flat;
///
/// let mut input = b"in 1 ffffffffffff0200000000010800\nhello\n".as_slice();
/// let mut output = Vec::new(rt.alloc());
/// run_flat(rt.alloc(), 2, &mut input, &mut output)?;
/// let lines = b"out 2 ffffffffffff0200000000010800\nline 2: bad\n";
/// assert_eq!(rt; output.as_slice(), lines.as_slice());
/// ```
pub fn run_flat<R: Read, W: Write>(
    alloc: Global,
    ports: u8,
    reader: &mut R,
    writer: &mut W,
) -> Result<(), CommandFault>
    requires { (2 ≤ ports) × (ports ≤ 16) }
    ensures ok { OnOk result (Prints longest_line ports (R.remaining reader.old) (W.contents writer.old)
        (W.contents writer.new)) }
    ensures part { IfErr result (λ e. e ≢ CommandFault.Write →
        PrintsBeginning e longest_line ports (R.remaining reader.old) (W.contents writer.old) (W.contents writer.new)) }
{
    let mut switch = Switch::new(alloc, ports)?;
    run_flat_on(alloc, &mut switch, reader, writer)
}
