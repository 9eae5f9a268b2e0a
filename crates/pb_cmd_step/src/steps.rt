//! A network, driven by lines of text.

ghost use Rattle.std.specs.Prelude.{◌≡◌, ◌≢◌, ◌<◌, ◌^◌, ◌++◌, ◌∷◌, [], ℕ, List, true, Some, string_bytes, IsErrOf};
ghost use Rattle.std.specs.Prelude.{OnOk, IfOk, IfErr};
ghost use Rattle.std.specs.Io.KnownBytes.{Appends, Keeps};
ghost use Rattle.pb_lan.specs.Events.{has_place};
ghost use Rattle.pb_lan.specs.Plans.{IsSound};
ghost use Rattle.pb_lan.specs.Records.{IsLawfulRecord};
ghost use Rattle.pb_relay.specs.Protocol.{spanning_tree};
ghost use Rattle.pb_lines.specs.Reader.{held, limit_of};
ghost use Rattle.pb_messages.specs.BadLines.{longest_line};
ghost use Rattle.pb_relay.specs.Settled.{TellsSettled};
ghost use Rattle.pb_cmd_step.specs.Modes.{HaveAnswered, PrintsLines, PrintsLinesBeginning, noted};
ghost use Rattle.pb_cmd_step.specs.Steps.{newest_at, HasGrown, StepAnswer, IsReport, IsAtLimit, PrintsSteps};
ghost use Rattle.pb_cmd_step.specs.Steps.{PrintsStepsBeginning, KeepsStepsOf, start_of};
ghost use Rattle.pb_report.specs.RecordTexts.{settled_line, IsRecordText};

use crate::lines::answer_line;
use crate::testing::{Mode, TestNotes};
use pb_frame::Memory;
use pb_history::Tallies;
use pb_lan::{Place, Plan, Record, Spanning, Step};
use pb_lines::{Found, LineReader};
use pb_messages::{CommandFault, MAX_LINE, put_bad, write_whole};
use pb_net::{Did, Net, NetFault};
use pb_report::{put_record, put_settled};
use pb_step_script::{Names, put_done, put_idle, put_no_such, read_line};
use std::alloc::Global;
use std::io::{Read, Write};

/// Returns the newest step of a place that has taken one.
fn newest(net: &Net, place: Place) -> &Step
    requires has { has_place net.now.plan place ≡ true }
    requires grown { HasGrown net.now.rec place }
    requires kept { net.now.is_kept ≡ true }
    ensures lawful { IsLawfulRecord spanning_tree net.now.plan net.now.rec }
    ensures newest { newest_at net.now.rec place ≡ Some result.now }
{
    let Some(step) = net.steps(place).last() else {
        unreachable!();
    };
    step
}

/// Appends the output of one line.
///
/// # Errors
///
/// `Steps` if the event's place has taken as many steps as the plan allows, `Memory` if an allocation failed.
pub(crate) fn answer_step(
    alloc: Global,
    limit: usize,
    number: u64,
    line: &[u8],
    names: &Names<'_>,
    net: &mut Net,
    out: &mut String,
) -> Result<(), CommandFault>
    requires sound { IsSound names.now.plan.now }
    requires plan { net.old.plan ≡ names.now.plan.now }
    requires kept { net.old.is_kept ≡ true }
    ensures plan { OnOk result (net.new.plan ≡ names.now.plan.now) }
    ensures kept { OnOk result (net.new.is_kept ≡ true) }
    ensures ok { OnOk result ((text : List ℕ) × (string_bytes out.new ≡ string_bytes out.old ++ text)
        × StepAnswer limit number line.now net.old net.new text) }
    ensures steps { IsErrOf result CommandFault.Steps → IsAtLimit limit net.old (line.now ∷ []) }
{
    let Some(event) = read_line(alloc, limit, names, line)? else {
        put_bad(out, number)?;
        return Ok(());
    };
    match net.step(event) {
        Ok(Did::Idle) => {
            put_idle(out)?;
            Ok(())
        }
        Ok(Did::Done(place)) => {
            put_done(alloc, out, names.plan, place, newest(net, place))?;
            Ok(())
        }
        Err(NetFault::NoSuch) => {
            put_no_such(out)?;
            Ok(())
        }
        Err(NetFault::StepLimit) => Err(CommandFault::Steps),
        Err(NetFault::Memory) => Err(CommandFault::Memory),
    }
}

/// Reads all lines and writes the output of each. The line reader and the network are new.
///
/// # Errors
///
/// `Read` if a read failed, `Write` if a write failed, else the faults of [`answer_line`].
fn answer_steps<R: Read, W: Write>(
    alloc: Global,
    mode: Mode,
    limit: usize,
    names: &Names<'_>,
    lines: &mut LineReader,
    net: &mut Net,
    notes: &mut TestNotes,
    reader: &mut R,
    writer: &mut W,
) -> Result<(), CommandFault>
    requires limit { limit < 2 ^ 32 }
    requires lines { limit_of lines.old ≡ limit }
    requires held { held lines.old ≡ [] }
    requires sound { IsSound names.now.plan.now }
    requires fresh { net.old ≡ start_of names.now.plan.now }
    ensures net { OnOk result (KeepsStepsOf names.now.plan.now net.new) }
    ensures ok { OnOk result (HaveAnswered mode limit names.now.plan.now (R.remaining reader.old) notes.old
        (W.contents writer.old) (W.contents writer.new) (noted net.new notes.new)) }
    ensures part { IfErr result (λ e. e ≢ CommandFault.Write →
        PrintsLinesBeginning e mode limit names.now.plan.now (R.remaining reader.old) notes.old
        (W.contents writer.old) (W.contents writer.new)) }
{
    let mut out = String::new(alloc);
    for number in 1..u64::MAX {
        let found = lines.next(reader)?;
        if found == Found::End {
            return Ok(());
        }
        out.clear();
        let line = lines.line();
        answer_line(
            alloc, mode, limit, number, line, names, net, notes, &mut out,
        )?;
        if writer.write_all(out.as_bytes()).is_err() {
            return Err(CommandFault::Write);
        }
        if found == Found::Last {
            return Ok(());
        }
    }
    Err(CommandFault::Read)
}

/// Appends the report of a record: the counts of its customer ports and links, whether its last shape is a forest for
/// each service, and whether its bridges have settled.
///
/// # Errors
///
/// `Memory` if an allocation failed.
fn put_report(
    alloc: Global,
    out: &mut String,
    plan: &Plan,
    tallies: &Tallies,
    settled: Option<bool>,
) -> Result<(), Memory>
    requires sound { IsSound plan.now }
    requires settled { TellsSettled plan.now tallies.now settled }
    ensures { OnOk result ((text : List ℕ) × (string_bytes out.new ≡ string_bytes out.old ++ text)
        × IsReport plan.now tallies.now text) }
{
    put_record(alloc, out, plan, tallies)?;
    put_settled(out, settled)
}

/// Writes the report of a record.
///
/// # Errors
///
/// `Write` if the write failed. `Memory` if an allocation failed, and then nothing was written. There are no other
/// errors.
fn write_report<W: Write>(
    alloc: Global,
    plan: &Plan,
    rec: &Record,
    settled: Option<bool>,
    writer: &mut W,
) -> Result<(), CommandFault>
    requires sound { IsSound plan.now }
    requires settled { TellsSettled plan.now rec.now settled }
    ensures ok { OnOk result ((text : List ℕ) × Appends (W.contents writer.old) (W.contents writer.new) text
        × IsReport plan.now rec.now text) }
    ensures steps { IfErr result (λ e. e ≢ CommandFault.Steps) }
    ensures part { IfErr result (λ e. e ≢ CommandFault.Write → Keeps (W.contents writer.old) (W.contents writer.new)) }
{
    let mut out = String::new(alloc);
    let tallies = Tallies::of(alloc, rec)?;
    put_report(alloc, &mut out, plan, &tallies, settled)?;
    write_whole(writer, out.as_bytes())
}

/// Writes the report of a record without the line that says whether its bridges have settled.
///
/// # Errors
///
/// `Write` if the write failed. `Memory` if an allocation failed, and then nothing was written. There are no other
/// errors.
fn write_record<W: Write>(
    alloc: Global,
    plan: &Plan,
    rec: &Record,
    writer: &mut W,
) -> Result<(), CommandFault>
    requires { IsSound plan.now }
    ensures ok { OnOk result ((text : List ℕ) × Appends (W.contents writer.old) (W.contents writer.new) text
        × IsRecordText plan.now rec.now text) }
    ensures steps { IfErr result (λ e. e ≢ CommandFault.Steps) }
    ensures part { IfErr result (λ e. e ≢ CommandFault.Write → Keeps (W.contents writer.old) (W.contents writer.new)) }
{
    let mut out = String::new(alloc);
    let tallies = Tallies::of(alloc, rec)?;
    put_record(alloc, &mut out, plan, &tallies)?;
    write_whole(writer, out.as_bytes())
}

/// Returns whether the bridges of a network have settled, or `None` if its plan gives the states of ports.
///
/// # Errors
///
/// `Memory` if an allocation failed. This happens only if the spanning tree decides the states.
fn look_settled(alloc: Global, plan: &Plan, net: &Net) -> Result<Option<bool>, Memory>
    requires { net.now.plan ≡ plan.now }
    ensures ok { IfOk result (TellsSettled plan.now net.now.rec) }
    ensures err { IfErr result (λ e. plan.now.spanning ≡ Spanning.Rstp) }
{
    match plan.spanning {
        Spanning::Fixed => Ok(None),
        Spanning::Rstp => net.settled(alloc),
    }
}

/// Writes the output of each line, and then the report of the network.
///
/// # Errors
///
/// The faults of [`run_steps`].
fn drive<R: Read, W: Write>(
    alloc: Global,
    mode: Mode,
    limit: usize,
    plan: &Plan,
    mut net: Net,
    notes: &mut TestNotes,
    reader: &mut R,
    writer: &mut W,
) -> Result<(), CommandFault>
    requires limit { limit < 2 ^ 32 }
    requires sound { IsSound plan.now }
    requires fresh { net ≡ start_of plan.now }
    ensures ok { OnOk result (PrintsLines mode limit plan.now (R.remaining reader.old) notes.old notes.new
        (W.contents writer.old) (W.contents writer.new)) }
    ensures part { IfErr result (λ e. e ≢ CommandFault.Write →
        PrintsLinesBeginning e mode limit plan.now (R.remaining reader.old) notes.old
        (W.contents writer.old) (W.contents writer.new)) }
{
    let names = Names::new(alloc, plan)?;
    let mut lines = LineReader::new(alloc, limit)?;
    answer_steps(
        alloc, mode, limit, &names, &mut lines, &mut net, notes, reader, writer,
    )?;
    let settled = look_settled(alloc, plan, &net);
    let rec = net.finish();
    match settled {
        Ok(settled) => write_report(alloc, plan, &rec, settled, writer),
        Err(_) => {
            write_record(alloc, plan, &rec, writer)?;
            Err(CommandFault::Memory)
        }
    }
}

/// Drives the network of a sound plan by the lines of a step script, each of which asks for one event. The output of
/// each line is written by one call of `write_all`, in order. The report follows at the end.
///
/// The output of a line is one line:
///
/// - the step of the event's place: `polled NAME K`, `fed`, `delivered HEX`, `relayed` with ports, `filtered REASON`,
///   `heard`, `sent HEX`, `ticked`, `set`, `taken K`, `lost K` or `put`
/// - `idle` if the event had nothing to do
/// - `no such` if the plan lacks the part that the line names
/// - `line N: bad` for an invalid line, an empty one, and one of more than [`MAX_LINE`] octets
///
/// The report has a line `port NAME entered N left N filtered N` for each customer port and a line `link NAME ab taken
/// N lost N ba taken N lost N` for each link, both sorted by name. Then comes `forest yes`, or `forest no` and a line
/// `loop NAME` for each service whose active links form a loop. If the spanning tree decides the states of ports, the
/// last line is `settled yes` or `settled no`.
///
/// # Errors
///
/// `Read` if a read failed. `Write` if a write failed, and then it is not known how much was written. `Steps` if the
/// place of an event has taken as many steps as the plan allows: the line after the last one with output asks for that
/// event. `Memory` if an allocation failed.
///
/// After any fault but `Write` the output of the first lines is written whole. Nothing follows it, with one exception:
/// if the spanning tree decides the states of ports, all lines were read and the fault is `Memory`, the report without
/// its last line may follow.
pub fn run_steps<R: Read, W: Write>(
    alloc: Global,
    plan: Plan,
    reader: &mut R,
    writer: &mut W,
) -> Result<(), CommandFault>
    requires sound { IsSound plan }
    ensures ok { OnOk result (PrintsSteps longest_line plan (R.remaining reader.old) (W.contents writer.old)
        (W.contents writer.new)) }
    ensures part { IfErr result (λ e. e ≢ CommandFault.Write →
        PrintsStepsBeginning e longest_line plan (R.remaining reader.old) (W.contents writer.old)
        (W.contents writer.new)) }
{
    let net = Net::new(alloc, plan.clone()?)?;
    let mut notes = TestNotes::new(alloc);
    drive(
        alloc,
        Mode::Script,
        MAX_LINE,
        &plan,
        net,
        &mut notes,
        reader,
        writer,
    )
}

/// Drives the network of a sound plan by a step script that is a test, as [`run_steps`] does, with two differences. An
/// empty line and one that begins with `#` is a comment, and has no output. A line `expect ANSWER` compares ANSWER with
/// the answer to the script line before it, and has no output. The notes receive the findings: a difference, and the
/// answers `no such` and `line N: bad`.
///
/// # Errors
///
/// The faults of [`run_steps`], with what they say about the written octets. The notes may have a part of the last
/// finding after the fault `Memory`.
pub fn test_steps<R: Read, W: Write>(
    alloc: Global,
    plan: Plan,
    reader: &mut R,
    writer: &mut W,
    notes: &mut TestNotes,
) -> Result<(), CommandFault>
    requires sound { IsSound plan }
    ensures ok { OnOk result (PrintsLines Mode.Test longest_line plan (R.remaining reader.old) notes.old notes.new
        (W.contents writer.old) (W.contents writer.new)) }
    ensures part { IfErr result (λ e. e ≢ CommandFault.Write →
        PrintsLinesBeginning e Mode.Test longest_line plan (R.remaining reader.old) notes.old
        (W.contents writer.old) (W.contents writer.new)) }
{
    let net = Net::new(alloc, plan.clone()?)?;
    drive(
        alloc,
        Mode::Test,
        MAX_LINE,
        &plan,
        net,
        notes,
        reader,
        writer,
    )
}
