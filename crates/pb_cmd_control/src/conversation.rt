//! Conversations with a control socket.

ghost use Rattle.std.specs.Prelude.{◌≡◌, ◌≢◌, ◌++◌, ◌∷◌, [], IfOk, IfErr, OnOk};
ghost use Rattle.std.specs.Io.KnownBytes.{Appends, Keeps};
ghost use Rattle.pb_cmd_control.specs.Conversations.{HasConversed, IsPassedOn, PrintsAnswers, sent_line};

use crate::answer::{Verdict, read_answer};
use crate::fault::ControlFault;
use pb_lines::{Found, LineReader};
use pb_messages::write_whole;
use std::alloc::Global;
use std::io::{Read, Write};

/// The maximum length of a command in octets. A longer line is sent up to one octet more, and the run replies `bad`.
const LONGEST: usize = 256;

/// Sends a command as a line.
///
/// # Errors
///
/// `HungUp` if the write failed, `Memory` if an allocation failed.
fn send<Q: Write>(alloc: Global, command: &[u8], requests: &mut Q) -> Result<(), ControlFault>
    ensures sent { OnOk result (Appends (Q.contents requests.old) (Q.contents requests.new) (sent_line command.now)) }
    ensures kinds { IfErr result (λ e. e ≢ ControlFault.Output) }
{
    let mut line = Vec::from_slice(alloc, command)?;
    line.push(b'\n')?;
    match requests.write_all(line.as_slice()) {
        Ok(()) => Ok(()),
        Err(_) => Err(ControlFault::HungUp),
    }
}

/// Prints a reply and flushes the output.
///
/// # Errors
///
/// `Output` if either failed.
fn print<W: Write>(text: &[u8], out: &mut W) -> Result<(), ControlFault>
    ensures ok { OnOk result (Appends (W.contents out.old) (W.contents out.new) text.now) }
    ensures kinds { IfErr result (λ e. e ≡ ControlFault.Output) }
{
    match write_whole(out, text) {
        Ok(()) => Ok(()),
        Err(_) => Err(ControlFault::Output),
    }
}

/// Sends a command, reads the whole reply and prints it. Returns the result of the reply.
///
/// # Errors
///
/// The faults of [`converse`].
fn ask<Q: Write, R: Read, W: Write>(
    alloc: Global,
    command: &[u8],
    requests: &mut Q,
    answers: &mut R,
    out: &mut W,
) -> Result<Verdict, ControlFault>
    ensures sent { OnOk result (Appends (Q.contents requests.old) (Q.contents requests.new) (sent_line command.now)) }
    ensures passed_on { IfOk result (λ verdict. IsPassedOn verdict
        (R.remaining answers.old) (R.remaining answers.new) (W.contents out.old) (W.contents out.new)) }
    ensures none { IfErr result (λ e. e ≢ ControlFault.Output → Keeps (W.contents out.old) (W.contents out.new)) }
{
    send(alloc, command, requests)?;
    let answer = read_answer(alloc, answers)?;
    print(answer.text.as_slice(), out)?;
    Ok(answer.verdict)
}

/// Sends each line of the input as a command, and prints the reply before it reads the next line. A line of more than
/// 256 octets is sent up to its 257th, and a run replies `bad` to it.
///
/// Returns the exit status: 0 if the result of each command is `ok`, else 4.
///
/// # Errors
///
/// `HungUp` if the other side hangs up before its reply has ended, or sends more than 524,288 octets that are no reply.
/// `Input` if the input can't be read. `Memory` if an allocation failed. After these the replies to the earlier
/// commands are printed whole, and nothing else. `Output` if a reply can't be printed.
pub fn converse<I: Read, Q: Write, R: Read, W: Write>(
    alloc: Global,
    input: &mut I,
    requests: &mut Q,
    answers: &mut R,
    out: &mut W,
) -> Result<u8, ControlFault>
    ensures ok { IfOk result (λ status. HasConversed status (I.remaining input.old)
        (Q.contents requests.old) (Q.contents requests.new) (R.remaining answers.old) (R.remaining answers.new)
        (W.contents out.old) (W.contents out.new)) }
    ensures part { IfErr result (λ e.
        e ≢ ControlFault.Output → PrintsAnswers (W.contents out.old) (W.contents out.new)) }
{
    let mut lines = LineReader::new(alloc, LONGEST)?;
    let mut status = 0;
    for _ in 0..u64::MAX {
        let found = lines.next(input)?;
        if found == Found::End {
            return Ok(status);
        }
        let verdict = ask(alloc, lines.line(), requests, answers, out)?;
        status = status.max(verdict.status());
        if found == Found::Last {
            return Ok(status);
        }
    }
    Err(ControlFault::Input)
}
