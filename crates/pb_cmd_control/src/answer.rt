//! Replies of a control socket.

ghost use Rattle.std.specs.Prelude.{◌≡◌, ◌↔◌, ◌++◌, IsTrue, IfOk, IfSome, IfNone, List, ℕ, OnOk};
ghost use Rattle.std.specs.Io.KnownBytes.{Consumes};
ghost use Rattle.pb_cmd_control.specs.Answers.{AreWholeLines, EndsWithLine, IsAnswer, status_of};
ghost use Rattle.pb_cmd_control.specs.declared.answer.Verdict.{Verdict};

use crate::fault::ControlFault;
use std::alloc::Global;
use std::io::{ErrorKind, Read};

/// The number of octets that are read at a time.
const CHUNK: usize = 4096;

/// The number of octets after which a reply must have ended. The longest reply of a run has less than 400,000.
const LONGEST: usize = 524_288;

/// The result that the last line of a reply gives.
#[derive(Clone, Copy, Debug, PartialEq, Eq)]
pub enum Verdict {
    /// `ok`: the command is done.
    Done,
    /// `no such`: the plan lacks the link or the bridge, or both have the name, or the port leads to no other bridge.
    NoSuch,
    /// `bad`: there is no such command.
    Bad,
    /// `no answer`: the bridge did not give what was asked for.
    NoAnswer,
}

impl Verdict {
    /// Returns the exit status for a command with this result: 0 for `ok`, 4 for `no such`, `bad` and `no answer`.
    pub(crate) fn status(self) -> u8
        ensures { result ≡ status_of self }
    {
        match self {
            Verdict::Done => 0,
            Verdict::NoSuch | Verdict::Bad | Verdict::NoAnswer => 4,
        }
    }
}

/// Returns whether a text is empty or ends with a line feed.
fn are_whole_lines(text: &[u8]) -> bool
    ensures { IsTrue result ↔ AreWholeLines text.now }
{
    match text {
        [] => true,
        [.., last] => *last == b'\n',
    }
}

/// Returns whether a text consists of whole lines, of which this is the last one.
fn ends_with_line(text: &[u8], line: &[u8]) -> bool
    ensures { IsTrue result ↔ EndsWithLine line.now text.now }
{
    if text.len() < line.len() {
        return false;
    }
    let (lines, last) = text.split_at(text.len() - line.len());
    last == line && are_whole_lines(lines)
}

/// Returns the result of a text, if the text is a whole reply.
fn verdict_of(text: &[u8]) -> Option<Verdict>
    ensures some { IfSome result (λ verdict. IsAnswer verdict text.now) }
    ensures none { IfNone result ((verdict : Verdict) → IsAnswer verdict text.now → ⊥) }
{
    if ends_with_line(text, b"ok\n") {
        return Some(Verdict::Done);
    }
    if ends_with_line(text, b"no such\n") {
        return Some(Verdict::NoSuch);
    }
    if ends_with_line(text, b"bad\n") {
        return Some(Verdict::Bad);
    }
    if ends_with_line(text, b"no answer\n") {
        return Some(Verdict::NoAnswer);
    }
    None
}

/// Appends the octets of one read. An interrupted read appends nothing.
///
/// # Errors
///
/// `HungUp` if the other side has closed or the read failed, `Memory` if an allocation failed.
fn read_more<R: Read>(answers: &mut R, text: &mut Vec<u8>) -> Result<(), ControlFault>
    ensures { OnOk result ((more : List ℕ) × Consumes (R.remaining answers.old) (R.remaining answers.new) more
        × (text.new.items ≡ text.old.items ++ more)) }
{
    let mut octets = [0u8; CHUNK];
    match answers.read(&mut octets) {
        Ok(0) => Err(ControlFault::HungUp),
        Ok(count) => {
            text.extend_from_slice(&octets[..count])?;
            Ok(())
        }
        Err(e) if e.kind() == ErrorKind::Interrupted => Ok(()),
        Err(_) => Err(ControlFault::HungUp),
    }
}

/// A reply as it came, with its result.
#[derive(Drop)]
pub(crate) struct Answer {
    pub text: Vec<u8>,
    pub verdict: Verdict,
}

/// Reads the next reply.
///
/// # Errors
///
/// `HungUp` if the other side hangs up before the reply has ended, or sends more than [`LONGEST`] octets that are no
/// reply. `Memory` if an allocation failed.
pub(crate) fn read_answer<R: Read>(alloc: Global, answers: &mut R) -> Result<Answer, ControlFault>
    ensures came { IfOk result (λ answer.
        Consumes (R.remaining answers.old) (R.remaining answers.new) answer.text.items) }
    ensures ended { IfOk result (λ answer. IsAnswer answer.verdict answer.text.items) }
{
    let mut text = Vec::new(alloc);
    for _ in 0..u64::MAX {
        read_more(answers, &mut text)?;
        if let Some(verdict) = verdict_of(text.as_slice()) {
            return Ok(Answer { text, verdict });
        }
        if text.len() > LONGEST {
            break;
        }
    }
    Err(ControlFault::HungUp)
}
