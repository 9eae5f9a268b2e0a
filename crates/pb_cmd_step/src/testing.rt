//! Scripts that are tests: comments, expectations and findings.

ghost use Rattle.std.specs.Prelude.{◌≡◌, ℕ, List, IfOk, IfSome, IfNone, OnOk};
ghost use Rattle.pb_cmd_step.specs.Tests.{Compares, Expects, NotesAnswer, difference, got_words, is_comment};
ghost use Rattle.pb_cmd_step.specs.Tests.{no_notes, numbered_line, test_status, without_end};

use pb_frame::Memory;
use pb_messages::{cut, put_bad};
use pb_step_script::put_no_such;
use std::alloc::Global;
use std::marker::Model;

/// The exit status of a test without findings.
const PASSED: u8 = 0;

/// The exit status of a test with findings.
const FAILED: u8 = 4;

/// How the lines of a script are read.
#[derive(Clone, Copy, Debug, PartialEq, Eq)]
pub(crate) enum Mode {
    /// Each line asks for an event.
    Script,
    /// Comments are skipped, and expectations are compared with answers.
    Test,
}

/// The notes of a test: the latest answer, and the findings so far. Contracts see both as octets.
#[derive(Drop)]
pub struct TestNotes {
    /// The answer to the latest script line, without its LF. It is empty before the first one.
    answer: Vec<u8>,
    /// One line for each finding.
    findings: Vec<u8>,
}

impl Model for TestNotes {
    ghost use Rattle.pb_cmd_step.specs.Tests.{Notes};

    ghost Value = { Notes };

    ghost view = { λ n. record { answer = n.answer.items; findings = n.findings.items } };
}

impl TestNotes {
    /// Creates the notes of a test that begins.
    pub fn new(alloc: Global) -> TestNotes
        ensures { result ≡ no_notes }
    {
        TestNotes {
            answer: Vec::new(alloc),
            findings: Vec::new(alloc),
        }
    }

    /// Returns the findings, one line each: `line N: wanted ANSWER, got ANSWER` for an expectation that was not met,
    /// `line N: bad` for an invalid line, and `line N: no such` for a line that names an unknown part.
    pub fn findings(&self) -> &[u8]
        ensures { result.now ≡ self.now.findings }
    {
        self.findings.as_slice()
    }

    /// Returns the exit status of the test: 0 without findings, else 4.
    pub(crate) fn status(&self) -> u8
        ensures { result ≡ test_status self.now.findings }
    {
        if self.findings.is_empty() {
            PASSED
        } else {
            FAILED
        }
    }

    /// Compares the latest answer with the one that line `number` expects. A difference is a finding.
    ///
    /// # Errors
    ///
    /// `Memory` if an allocation failed. A part of the finding may be noted then.
    pub(crate) fn compare(
        &mut self,
        alloc: Global,
        number: u64,
        wanted: &[u8],
    ) -> Result<(), Memory>
        ensures { OnOk result (Compares number wanted.now self.old self.new) }
    {
        if self.answer.as_slice() == wanted {
            return Ok(());
        }
        let finding = difference(alloc, number, wanted, self.answer.as_slice())?;
        self.findings.extend_from_slice(finding.as_slice())?;
        Ok(())
    }

    /// Keeps the answer to line `number`, given with its LF. The answers `no such` and `line N: bad` are findings.
    ///
    /// # Errors
    ///
    /// `Memory` if an allocation failed. A part of the answer or finding may be noted then.
    pub(crate) fn keep(&mut self, alloc: Global, number: u64, text: &[u8]) -> Result<(), Memory>
        ensures { OnOk result (NotesAnswer number text.now self.old self.new) }
    {
        self.answer.clear();
        self.answer.extend_from_slice(without_end(text))?;
        let mut finding = String::new(alloc);
        put_no_such(&mut finding)?;
        if text == finding.as_bytes() {
            let named = numbered(alloc, number, text)?;
            self.findings.extend_from_slice(named.as_slice())?;
            return Ok(());
        }
        finding.clear();
        put_bad(&mut finding, number)?;
        if text == finding.as_bytes() {
            self.findings.extend_from_slice(text)?;
        }
        Ok(())
    }
}

/// Returns the finding that line `number` expected another answer.
///
/// # Errors
///
/// `Memory` if an allocation failed.
fn difference(alloc: Global, number: u64, wanted: &[u8], got: &[u8]) -> Result<Vec<u8>, Memory>
    ensures { IfOk result (λ finding. finding.items ≡ difference number wanted.now got.now) }
{
    let mut finding = format!(in alloc; "line {number}: wanted ")?.into_bytes();
    finding.extend_from_slice(wanted)?;
    finding.extend_from_slice(b", got ")?;
    finding.extend_from_slice(got_words(got))?;
    finding.push(b'\n')?;
    Ok(finding)
}

/// Returns an answer with the number of its line before it.
///
/// # Errors
///
/// `Memory` if an allocation failed.
fn numbered(alloc: Global, number: u64, text: &[u8]) -> Result<Vec<u8>, Memory>
    ensures { IfOk result (λ finding. finding.items ≡ numbered_line number text.now) }
{
    let mut finding = format!(in alloc; "line {number}: ")?.into_bytes();
    finding.extend_from_slice(text)?;
    Ok(finding)
}

/// Returns the answer for a finding: `no answer` if there is none.
fn got_words(answer: &[u8]) -> &[u8]
    ensures { result.now ≡ got_words answer.now }
{
    if answer.is_empty() {
        return b"no answer";
    }
    answer
}

/// Returns a text without its last octet, which is the LF of an answer.
fn without_end(text: &[u8]) -> &[u8]
    ensures { result.now ≡ without_end text.now }
{
    &text[..text.len().saturating_sub(1)]
}

/// Checks whether a line is a comment: it is empty or begins with `#`.
pub(crate) fn is_comment(line: &[u8]) -> bool
    ensures { result ≡ is_comment line.now }
{
    match line {
        [] => true,
        [first, ..] => *first == b'#',
    }
}

/// Returns the answer that a line `expect ANSWER` expects. None for any other line, and for one of more than `limit`
/// octets.
pub(crate) fn expected_in(limit: usize, line: &[u8]) -> Option<&[u8]>
    ensures some { IfSome result (λ wanted. Expects limit line.now wanted.now) }
    ensures none { IfNone result ((wanted : List ℕ) → Expects limit line.now wanted → ⊥) }
{
    if line.len() > limit {
        return None;
    }
    match cut(line) {
        Some((b"expect", wanted)) if !wanted.is_empty() => Some(wanted),
        _ => None,
    }
}
