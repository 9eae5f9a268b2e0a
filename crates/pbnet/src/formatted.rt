//! Reports as text, JSON or CSV.

ghost use Rattle.std.specs.Prelude.{◌≡◌};
ghost use Rattle.std.specs.Process.{exit_status};

use crate::telling::{FAULT, tell_on};
use pb_cli::{ReportFormat, VERSION};
use pb_export::{Form, FormatFault, Head, Table, csv_of, json_of};
use pb_messages::CommandFault;
use std::fmt::Display;
use std::io::Write;
use std::process::ExitCode;
use std::{io, str};

/// Returns whether a text is the line for a plan file that is refused because an allocation failed.
fn is_memory_refusal(text: &[u8]) -> bool {
    text == b"plan: 11 memory\n".as_slice()
}

/// Returns whether a line of a script's report says that memory was short. The lines of ports, links, loops and a
/// refused plan hold names of the plan, and say no such thing.
fn is_about_memory(line: &str) -> bool {
    let about_names = ["port ", "link ", "loop ", "plan: "];
    !about_names.iter().any(|lead| line.starts_with(*lead))
        && line.split(' ').any(|word| word == "memory")
}

/// Returns the members that the document of a command begins with, for the plan file at a path.
pub(crate) fn head<'a>(command: &'a str, plan: &'a str) -> Head<'a>
    ensures command { result.command.now ≡ command.now }
    ensures plan { result.plan.now ≡ plan.now }
{
    Head {
        command,
        version: VERSION,
        plan,
        old_plan: None,
    }
}

/// Prints the JSON document of a command that has a fault and no plan, without an allocation. Returns the exit status
/// 3. If the write fails, nothing reports that.
pub(crate) fn tell_document(rt: &impl Print, command: &str, fault: impl Display + Drop) -> ExitCode
    ensures { exit_status result ≡ 3 }
{
    let _ = println!(rt;
        "{{\"command\": \"{command}\", \"version\": \"{VERSION}\", \"plan\": null, \"fault\": \"{fault}\"}}"
    );
    ExitCode::from(FAULT)
}

/// The writer of a report: standard output for text, memory for a document.
#[derive(Drop)]
pub(crate) struct Output<'a, R> {
    rt: &'a R,
    /// The form of the report.
    format: ReportFormat,
    /// The members that a document begins with.
    head: Head<'a>,
    /// The octets written so far, if the report becomes a document.
    kept: Vec<u8>,
    /// Whether a plan file was refused because an allocation failed.
    lacks_memory: bool,
    /// Whether an allocation for octets of a document failed.
    has_gap: bool,
}

impl<'a, R: Print + AllocGlobal> Output<'a, R> {
    /// Creates the writer of a report in this form.
    pub(crate) fn new(rt: &'a R, format: ReportFormat, head: Head<'a>) -> Output<'a, R> {
        Output {
            rt,
            format,
            head,
            kept: Vec::new(rt.alloc()),
            lacks_memory: false,
            has_gap: false,
        }
    }

    /// Returns the document of the report in memory: CSV if the form is CSV and there is a table, else JSON.
    ///
    /// # Errors
    ///
    /// `FormatFault` if the report is not valid UTF-8 or has no document, or if an allocation failed.
    fn document(&self, form: &Form, table: Option<&Table>) -> Result<Vec<u8>, FormatFault> {
        let Ok(text) = str::from_utf8(self.kept.as_slice()) else {
            return Err(FormatFault::Unread);
        };
        if let (ReportFormat::Csv, Some(table)) = (self.format, table) {
            return csv_of(self.rt.alloc(), form, table, text);
        }
        let mut json = json_of(self.rt.alloc(), form, &self.head, text)?;
        json.push('\n')?;
        Ok(json.into_bytes())
    }

    /// Returns whether memory was short in the report of a script that is to become a table: it says so in replies,
    /// which a table lacks.
    pub(crate) fn hides_memory(&self) -> bool {
        match str::from_utf8(self.kept.as_slice()) {
            Ok(text) => self.format == ReportFormat::Csv && text.lines().any(is_about_memory),
            Err(_) => false,
        }
    }

    /// Returns how a run ended, if it is to become a table, which does not say so, and it was neither drained nor
    /// stopped.
    pub(crate) fn hidden_end(&self) -> Option<&str> {
        let Ok(text) = str::from_utf8(self.kept.as_slice()) else {
            return None;
        };
        let mut lines = text.lines();
        let line = lines.next()?;
        let is_cut_short = line.starts_with("ended ")
            && line != "ended drained"
            && line != "ended stopped";
        if self.format == ReportFormat::Csv && is_cut_short {
            Some(line)
        } else {
            None
        }
    }

    /// Returns the exit status of the command, or 3 after the line `fault: memory` if a plan file was refused because
    /// an allocation failed.
    pub(crate) fn ended(&mut self, status: ExitCode) -> ExitCode {
        if self.lacks_memory {
            return tell_on(self, CommandFault::Memory);
        }
        status
    }

    /// Prints the document of the report, if its form is not text. Returns the exit status of the command, or 3 if an
    /// allocation failed, or if the document cannot be made or printed.
    pub(crate) fn end(mut self, form: &Form, table: Option<&Table>, status: ExitCode) -> ExitCode {
        let status = self.ended(status);
        if self.format == ReportFormat::Text {
            return status;
        }
        if self.has_gap {
            return self.fail(CommandFault::Memory);
        }
        match self.document(form, table) {
            Ok(document) if io::writer(self.rt).write_all(document.as_slice()).is_ok() => status,
            Ok(_) => self.fail(CommandFault::Write),
            Err(fault) => self.fail(fault),
        }
    }

    /// Prints a document with this fault and no plan, if the form is JSON. Returns the exit status 3.
    fn fail(&self, fault: impl Display + Drop) -> ExitCode {
        if self.format == ReportFormat::Json {
            return tell_document(self.rt, self.head.command, fault);
        }
        ExitCode::from(FAULT)
    }
}

impl<R: Print> Write for Output<'_, R> {
    fn write(&mut self, octets: &[u8]) -> io::Result<usize> {
        if is_memory_refusal(octets) {
            self.lacks_memory = true;
        }
        match self.format {
            ReportFormat::Text => io::writer(self.rt).write(octets),
            ReportFormat::Json | ReportFormat::Csv => {
                let written = self.kept.write(octets);
                self.has_gap = self.has_gap || written.is_err();
                written
            }
        }
    }

    fn flush(&mut self) -> io::Result<()> {
        Ok(())
    }
}
