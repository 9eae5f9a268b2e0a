//! What a command reports on standard error, for its document.

use crate::telling::tell_on;
use pb_cli::ReportFormat;
use pb_messages::CommandFault;
use std::alloc::Global;
use std::io;
use std::io::Write;
use std::process::ExitCode;

/// A writer that passes everything on to another, and keeps it.
#[derive(Drop)]
pub(crate) struct Noted<'a, E> {
    errors: &'a mut E,
    /// The octets written so far.
    kept: Vec<u8>,
    /// Whether an allocation for these failed.
    has_gap: bool,
}

impl<'a, E: Write> Noted<'a, E> {
    /// Creates the writer.
    pub(crate) fn new(alloc: Global, errors: &'a mut E) -> Noted<'a, E> {
        Noted {
            errors,
            kept: Vec::new(alloc),
            has_gap: false,
        }
    }

    /// Writes what was kept to the writer of a report that becomes a JSON document. Returns the exit status of the
    /// command, or 3 after a line `fault:` if an allocation failed.
    pub(crate) fn end<W: Write>(
        &self,
        format: ReportFormat,
        out: &mut W,
        status: ExitCode,
    ) -> ExitCode {
        if format != ReportFormat::Json {
            return status;
        }
        if self.has_gap || out.write_all(self.kept.as_slice()).is_err() {
            return tell_on(out, CommandFault::Memory);
        }
        status
    }
}

impl<E: Write> Write for Noted<'_, E> {
    fn write(&mut self, octets: &[u8]) -> io::Result<usize> {
        if self.kept.write_all(octets).is_err() {
            self.has_gap = true;
        }
        self.errors.write_all(octets)?;
        Ok(octets.len())
    }

    fn flush(&mut self) -> io::Result<()> {
        self.errors.flush()
    }
}
