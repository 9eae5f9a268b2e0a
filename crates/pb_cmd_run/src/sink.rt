//! Outputs of ports over captures.

ghost use Rattle.std.specs.Prelude.{◌≡◌};

use crate::cut::WriteError;
use crate::pipe::Pipe;
use std::alloc::Global;
use std::fs::File;
use std::io;
use std::io::{ErrorKind, Read, Write};
use std::sync::Arc;

/// The output of a port over captures.
#[derive(Drop)]
pub(crate) enum Sink {
    /// A file, and the error with which a write to it failed.
    File(File, Arc<WriteError, Global>),
    /// A pipe or a device, and the error with which a write to it failed.
    Pipe(Pipe, Arc<WriteError, Global>),
    /// Nowhere: all octets are taken.
    Nowhere,
}

/// Keeps the error of a write, if it failed. Returns the result of the write.
fn noted(written: io::Result<usize>, error: &WriteError) -> io::Result<usize>
    ensures { result ≡ written }
{
    if let Err(e) = &written {
        error.note(e);
    }
    written
}

impl Write for Sink {
    fn write(&mut self, buf: &[u8]) -> io::Result<usize> {
        match self {
            Sink::File(file, error) => noted(file.write(buf), error),
            Sink::Pipe(pipe, error) => noted(pipe.write(buf), error),
            Sink::Nowhere => Ok(buf.len()),
        }
    }

    fn flush(&mut self) -> io::Result<()> {
        Ok(())
    }
}

impl Read for Sink {
    /// Returns `Unsupported`. An output can't be read.
    fn read(&mut self, _buf: &mut [u8]) -> io::Result<usize> {
        Err(io::Error::from(ErrorKind::Unsupported))
    }
}
