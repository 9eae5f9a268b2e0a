//! Inputs of captures, whose reads don't block.

ghost use Rattle.std.specs.Io.{ReadsAtMost};

use std::fs::{File, Files, OpenOptions};
use std::io::{ErrorKind, Read, Write};
use std::os::fd::OwnedFd;
use std::os::unix::fs::FileTypeExt;
use std::os::unix::net::UnixStream;
use std::process::ChildStdout;
use std::{fs, io};

/// The handle of a file that is read.
#[derive(Drop)]
enum Handle {
    /// A file that was opened.
    Opened(File),
    /// Standard input itself.
    Standard(ChildStdout),
}

impl Handle {
    /// Reads the next octets, as `read` of [`Read`] does.
    fn read(&mut self, buf: &mut [u8]) -> io::Result<usize>
        ensures { ReadsAtMost result buf.new }
    {
        match self {
            Handle::Opened(file) => file.read(buf),
            Handle::Standard(input) => input.read(buf),
        }
    }
}

/// A file that is read.
#[derive(Drop)]
pub(crate) struct Source {
    file: Handle,
    /// For a named pipe from which nothing has come: a writer that the run itself holds, which keeps the pipe from its
    /// end until another writer has come.
    writer: Option<File>,
}

/// The input of a port over captures.
#[derive(Drop)]
pub(crate) enum Input {
    /// A file.
    File(Source),
    /// No octets: each read is at the end.
    Empty,
}

impl Source {
    /// Reads from the file, as `read` of [`Read`] does.
    ///
    /// # Errors
    ///
    /// The error of the system.
    fn read(&mut self, buf: &mut [u8]) -> io::Result<usize>
        ensures { ReadsAtMost result buf.new }
    {
        let count = self.file.read(buf)?;
        if count > 0 {
            self.writer = None;
        }
        Ok(count)
    }
}

impl Read for Input {
    fn read(&mut self, buf: &mut [u8]) -> io::Result<usize> {
        match self {
            Input::File(source) => source.read(buf),
            Input::Empty => Ok(0),
        }
    }
}

impl Write for Input {
    /// Returns `Unsupported`. An input can't be written.
    fn write(&mut self, _buf: &[u8]) -> io::Result<usize> {
        Err(io::Error::from(ErrorKind::Unsupported))
    }

    fn flush(&mut self) -> io::Result<()> {
        Ok(())
    }
}

/// Returns the path of a file to read. `-` is standard input.
pub(crate) fn input_path(path: &str) -> &str {
    if path == "-" { "/dev/stdin" } else { path }
}

/// Makes reads and writes of a file return `WouldBlock` instead of blocking.
///
/// # Errors
///
/// The error of the system.
pub(crate) fn stop_waiting(file: &File) -> io::Result<()> {
    let twin = file.try_clone()?;
    UnixStream::from(OwnedFd::from(twin)).set_nonblocking(true)
}

/// Opens a pipe for reading without waiting for a writer: the run itself holds one while it opens the pipe.
///
/// # Errors
///
/// The error of the system.
fn open_pipe<R: Files<File = File>>(rt: &R, path: &str, is_standard: bool) -> io::Result<Input> {
    let writer = OpenOptions::new().read(true).write(true).open(rt, path)?;
    let file = File::open(rt, path)?;
    stop_waiting(&file)?;
    let writer = if is_standard { None } else { Some(writer) };
    let file = Handle::Opened(file);
    Ok(Input::File(Source { file, writer }))
}

/// Takes standard input as it is: a file goes on from where it is, and the reads of a socket don't block.
///
/// # Errors
///
/// The error of the system.
fn take_standard(standard: &OwnedFd, is_socket: bool) -> io::Result<Input> {
    if is_socket {
        UnixStream::from(standard.try_clone()?).set_nonblocking(true)?;
    }
    let file = Handle::Standard(ChildStdout::from(standard.try_clone()?));
    Ok(Input::File(Source { file, writer: None }))
}

/// Opens a file for reading, or standard input if the path is `-`. Its reads don't block.
///
/// A named pipe ends when something has come from it and no writer is left. Standard input that is a pipe ends when no
/// writer is left. If it is a file or a socket, and given, it is taken as it is.
///
/// # Errors
///
/// The error of the system.
pub(crate) fn open_input<R: Files<File = File>>(
    rt: &R,
    path: &str,
    standard: Option<&OwnedFd>,
) -> io::Result<Input> {
    let is_standard = path == "-";
    let path = input_path(path);
    let metadata = fs::metadata(rt, path)?;
    let kind = metadata.file_type();
    if kind.is_fifo() {
        return open_pipe(rt, path, is_standard);
    }
    if is_standard && (kind.is_file() || kind.is_socket()) {
        if let Some(handle) = standard {
            return take_standard(handle, kind.is_socket());
        }
    }
    let file = File::open(rt, path)?;
    if !metadata.is_file() {
        stop_waiting(&file)?;
    }
    let file = Handle::Opened(file);
    Ok(Input::File(Source { file, writer: None }))
}
