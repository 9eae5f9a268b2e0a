//! Captures to which a write failed. A part of a record may be the last that their ports wrote.

ghost use Rattle.std.specs.Prelude.{◌≤◌, length};

use crate::completing::WrittenFile;
use std::alloc::Global;
use std::fs::{File, Files};
use std::io::{BufReader, Error, ErrorKind, Read};
use std::os::unix::fs::MetadataExt;
use std::sync::atomic::{AtomicU64, Ordering};
use std::{fs, io};

/// The number of octets before the first record.
const HEADER: usize = 24;

/// The number of octets before the frame of a record.
const HEAD: usize = 16;

/// The most octets of a frame in a record.
const LONGEST: usize = 65_535;

/// The error of the system with which a write to a file failed, if one did.
#[derive(Drop)]
pub(crate) struct WriteError {
    code: AtomicU64,
}

impl WriteError {
    /// Returns that no write failed.
    pub(crate) fn none() -> WriteError {
        WriteError {
            code: AtomicU64::new(0),
        }
    }

    /// Keeps the error of a write, unless a later call may do what this one did not.
    pub(crate) fn note(&self, error: &Error) {
        if matches!(error.kind(), ErrorKind::Interrupted | ErrorKind::WouldBlock) {
            return;
        }
        if let Some(code) = error.raw_os_error() {
            self.code
                .store(u64::from(code.unsigned_abs()), Ordering::SeqCst);
        }
    }

    /// Returns the newest error that was kept.
    pub(crate) fn newest(&self) -> Option<Error> {
        match self.code.load(Ordering::SeqCst) {
            0 => None,
            code => Some(Error::from_raw_os_error(code.min(4_095) as i32)),
        }
    }
}

/// Reads a record of a capture into a buffer of at least 65,535 octets. Returns its number of octets, or `None` if it
/// is not whole.
fn record_length<R: Read>(reader: &mut R, buffer: &mut [u8]) -> Option<u64>
    requires { 65535 ≤ length buffer.old }
{
    let mut head = [0u8; HEAD];
    reader.read_exact(&mut head).ok()?;
    let length = u32::from_le_bytes([head[8], head[9], head[10], head[11]]) as usize;
    if length > LONGEST {
        return None;
    }
    reader.read_exact(&mut buffer[..length]).ok()?;
    Some((HEAD + length) as u64)
}

/// Returns how many octets the header and the whole records of a capture have, or 0 if its header is not whole.
fn whole_length<R: Read>(reader: &mut R, buffer: &mut [u8]) -> u64
    requires { 65535 ≤ length buffer.old }
{
    let mut header = [0u8; HEADER];
    if reader.read_exact(&mut header).is_err() {
        return 0;
    }
    let mut whole = HEADER as u64;
    for _ in 0..u64::MAX {
        match record_length(reader, buffer) {
            Some(length) => whole = whole.saturating_add(length),
            None => break,
        }
    }
    whole
}

/// Opens the file of a port for reading, if its path still leads to it.
///
/// # Errors
///
/// The error of the system.
fn reopened<R: Files<File = File>>(rt: &R, written: &WrittenFile) -> io::Result<Option<File>> {
    let file = fs::open(rt, written.path.as_str())?;
    let (there, here) = (file.metadata()?, written.file.metadata()?);
    let is_same = (there.dev(), there.ino()) == (here.dev(), here.ino());
    Ok(if is_same && here.is_file() {
        Some(file)
    } else {
        None
    })
}

/// Shortens a capture to its whole records. A device, a pipe, and a file that is no more at its path stay as they are.
///
/// # Errors
///
/// The error of the system, or that an allocation failed.
pub(crate) fn cut<R: Files<File = File>>(
    rt: &R,
    alloc: Global,
    written: &WrittenFile,
) -> io::Result<()> {
    let Some(file) = reopened(rt, written)? else {
        return Ok(());
    };
    let mut reader = BufReader::new(alloc, file)?;
    let mut buffer = vec![in alloc; 0u8; LONGEST]?;
    let whole = whole_length(&mut reader, buffer.as_mut_slice());
    if whole < written.file.metadata()?.len() {
        written.file.set_len(whole)?;
    }
    Ok(())
}
