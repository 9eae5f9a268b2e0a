//! Outputs that are no regular files: pipes and devices, whose writes don't block.

ghost use Rattle.std.specs.Prelude.{◌≡◌, ◌≤◌, length};
ghost use Rattle.std.specs.Io.{WritesAtMost};
ghost use Rattle.pb_cmd_run.specs.Pipes.{record_length, IsShare};

use crate::input::stop_waiting;
use byteorder::{ByteOrder as _, LittleEndian};
use std::fs::{File, Files, OpenOptions};
use std::io::Write;
use std::os::unix::fs::FileTypeExt;
use std::{fs, io};

/// The most octets that a pipe takes as a whole or not at all.
const ATOMIC: usize = 4_096;

/// The most records that have so many octets.
const MOST_RECORDS: usize = 256;

/// The octets of the header of a capture.
const HEADER: usize = 24;

/// The octets of the head of a record.
const HEAD: usize = 16;

/// A pipe or a device that a capture is written to.
///
/// Records of up to 4,096 octets are written whole or not at all, so that the last one is whole if the reader takes
/// nothing more.
#[derive(Drop)]
pub(crate) struct Pipe {
    file: File,
    /// The number of octets that remain of the header or the record that was begun.
    left: usize,
}

/// Returns the number of octets of the record that begins with these, or 0 if its head is not whole.
fn record_length(octets: &[u8]) -> usize
    ensures { result ≡ record_length octets.now }
{
    if octets.len() < HEAD {
        return 0;
    }
    HEAD + LittleEndian::read_u32(&octets[8..]) as usize
}

/// Returns how many octets of a capture to write at once, if the first `left` are the rest of what was begun: that rest
/// and the whole records after it, as many as a pipe takes whole. A record that is longer than that is begun.
fn share_of(octets: &[u8], left: usize) -> usize
    ensures within { result ≤ length octets.now }
    ensures whole { IsShare octets.now left result }
{
    if left >= octets.len() {
        return octets.len();
    }
    let mut end = left;
    for _piece in 0..MOST_RECORDS {
        let length = record_length(&octets[end..]);
        if length == 0 || length > octets.len() - end || length > ATOMIC.saturating_sub(end) {
            break;
        }
        end += length;
    }
    if end > 0 {
        return end;
    }
    let length = record_length(octets);
    if length == 0 || length > octets.len() {
        octets.len()
    } else {
        length
    }
}

/// Returns how many octets remain of what was begun after `written` octets of a capture, if before these the first
/// `left` were the rest of what was begun.
fn left_after(octets: &[u8], left: usize, written: usize) -> usize
    requires { written ≤ length octets.now }
{
    let mut end = left;
    for _piece in 0..=MOST_RECORDS {
        if written <= end {
            return end - written;
        }
        match record_length(&octets[end..]) {
            0 => return 0,
            length => end = end.saturating_add(length),
        }
    }
    0
}

/// Opens a pipe for writing without waiting for a reader: the run itself holds one while it opens the pipe.
///
/// # Errors
///
/// The error of the system.
fn open_pipe<R: Files<File = File>>(rt: &R, path: &str) -> io::Result<File> {
    let _reader = OpenOptions::new().read(true).write(true).open(rt, path)?;
    OpenOptions::new().write(true).open(rt, path)
}

/// Opens the pipe or the character device at a path for writing. Its writes don't block. Returns `None` if there is
/// another file or none.
///
/// # Errors
///
/// The error of the system.
pub fn open_unwaiting<R: Files<File = File>>(rt: &R, path: &str) -> io::Result<Option<File>> {
    let Ok(metadata) = fs::metadata(rt, path) else {
        return Ok(None);
    };
    let kind = metadata.file_type();
    let file = if kind.is_fifo() {
        open_pipe(rt, path)?
    } else if kind.is_char_device() {
        OpenOptions::new().write(true).open(rt, path)?
    } else {
        return Ok(None);
    };
    stop_waiting(&file)?;
    Ok(Some(file))
}

impl Pipe {
    /// Returns the output of a capture over a pipe or a device to which nothing was written.
    pub(crate) fn new(file: File) -> Pipe {
        Pipe { file, left: HEADER }
    }

    /// Writes a part of a capture, as `write` of [`Write`] does.
    ///
    /// # Errors
    ///
    /// `WouldBlock` if the pipe is full. Any other error is the system's.
    pub(crate) fn write(&mut self, octets: &[u8]) -> io::Result<usize>
        ensures { WritesAtMost result octets.now }
    {
        let share = &octets[..share_of(octets, self.left)];
        let written = self.file.write(share)?;
        self.left = left_after(share, self.left, written);
        Ok(written)
    }
}
