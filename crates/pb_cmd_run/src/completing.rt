//! Captures after a run: files to which no frame was written become captures without records, and those to which a
//! write failed end with a whole record.

ghost use Rattle.std.specs.Prelude.{◌≡◌, OnOk};
ghost use Rattle.std.specs.Io.KnownBytes.{Appends};
ghost use Rattle.pb_port.specs.Spelling.{file_header};

use crate::cut::{WriteError, cut};
use crate::run_files::RunFiles;
use crate::telling::show_path_fault;
use crate::users::Users;
use pb_frame::Text;
use pb_run_ports::Verb;
use std::alloc::Global;
use std::fs::{File, Files};
use std::io;
use std::io::Write;
use std::sync::Arc;

/// A file that a port writes.
#[derive(Drop)]
pub(crate) struct WrittenFile {
    /// Its path.
    pub path: Text,
    /// A handle of the file, which shares its position with that of the port.
    pub file: File,
    /// The error with which a write of the port failed.
    pub error: Arc<WriteError, Global>,
}

/// The capture files of a port or a tap of a network.
#[derive(Drop)]
pub(crate) struct CaptureFiles {
    /// The place of the port or the tap among the users of files.
    pub place: usize,
    /// The path of the file that it reads, if it reads one.
    pub read: Option<Text>,
    /// The path of the file that it writes, if it writes one.
    pub write: Option<Text>,
}

/// Returns the octets of a capture without records, as a capture port writes them before its first record.
fn empty_capture() -> [u8; 24]
    ensures { result ≡ file_header }
{
    [
        0xd4, 0xc3, 0xb2, 0xa1, 2, 0, 4, 0, 0, 0, 0, 0, 0, 0, 0, 0, 0xff, 0xff, 0, 0, 1, 0, 0, 0,
    ]
}

/// Writes a capture without records.
///
/// # Errors
///
/// The error of the writer.
fn write_empty_capture<W: Write>(writer: &mut W) -> io::Result<()>
    ensures { OnOk result (Appends (W.contents writer.old) (W.contents writer.new) file_header) }
{
    writer.write_all(&empty_capture())
}

/// Makes an empty file a capture without records. A device or a pipe stays as it is.
///
/// # Errors
///
/// The error of the system.
fn complete(file: &File) -> io::Result<()> {
    let metadata = file.metadata()?;
    if metadata.is_file() && metadata.len() == 0 {
        let mut writer = file;
        return write_empty_capture(&mut writer);
    }
    Ok(())
}

/// Completes the file of a port or a tap: an empty file becomes a capture without records, and a file to which a write
/// failed keeps its whole records.
///
/// # Errors
///
/// The error with which a write failed, or that of the system.
pub(crate) fn finish<R: Files<File = File>>(
    rt: &R,
    alloc: Global,
    written: &WrittenFile,
) -> io::Result<()> {
    match written.error.newest() {
        Some(error) => {
            let _ = cut(rt, alloc, written);
            Err(error)
        }
        None => complete(&written.file),
    }
}

/// Completes the files of ports and taps. Writes a line to `errors` for each to which a write failed. Returns whether
/// there is none among those of ports.
pub(crate) fn complete_all<O: RunFiles, E: Write>(
    alloc: Global,
    opener: &O,
    users: Users<'_>,
    files: &[CaptureFiles],
    errors: &mut E,
) -> bool {
    let mut are_whole = true;
    let mut output: usize = 0;
    for captures in files {
        let Some(path) = &captures.write else {
            continue;
        };
        if let Err(error) = opener.complete(output) {
            let (place, path) = (captures.place, path.as_str());
            show_path_fault(alloc, users, place, Verb::Write, path, &error, errors);
            are_whole = are_whole && place >= users.customers.len();
        }
        output = output.saturating_add(1);
    }
    are_whole
}
