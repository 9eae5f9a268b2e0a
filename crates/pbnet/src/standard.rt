//! Descriptors of standard input, output and error that were closed when the program was started.

use std::fs::{File, Files, OpenOptions};
use std::os::fd::{AsRawFd, IntoRawFd};
use std::{fs, io};

/// A device that gives nothing, and drops what it is given.
const NULL: &str = "/dev/null";

/// A folder that is always there.
const ROOT: &str = "/";

/// Returns the lowest descriptor that is not in use, or `None` if there is none.
fn lowest_free<R: Files<File = File>>(rt: &R) -> Option<i32> {
    let probe = fs::open(rt, ROOT).ok()?;
    Some(probe.as_raw_fd())
}

/// Opens the null device for as long as the program runs.
///
/// # Errors
///
/// The error of the system.
fn occupy<R: Files<File = File>>(rt: &R, writes: bool) -> io::Result<()> {
    let file = OpenOptions::new()
        .read(!writes)
        .write(writes)
        .open(rt, NULL)?;
    let _ = file.into_raw_fd();
    Ok(())
}

/// Opens the null device in place of each of standard input, output and error that is closed. The files and sockets
/// that are opened later then have other descriptors: nothing that is printed gets into them.
///
/// # Errors
///
/// The error of the system, if one of the three is closed and the null device cannot be opened.
pub(crate) fn occupy_closed<R: Files<File = File>>(rt: &R) -> io::Result<()> {
    for _ in 0..3 {
        let Some(lowest) = lowest_free(rt) else {
            return Ok(());
        };
        if lowest > 2 {
            return Ok(());
        }
        occupy(rt, lowest != 0)?;
    }
    Ok(())
}
