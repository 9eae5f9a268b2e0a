//! A folder for temporary files in which a test works.

use std::fs::Files;
use std::path::PathBuf;
use std::process::Process;
use std::rt::Env;
use std::{env, fs, io, process};

/// Returns the folder of the process in the system's folder for temporary files. Each test runs in a process of its
/// own.
fn folder_of<R: Env + AllocGlobal>(rt: &R, process: Process) -> io::Result<PathBuf> {
    let name = format!(in rt.alloc(); "pb_control_socket_tests-{}", process::id(process))?;
    Ok(env::temp_dir(rt)?.join(rt.alloc(), name.as_str())?)
}

/// Makes the folder of the process, and enters it.
pub(super) fn enter<R: Env + Files + AllocGlobal>(rt: &R, process: Process) -> io::Result<()> {
    let folder = folder_of(rt, process)?;
    let _ = fs::remove_dir_all(rt, folder.as_path());
    fs::create_dir(rt, folder.as_path())?;
    env::set_current_dir(rt, folder.as_path())
}

/// Removes the folder of the process with all its files.
pub(super) fn leave<R: Env + Files + AllocGlobal>(rt: &R, process: Process) -> io::Result<()> {
    fs::remove_dir_all(rt, folder_of(rt, process)?.as_path())
}
