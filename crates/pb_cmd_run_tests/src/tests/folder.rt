//! A folder for the temporary files of a test.

use std::fs::Files;
use std::path::PathBuf;
use std::process::Process;
use std::rt::Env;
use std::{env, fs, io, process};

/// Returns the path of a folder of the process's own among the system's temporary files. Each test runs in a process of
/// its own.
fn folder<R: Env + AllocGlobal>(rt: &R, process: Process) -> io::Result<PathBuf> {
    let name = format!(in rt.alloc(); "pb_cmd_run_tests-{}", process::id(process))?;
    Ok(env::temp_dir(rt)?.join(rt.alloc(), name.as_str())?)
}

/// Makes the folder, and makes it the current one.
pub(super) fn enter<R: Env + Files + AllocGlobal>(rt: &R, process: Process) -> io::Result<()> {
    let folder = folder(rt, process)?;
    let _ = fs::remove_dir_all(rt, folder.as_path());
    fs::create_dir(rt, folder.as_path())?;
    env::set_current_dir(rt, folder.as_path())
}

/// Removes the folder with all its files.
pub(super) fn leave<R: Env + Files + AllocGlobal>(rt: &R, process: Process) -> io::Result<()> {
    let folder = folder(rt, process)?;
    fs::remove_dir_all(rt, folder.as_path())
}

/// Files by their names, with the octets of each.
pub(super) type Contents<'a> = &'a [(&'static str, &'static [u8])];

/// Makes these files.
pub(super) fn make<R: Files>(rt: &R, files: Contents) -> io::Result<()> {
    for (name, octets) in files {
        fs::write(rt, *name, *octets)?;
    }
    Ok(())
}

/// Returns whether there is a file with these octets.
pub(super) fn has<R: Files + AllocGlobal>(rt: &R, name: &str, octets: &[u8]) -> bool {
    match fs::read(rt, name) {
        Ok(found) => found.as_slice() == octets,
        Err(_) => false,
    }
}

/// Returns the name of the first of these files that differs, or the empty text.
pub(super) fn wrong<R: Files + AllocGlobal>(rt: &R, files: Contents) -> &'static str {
    for (name, octets) in files {
        if !has(rt, name, octets) {
            return *name;
        }
    }
    ""
}

/// Returns whether there is no such file.
pub(super) fn is_missing<R: Files>(rt: &R, name: &str) -> bool {
    matches!(fs::exists(rt, name), Ok(false))
}
