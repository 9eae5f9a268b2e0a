//! The file of the socket.

use mio::net::{UnixListener, UnixStream};
use std::alloc::Global;
use std::fs::{DirBuilder, File, Files, Permissions, TryLockError};
use std::io::ErrorKind;
use std::net::Net;
use std::os::unix::fs::{DirBuilderExt, FileTypeExt, MetadataExt, PermissionsExt};
use std::path::Path;
use std::time::{Clock, Duration};
use std::{fs, io, thread};

/// The mode of the socket: only the owner may connect.
const MODE: u32 = 0o600;

/// The mode of the folder in which the socket is made: nobody else reaches what is in it.
const FOLDER_MODE: u32 = 0o700;

/// The number of names that are tried for that folder.
const MOST_FOLDERS: u32 = 1_000;

/// The number of tries to lock the folder of a path.
const MOST_TRIES: u32 = 1_000;

/// The pause in milliseconds between two of them.
const PAUSE: u64 = 1;

/// Returns the device and the number of the file at a path. A symbolic link is not followed. `None` if no file is
/// there, or its metadata can't be read.
pub fn node_at(rt: &impl Files, path: &str) -> Option<(u64, u64)> {
    match fs::symlink_metadata(rt, path) {
        Ok(metadata) => Some((metadata.dev(), metadata.ino())),
        Err(_) => None,
    }
}

/// Checks whether nobody listens on the socket at a path.
fn is_forsaken(net: &impl Net, path: &str) -> bool {
    match UnixStream::connect(net, path) {
        Ok(_) => false,
        Err(e) => e.kind() == ErrorKind::ConnectionRefused,
    }
}

/// Returns the path of the folder of the file at a path.
fn parent_of(path: &str) -> &str {
    match Path::new(path).parent() {
        Some(parent) if !parent.as_str().is_empty() => parent.as_str(),
        _ => ".",
    }
}

/// Locks the folder of a path: of several runs that replace a socket there, one at a time does. Returns `None` if the
/// system can't lock it.
///
/// # Errors
///
/// `AddrInUse` if the folder stays locked for a second.
fn locked_folder<R: Files<File = File> + Clock>(rt: &R, path: &str) -> io::Result<Option<File>> {
    let Ok(folder) = fs::open(rt, parent_of(path)) else {
        return Ok(None);
    };
    for _ in 0..MOST_TRIES {
        match folder.try_lock() {
            Ok(()) => return Ok(Some(folder)),
            Err(TryLockError::WouldBlock) => thread::sleep(rt, Duration::from_millis(PAUSE)),
            Err(TryLockError::Error(_)) => return Ok(None),
        }
    }
    Err(io::Error::from(ErrorKind::AddrInUse))
}

/// Makes a folder beside a path, which only its owner can enter. Its name begins with a dot and is not taken.
///
/// # Errors
///
/// `AlreadyExists` if all of 1,000 names are taken, `OutOfMemory` if an allocation failed. Any other error is the
/// system's.
fn make_folder(rt: &impl Files, alloc: Global, path: &str) -> io::Result<String> {
    let parent = parent_of(path);
    for number in 0..MOST_FOLDERS {
        let folder = format!(in alloc; "{parent}/.{number}")?;
        match DirBuilder::new()
            .mode(FOLDER_MODE)
            .create(rt, folder.as_str())
        {
            Ok(()) => return Ok(folder),
            Err(e) if e.kind() == ErrorKind::AlreadyExists => {}
            Err(e) => return Err(e),
        }
    }
    Err(io::Error::from(ErrorKind::AlreadyExists))
}

/// Gives the file at `made` the name `path`, if no file has it.
///
/// # Errors
///
/// `AlreadyExists` if a file has that name. Any other error is the system's.
fn publish(rt: &impl Files, made: &str, path: &str) -> io::Result<()> {
    fs::hard_link(rt, made, path)
}

/// Removes the socket at a path, if nobody listens on it. It is first moved to `old`, and comes back if it is another
/// than the one on which nobody listens.
///
/// # Errors
///
/// `AlreadyExists` if the file is no socket, `AddrInUse` if somebody listens on it or may. Any other error is the
/// system's.
fn make_room<R: Files + Net>(rt: &R, path: &str, old: &str) -> io::Result<()> {
    let metadata = fs::symlink_metadata(rt, path)?;
    if !metadata.file_type().is_socket() {
        return Err(io::Error::from(ErrorKind::AlreadyExists));
    }
    if !is_forsaken(rt, path) {
        return Err(io::Error::from(ErrorKind::AddrInUse));
    }
    fs::rename(rt, path, old)?;
    let is_same = node_at(rt, old) == Some((metadata.dev(), metadata.ino()));
    if !is_same {
        let _ = publish(rt, old, path);
    }
    let _ = fs::remove_file(rt, old);
    if is_same {
        Ok(())
    } else {
        Err(io::Error::from(ErrorKind::AddrInUse))
    }
}

/// Gives a listener's socket the name `path`, in place of a socket on which nobody listens.
///
/// # Errors
///
/// Those of [`make_room`], or the system's.
fn name_socket<R>(rt: &R, made: &str, path: &str, old: &str) -> io::Result<()>
where
    R: Files<File = File> + Net + Clock,
{
    match publish(rt, made, path) {
        Err(e) if e.kind() == ErrorKind::AlreadyExists => {
            let _lock = locked_folder(rt, path)?;
            make_room(rt, path, old)?;
            publish(rt, made, path)
        }
        named => named,
    }
}

/// Makes a listener's socket in a folder, and gives it the name `path`.
///
/// # Errors
///
/// Those of [`listen`].
fn listen_in<R: Files<File = File> + Net + Clock>(
    rt: &R,
    alloc: Global,
    folder: &str,
    path: &str,
) -> io::Result<UnixListener> {
    let made = format!(in alloc; "{folder}/s")?;
    let old = format!(in alloc; "{folder}/o")?;
    let listener = UnixListener::bind(rt, made.as_str())?;
    let named = match fs::set_permissions(rt, made.as_str(), Permissions::from_mode(MODE)) {
        Ok(()) => name_socket(rt, made.as_str(), path, old.as_str()),
        Err(e) => Err(e),
    };
    let _ = fs::remove_file(rt, made.as_str());
    named?;
    Ok(listener)
}

/// Opens a Unix socket at a path, to which only its owner may connect. No call of the socket waits. The socket is made
/// in a folder beside the path that only its owner can enter, and gets its name once it has its mode: a peer that finds
/// it may connect, and stays connected. The folder is removed again.
///
/// A file at the path is replaced only if it is a socket on which nobody listens. Of several that do so at once, one
/// succeeds: the folder of the path is locked meanwhile. That waits for a second at most.
///
/// # Errors
///
/// `AddrInUse` if somebody listens on the socket at the path, or may. `AlreadyExists` if any other file is there, a
/// symbolic link among them. `OutOfMemory` if an allocation failed. Any other error is the system's. No socket of ours
/// remains after an error.
pub fn listen<R: Files<File = File> + Net + Clock>(
    rt: &R,
    alloc: Global,
    path: &str,
) -> io::Result<UnixListener> {
    let folder = make_folder(rt, alloc, path)?;
    let listener = listen_in(rt, alloc, folder.as_str(), path);
    let _ = fs::remove_dir(rt, folder.as_str());
    listener
}
