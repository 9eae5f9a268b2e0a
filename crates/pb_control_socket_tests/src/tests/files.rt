//! The file of a control socket.

use super::folder::{enter, leave};
use mio::net::{UnixListener, UnixStream};
use pb_control_socket::Control;
use std::alloc::Global;
use std::fs::{File, Files};
use std::io::ErrorKind;
use std::net::Net;
use std::os::unix::fs::{FileTypeExt, MetadataExt, symlink};
use std::test::Fail;
use std::time::Clock;
use std::{fs, io};

/// The socket's path.
const PATH: &str = "control.sock";

/// Returns the reason why no socket can be opened at a path.
fn refusal<R: Files<File = File> + Net + Clock>(
    rt: &R,
    alloc: Global,
    path: &str,
) -> Option<ErrorKind> {
    match Control::open(rt, alloc, path) {
        Ok(_) => None,
        Err(e) => Some(e.kind()),
    }
}

/// Checks whether no file is at the path.
fn is_free(rt: &impl Files) -> bool {
    fs::symlink_metadata(rt, PATH).is_err()
}

/// Checks whether somebody listens at the path.
fn is_heard(rt: &impl Net) -> bool {
    UnixStream::connect(rt, PATH).is_ok()
}

/// Returns a value that any thread may have: a run serves its socket in several threads.
fn for_any_thread<T: Send>(it: T) -> T {
    it
}

/// Returns whether a socket is at the path, and its mode.
fn node(rt: &impl Files) -> io::Result<(bool, u32)> {
    let metadata = fs::symlink_metadata(rt, PATH)?;
    Ok((metadata.file_type().is_socket(), metadata.mode() & 0o7777))
}

/// Opens and closes a socket. Returns what was at the path meanwhile, and whether the path is free then.
fn made_and_closed<R: Files<File = File> + Net + Clock>(
    rt: &R,
    alloc: Global,
) -> io::Result<((bool, u32), bool)> {
    let control = for_any_thread(Control::open(rt, alloc, PATH)?);
    let node = node(rt);
    control.close(rt);
    Ok((node?, is_free(rt)))
}

/// Opens a socket while somebody listens at the path. Returns the reason why that fails, and whether the listener still
/// accepts peers.
fn beside_a_live_one<R: Files<File = File> + Net + Clock>(
    rt: &R,
    alloc: Global,
) -> io::Result<(Option<ErrorKind>, bool)> {
    let listener = UnixListener::bind(rt, PATH)?;
    let refusal = refusal(rt, alloc, PATH);
    Ok((refusal, is_heard(rt) && listener.accept().is_ok()))
}

/// Opens a socket in place of one whose listener is gone. Returns whether the path was free before, whether peers can
/// connect, and whether the path is free after the socket is closed.
fn in_place_of_a_stale_one<R: Files<File = File> + Net + Clock>(
    rt: &R,
    alloc: Global,
) -> io::Result<(bool, bool, bool)> {
    let was_free = is_free(rt);
    let control = Control::open(rt, alloc, PATH)?;
    let is_heard = is_heard(rt);
    control.close(rt);
    Ok((was_free, is_heard, is_free(rt)))
}

/// Opens a socket at a path whose folder another process keeps locked, in place of one whose listener is gone. Returns
/// the reason why that fails, and whether the path is free.
fn in_a_locked_folder<R: Files<File = File> + Net + Clock>(
    rt: &R,
    alloc: Global,
) -> io::Result<(Option<ErrorKind>, bool)> {
    drop(UnixListener::bind(rt, PATH)?);
    let folder = fs::open(rt, ".")?;
    folder.lock()?;
    let seen = (refusal(rt, alloc, PATH), is_free(rt));
    fs::remove_file(rt, PATH)?;
    Ok(seen)
}

/// Closes a socket after a text file has taken its place.
fn closed_too_late<R: Files<File = File> + Net + Clock>(rt: &R, alloc: Global) -> io::Result<()> {
    let control = Control::open(rt, alloc, PATH)?;
    let is_written = fs::remove_file(rt, PATH).and(fs::write(rt, PATH, "words"));
    control.close(rt);
    is_written
}

/// Opens a socket while a text file is at the path. Returns the reason why that fails, and whether the text is
/// unchanged. Removes the file.
fn beside_a_file<R: Files<File = File> + Net + Clock + AllocGlobal>(
    rt: &R,
    alloc: Global,
) -> io::Result<(Option<ErrorKind>, bool)> {
    let refusal = refusal(rt, alloc, PATH);
    let is_left = fs::read_to_string(rt, PATH)?.as_str() == "words";
    fs::remove_file(rt, PATH)?;
    Ok((refusal, is_left))
}

/// Opens a socket while a symbolic link is at the path. Returns the reason why that fails, and whether the path is
/// free. Removes the link.
fn beside_a_link<R: Files<File = File> + Net + Clock>(
    rt: &R,
    alloc: Global,
) -> io::Result<(Option<ErrorKind>, bool)> {
    symlink(rt, "nowhere.sock", PATH)?;
    let seen = (refusal(rt, alloc, PATH), is_free(rt));
    fs::remove_file(rt, PATH)?;
    Ok(seen)
}

#[test]
fn the_file_is_ours_alone(rt: HostRuntime) -> Result<(), Fail> {
    const IN_USE: (Option<ErrorKind>, bool) = (Some(ErrorKind::AddrInUse), true);
    const EXISTS: Option<ErrorKind> = Some(ErrorKind::AlreadyExists);
    let alloc = rt.alloc();
    enter(&rt, rt.process())?;
    // (a socket is opened, only its owner may connect, and its file is removed at the end)
    assert!(rt; made_and_closed(&rt, alloc)? == ((true, 0o600), true));
    assert!(rt; beside_a_live_one(&rt, alloc)? == IN_USE);
    assert!(rt; in_place_of_a_stale_one(&rt, alloc)? == (false, true, true));
    assert!(rt; in_a_locked_folder(&rt, alloc)? == (Some(ErrorKind::AddrInUse), false));
    // (a file that is no socket is unchanged, and also one that took the place of our socket)
    closed_too_late(&rt, alloc)?;
    assert!(rt; beside_a_file(&rt, alloc)? == (EXISTS, true));
    assert!(rt; beside_a_link(&rt, alloc)? == (EXISTS, false));
    assert!(rt; refusal(&rt, alloc, "none/control.sock") == Some(ErrorKind::NotFound));
    Ok(leave(&rt, rt.process())?)
}
