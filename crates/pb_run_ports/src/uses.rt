//! Files with two uses.

ghost use Rattle.std.specs.Prelude.{◌≡◌, ◌++◌, is_some, is_none, IfSome, IfOk, OnOk};
ghost use Rattle.std.specs.List.{list_any};
ghost use Rattle.pb_run_ports.specs.Uses.{are_apart, clashes, is_apart, use_of, uses_at, writes};

use crate::open_fault::FileUser;
use crate::openings::Openings;
use pb_frame::{Memory, Text};
use pb_service::PortSpec;
use std::alloc::Global;

/// The path of standard output, to which the report goes.
const REPORT: &str = "/dev/stdout";

/// A use of a file.
#[derive(Drop)]
pub(crate) struct FileUse {
    /// The text that identifies the file.
    pub file: Text,
    /// The user of the file.
    pub user: FileUser,
}

/// A conflict: a port would write a file that has another use.
#[derive(Clone, Copy)]
pub(crate) struct Clash {
    /// The place in the plan, from 0, of the port that would write it.
    pub place: usize,
    /// The other user of the file.
    pub other: FileUser,
}

/// Returns whether a user of a file writes it.
fn writes(user: FileUser) -> bool
    ensures { result ≡ writes user }
{
    match user {
        FileUser::Writer(_) => true,
        FileUser::Reader(_) | FileUser::Plan | FileUser::Report => false,
    }
}

/// Returns the place in the plan, from 0, of a port that uses a file, and 0 for the run itself.
fn place_of(user: FileUser) -> usize {
    match user {
        FileUser::Reader(place) | FileUser::Writer(place) => place,
        FileUser::Plan | FileUser::Report => 0,
    }
}

/// Returns whether two uses are of one file and one of them writes it.
fn is_clash(earlier: &FileUse, later: &FileUse) -> bool
    ensures { result ≡ clashes earlier.now later.now }
{
    let is_written = writes(earlier.user) || writes(later.user);
    is_written && earlier.file == later.file
}

/// Returns the conflict of two uses. The writer is the later one if that writes.
fn clash_of(earlier: &FileUse, later: &FileUse) -> Clash {
    let (one, other) = if writes(later.user) {
        (later, earlier)
    } else {
        (earlier, later)
    };
    Clash {
        place: place_of(one.user),
        other: other.user,
    }
}

/// Returns the conflict with the first later use that has one, if there is one.
fn clash_with(earlier: &FileUse, uses: &[FileUse]) -> Option<Clash>
    ensures { is_some result ≡ list_any (clashes earlier.now) uses.now }
{
    for later in uses {
        if is_clash(earlier, later) {
            return Some(clash_of(earlier, later));
        }
    }
    None
}

/// Returns the first conflict among the uses, if there is one.
fn clash_in(uses: &[FileUse]) -> Option<Clash>
    ensures { is_none result ≡ is_apart uses.now }
{
    for (index, earlier) in uses.iter().enumerate() {
        let (_, later) = uses.split_at(index + 1);
        if let Some(clash) = clash_with(earlier, later) {
            return Some(clash);
        }
    }
    None
}

/// Appends the use of a path, unless the file there may have several uses.
fn put_use<O: Openings>(
    alloc: Global,
    opener: &O,
    uses: &mut Vec<FileUse>,
    user: FileUser,
    path: &str,
) -> Result<(), Memory>
    ensures { OnOk result (IfSome (O.named opener.now) (λ name. uses.new.items ≡ uses.old.items
        ++ use_of user (name path.now))) }
{
    if let Some(file) = opener.file_at(alloc, path)? {
        uses.push(FileUse { file, user })?;
    }
    Ok(())
}

/// Appends the uses that a port makes of files.
fn put_uses<O: Openings>(
    alloc: Global,
    opener: &O,
    uses: &mut Vec<FileUse>,
    place: usize,
    spec: &PortSpec,
) -> Result<(), Memory>
    ensures { OnOk result (IfSome (O.named opener.now) (λ name. uses.new.items ≡ uses.old.items
        ++ uses_at name place spec.now)) }
{
    match spec {
        PortSpec::Capture { read, write, .. } => {
            put_use(alloc, opener, uses, FileUser::Reader(place), read.as_str())?;
            put_use(alloc, opener, uses, FileUser::Writer(place), write.as_str())
        }
        PortSpec::Record { write, .. } => {
            let user = FileUser::Writer(place);
            put_use(alloc, opener, uses, user, write.as_str())
        }
        PortSpec::Replay { read, .. } => {
            let user = FileUser::Reader(place);
            put_use(alloc, opener, uses, user, read.as_str())
        }
        PortSpec::Memory(_) | PortSpec::Socket { .. } | PortSpec::Udp { .. } => Ok(()),
    }
}

/// Returns the first conflict of the ports, if there is one: a file that a port would write and that has another use.
/// The plan was read at `plan_path`, and the report goes to standard output.
///
/// # Errors
///
/// `Memory` if an allocation failed.
pub(crate) fn find_clash<O: Openings>(
    alloc: Global,
    opener: &O,
    plan_path: &str,
    specs: &[PortSpec],
) -> Result<Option<Clash>, Memory>
    ensures { IfOk result (λ clash. IfSome (O.named opener.now) (λ name.
        is_none clash ≡ are_apart name plan_path.now specs.now)) }
{
    let mut uses = Vec::new(alloc);
    put_use(alloc, opener, &mut uses, FileUser::Plan, plan_path)?;
    put_use(alloc, opener, &mut uses, FileUser::Report, REPORT)?;
    for (place, spec) in specs.iter().enumerate() {
        put_uses(alloc, opener, &mut uses, place, spec)?;
    }
    Ok(clash_in(uses.as_slice()))
}
