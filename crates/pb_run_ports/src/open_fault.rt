//! The reasons why the ports of a plan are not opened.

ghost use Rattle.std.specs.Prelude.{◌≡◌};
ghost use Rattle.pb_run_ports.specs.OpenFaults.{IsUnopened, IsUnemptied};
ghost use Rattle.pb_run_ports.specs.declared.open_fault.OpenFault.TheVariants.{Memory as memory_fault};

use pb_frame::{Memory, Text};
use std::alloc::{AllocFailed, Global};
use std::io::{Error, ErrorKind};
use std::net::SocketAddr;

/// The use that a port makes of a path or an address.
#[derive(Clone, Copy, Debug, PartialEq, Eq)]
pub enum Verb {
    /// It reads the file.
    Read,
    /// It writes the file.
    Write,
    /// It connects to the socket.
    Connect,
    /// It makes the socket.
    Listen,
    /// It binds a socket for datagrams to the address.
    Bind,
}

/// A user of a file. A port goes by its place in the plan, from 0.
#[derive(Clone, Copy, Debug, PartialEq, Eq)]
pub enum FileUser {
    /// The run itself, which read its plan from the file.
    Plan,
    /// The run itself, whose report goes to the file: it is standard output.
    Report,
    /// A port that reads it.
    Reader(usize),
    /// A port that writes it.
    Writer(usize),
}

/// A path or an address that a port could not use.
#[derive(Debug, Drop)]
pub struct PathFault {
    /// The port's place in the plan, from 0.
    pub place: usize,
    /// The use that the port would make of it.
    pub verb: Verb,
    /// The path, or the address in its usual form. It is empty if an allocation for it failed.
    pub path: Text,
    /// The error of the system.
    pub error: Error,
}

/// A file that a port would write and that has another use.
#[derive(Debug, Drop)]
pub struct SharedFile {
    /// The place in the plan, from 0, of the port that would write it.
    pub place: usize,
    /// The path by which the port would write it.
    pub path: Text,
    /// The other user of the file.
    pub other: FileUser,
}

/// A port that would bind an address at which other hosts reach it.
#[derive(Clone, Copy, Debug, PartialEq, Eq)]
pub struct ExposedPort {
    /// The port's place in the plan, from 0.
    pub place: usize,
    /// The address, which is not loopback.
    pub local: SocketAddr,
}

/// A reason why the ports of a plan are not opened.
#[derive(Debug, Drop)]
pub enum OpenFault {
    /// A file can't be opened or made, or a socket can't be connected to, made or bound. No file was emptied.
    Unopened(PathFault),
    /// All were open, and a file can't be emptied. Those of earlier ports are empty.
    Unemptied(PathFault),
    /// One file would be written twice, written and read, or written over the plan or the report. Nothing was opened.
    Shared(SharedFile),
    /// A port would bind an address that is not loopback, and the network is not allowed. Nothing was opened.
    Exposed(ExposedPort),
    /// An allocation failed. No file was emptied.
    Memory,
}

impl From<Memory> for OpenFault {
    ghost from_gives = { λ _ e. e ≡ memory_fault };

    fn from(_e: Memory) -> OpenFault {
        OpenFault::Memory
    }
}

impl<T: Drop> From<AllocFailed<T>> for OpenFault {
    ghost from_gives = { λ _ e. IsUnopened e };

    fn from(_e: AllocFailed<T>) -> OpenFault {
        OpenFault::Memory
    }
}

/// Returns the fault of a path or an address that can't be opened: `Memory` if the system was out of memory, else
/// `Unopened`.
pub(crate) fn unopened(place: usize, verb: Verb, path: Text, error: Error) -> OpenFault
    ensures { IsUnopened result }
{
    if error.kind() == ErrorKind::OutOfMemory {
        return OpenFault::Memory;
    }
    OpenFault::Unopened(PathFault {
        place,
        verb,
        path,
        error,
    })
}

/// Returns the fault of a file that can't be emptied. The path is left out if an allocation for it fails.
pub(crate) fn unemptied(alloc: Global, place: usize, path: &Text, error: Error) -> OpenFault
    ensures { IsUnemptied result }
{
    let path = match path.clone() {
        Ok(path) => path,
        Err(_) => Text::from_string(String::new(alloc)),
    };
    let verb = Verb::Write;
    OpenFault::Unemptied(PathFault {
        place,
        verb,
        path,
        error,
    })
}
