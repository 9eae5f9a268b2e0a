//! The files and sockets that a run opens.

ghost use Rattle.std.specs.Prelude.{◌≡◌, ℕ, List, [], ◌∷◌, Option, None, IfSome, IfOk, OnOk, OnErr};
ghost use Rattle.pb_run_ports.specs.Deeds.{Adds};
ghost use Rattle.pb_run_ports.specs.declared.deed.Deed.{Deed};
ghost use Rattle.pb_run_ports.specs.declared.deed.Deed.TheVariants.{Read as reads, Connect as connects};
ghost use Rattle.pb_run_ports.specs.declared.deed.Deed.TheVariants.{Listen as listens, Write as writes};
ghost use Rattle.pb_run_ports.specs.declared.deed.Deed.TheVariants.{Empty as empties, Bind as binds};

use pb_frame::{Memory, Text};
use std::alloc::Global;
use std::io;
use std::net::SocketAddr;

/// An opener of files and sockets: the operating system, or a replacement for tests.
///
/// A call that fails has no effect.
pub trait Openings {
    /// A file that is read.
    type Input: Drop;

    /// A file that is written.
    type Output: Drop;

    /// The stream of a socket.
    type Stream: Drop;

    /// A socket for datagrams.
    type Datagrams: Drop;

    /// The operations so far, in order, if they are known.
    ghost done: { Self → Option (List Deed) } = { λ _. None };

    /// The file that each path names, if this is known, or none for a file that may have several uses.
    ghost named: { Self → Option (List ℕ → Option (List ℕ)) } = { λ _. None };

    /// The octets of the file at each path, if they are known.
    ghost holds: { Self → List ℕ → Option (List ℕ) } = { λ _ _. None };

    /// The octets of a file that were not read yet, if they are known.
    ghost unread: { Self.Input → Option (List ℕ) } = { λ _. None };

    /// Returns a text that identifies the file at a path, whether it exists or not: the same text for all paths to the
    /// file. Returns `None` for a file that may have several uses at once.
    ///
    /// # Errors
    ///
    /// `Memory` if an allocation failed.
    fn file_at(&self, alloc: Global, path: &str) -> Result<Option<Text>, Memory>
        ensures { IfOk result (λ file. IfSome (named self.now) (λ name. file ≡ name path.now)) };

    /// Opens a file for reading.
    ///
    /// # Errors
    ///
    /// The error of the system. Nothing was done then.
    fn open_read(&mut self, path: &str) -> io::Result<Self::Input>
        ensures ok { OnOk result (Adds (done self.old) (done self.new) (reads path.now ∷ [])) }
        ensures octets { IfOk result (λ input. unread input ≡ holds self.old path.now) }
        ensures same { holds self.new ≡ holds self.old }
        ensures err { OnErr result (done self.new ≡ done self.old) };

    /// Connects to a socket. If the port stays, its stream has the next peer after this one has left.
    ///
    /// # Errors
    ///
    /// The error of the system. Nothing was done then.
    fn connect(&mut self, path: &str, stays: bool) -> io::Result<Self::Stream>
        ensures ok { OnOk result (Adds (done self.old) (done self.new) (connects path.now ∷ [])) }
        ensures same { holds self.new ≡ holds self.old }
        ensures err { OnErr result (done self.new ≡ done self.old) };

    /// Makes a socket at which one peer may connect. If the port stays, the next one may after this one has left.
    ///
    /// # Errors
    ///
    /// The error of the system. Nothing was done then.
    fn listen(&mut self, path: &str, stays: bool) -> io::Result<Self::Stream>
        ensures ok { OnOk result (Adds (done self.old) (done self.new) (listens path.now ∷ [])) }
        ensures same { holds self.new ≡ holds self.old }
        ensures err { OnErr result (done self.new ≡ done self.old) };

    /// Binds a socket for datagrams to an address. It is not connected to a peer.
    ///
    /// # Errors
    ///
    /// The error of the system. Nothing was done then.
    fn bind(&mut self, local: SocketAddr) -> io::Result<Self::Datagrams>
        ensures ok { OnOk result (Adds (done self.old) (done self.new) (binds local ∷ [])) }
        ensures same { holds self.new ≡ holds self.old }
        ensures err { OnErr result (done self.new ≡ done self.old) };

    /// Opens a file for writing, and makes it if it is missing. Its contents stay.
    ///
    /// # Errors
    ///
    /// The error of the system. Nothing was done then.
    fn open_write(&mut self, path: &str) -> io::Result<Self::Output>
        ensures ok { OnOk result (Adds (done self.old) (done self.new) (writes path.now ∷ [])) }
        ensures err { OnErr result (done self.new ≡ done self.old) };

    /// Empties a file that was opened for writing at this path.
    ///
    /// # Errors
    ///
    /// The error of the system. Nothing was done then.
    fn empty(&mut self, output: &Self::Output, path: &str) -> io::Result<()>
        ensures ok { OnOk result (Adds (done self.old) (done self.new) (empties path.now ∷ [])) }
        ensures err { OnErr result (done self.new ≡ done self.old) };

    /// Closes a file that was opened for writing at this path, and removes it if the opening made it.
    fn forget(&mut self, output: Self::Output, path: &str)
        ensures { done self.new ≡ done self.old };
}
