//! The operations on files and sockets before a run.

use pb_frame::Text;
use std::net::SocketAddr;

/// An operation on a file or a socket, by its path or its address.
#[derive(PartialEq, Debug, Drop)]
pub enum Deed {
    /// A file was opened for reading.
    Read(Text),
    /// A socket was connected to.
    Connect(Text),
    /// A socket was made, at which a peer may connect.
    Listen(Text),
    /// A socket for datagrams was bound.
    Bind(SocketAddr),
    /// A file was opened for writing, and made if it was missing. Its contents stay.
    Write(Text),
    /// A file was emptied.
    Empty(Text),
}
