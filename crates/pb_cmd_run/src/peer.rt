//! The peers of socket ports.

use crate::door::PortDoor;
use crate::visits::Visits;
use crate::watch::Post;
use mio::net::{UnixListener, UnixStream};
use pb_control_socket::node_at;
use pb_frame::Text;
use std::fs::Files;
use std::io::{Error, ErrorKind, Read, Write};
use std::{fs, io};

/// The socket of a port.
#[derive(Drop)]
enum Socket {
    /// The peer is connected.
    Here(UnixStream),
    /// The peer has not connected yet.
    Awaited(UnixListener),
}

/// The peer of a socket port.
#[derive(Drop)]
pub struct Peer {
    socket: Socket,
    /// The path at which a port that stays connects again.
    path: Option<Text>,
    /// Where the port puts its sockets under watch.
    post: Post,
    /// Where a port that waits for its peer reports that the peer can't be accepted.
    door: Option<PortDoor>,
    /// Whether it has reported that.
    has_told: bool,
}

impl Peer {
    /// Returns a peer that is connected. A port that stays connects again at the path.
    pub(crate) fn here(stream: UnixStream, path: Option<Text>) -> Peer {
        Peer {
            socket: Socket::Here(stream),
            path,
            post: Post::none(),
            door: None,
            has_told: false,
        }
    }

    /// Returns a peer that is to connect to the listener.
    pub(crate) fn awaited(listener: UnixListener) -> Peer {
        Peer {
            socket: Socket::Awaited(listener),
            path: None,
            post: Post::none(),
            door: None,
            has_told: false,
        }
    }

    /// Puts the socket of the peer under watch at a post, and each later one.
    pub(crate) fn watch(&mut self, post: Post) {
        match &mut self.socket {
            Socket::Here(stream) => post.register(stream),
            Socket::Awaited(listener) => post.register(listener),
        }
        self.post = post;
    }

    /// Checks whether the peer has not connected yet.
    pub(crate) fn is_awaited(&self) -> bool {
        matches!(&self.socket, Socket::Awaited(_))
    }

    /// Has the port report at a door that its peer can't be accepted.
    pub(crate) fn report_at(&mut self, door: PortDoor) {
        self.door = Some(door);
    }

    /// Takes the path at which the port connects again, if it does.
    pub(crate) fn take_path(&mut self) -> Option<Text> {
        self.path.take()
    }

    /// Returns the peer as the first of a port that stays, with the port's side of its door.
    pub(crate) fn staying(self, door: PortDoor) -> Visits {
        let Peer { socket, post, .. } = self;
        match socket {
            Socket::Here(stream) => Visits::new(Some(stream), None, door, post),
            Socket::Awaited(listener) => Visits::new(None, Some(listener), door, post),
        }
    }

    /// Reports once that the peer can't be accepted, for an error that is not that none waits.
    fn tell_unaccepted(&mut self, error: &Error) {
        if let Some(door) = &mut self.door {
            self.has_told = door.tell_unaccepted(self.has_told, error);
        }
    }

    /// Accepts the connection of the peer, if it has not connected yet. The listener is closed after that, and no other
    /// peer can connect.
    ///
    /// # Errors
    ///
    /// `WouldBlock` if no peer waits, or it can't be accepted now.
    fn meet(&mut self) -> io::Result<()> {
        let accepted = match &self.socket {
            Socket::Here(_) => return Ok(()),
            Socket::Awaited(listener) => listener.accept(),
        };
        match accepted {
            Ok((mut stream, _)) => {
                self.post.register(&mut stream);
                self.socket = Socket::Here(stream);
                Ok(())
            }
            Err(error) => {
                self.tell_unaccepted(&error);
                Err(Error::from(ErrorKind::WouldBlock))
            }
        }
    }
}

impl Read for Peer {
    fn read(&mut self, buf: &mut [u8]) -> io::Result<usize> {
        self.meet()?;
        match &mut self.socket {
            Socket::Here(stream) => stream.read(buf),
            Socket::Awaited(_) => Err(io::Error::from(ErrorKind::WouldBlock)),
        }
    }
}

impl Write for Peer {
    fn write(&mut self, buf: &[u8]) -> io::Result<usize> {
        self.meet()?;
        match &mut self.socket {
            Socket::Here(stream) => stream.write(buf),
            Socket::Awaited(_) => Err(io::Error::from(ErrorKind::WouldBlock)),
        }
    }

    fn flush(&mut self) -> io::Result<()> {
        Ok(())
    }
}

/// The file of a socket that a port made.
#[derive(Drop)]
pub(crate) struct SocketFile {
    pub path: Text,
    /// Its device number and inode, after the socket was made.
    pub node: Option<(u64, u64)>,
}

/// Removes the files of sockets, each if it is still the one at its path.
pub(crate) fn remove_sockets(rt: &impl Files, sockets: &[SocketFile]) {
    for socket in sockets {
        let path = socket.path.as_str();
        if socket.node.is_some() && node_at(rt, path) == socket.node {
            let _ = fs::remove_file(rt, path);
        }
    }
}
