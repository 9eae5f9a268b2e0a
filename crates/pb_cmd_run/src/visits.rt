//! The peers of a port that stays, one after another.

ghost use Rattle.std.specs.Prelude.{◌≡◌};

use crate::door::{PortDoor, may_wait};
use crate::watch::Post;
use mio::net::{UnixListener, UnixStream};
use pb_port::{Device, Got, Line, Parting};
use pb_run_control::PeerChange;
use std::io::{Read, Write};

/// The stream of a port that stays: its peer, if one is there, and the way in which the next one comes.
///
/// No call fails. An error of the system is a peer that left, and its input ends. If a write failed, the octets that
/// the peer had sent are read before its input ends.
#[derive(Drop)]
pub(crate) struct Visits {
    peer: Option<UnixStream>,
    /// The listener at which peers connect. Without it the gate of the run connects to them.
    listener: Option<UnixListener>,
    /// The port's side of its door.
    door: PortDoor,
    /// Where the port puts its sockets under watch.
    post: Post,
    /// Whether a write to the peer failed.
    is_broken: bool,
    /// Whether a peer that waits could not be accepted, and the port reported that.
    has_told: bool,
}

impl Visits {
    /// Returns the stream of a port with this peer or listener, which are under watch. A peer that is there already has
    /// come now.
    pub(crate) fn new(
        peer: Option<UnixStream>,
        listener: Option<UnixListener>,
        door: PortDoor,
        post: Post,
    ) -> Visits {
        let mut visits = Visits {
            peer: None,
            listener,
            door,
            post,
            is_broken: false,
            has_told: false,
        };
        if let Some(peer) = peer {
            visits.welcome(peer);
        }
        visits
    }

    /// Takes a peer in.
    fn welcome(&mut self, peer: UnixStream) {
        self.peer = Some(peer);
        self.is_broken = false;
        self.door.report(PeerChange::Connected);
    }

    /// Returns the next peer, if one waits. It is under watch from now on.
    fn next(&mut self) -> Option<UnixStream> {
        if !self.door.is_ready() {
            return None;
        }
        let mut peer = match &self.listener {
            None => self.door.next()?,
            Some(listener) => match listener.accept() {
                Ok((peer, _)) => peer,
                Err(error) => {
                    self.has_told = self.door.tell_unaccepted(self.has_told, &error);
                    return None;
                }
            },
        };
        self.has_told = false;
        self.post.register(&mut peer);
        Some(peer)
    }

    /// Takes the next peer in, if none is there and one waits.
    fn meet(&mut self) {
        if self.peer.is_some() {
            return;
        }
        if let Some(peer) = self.next() {
            self.welcome(peer);
        }
    }
}

impl Device for Visits {
    ghost failed = { λ _. 0 };

    fn read(&mut self, buf: &mut [u8]) -> Got {
        self.meet();
        let Some(peer) = &mut self.peer else {
            return Got::Wait;
        };
        match peer.read(buf) {
            Ok(count) => Got::Moved(count),
            Err(error) if may_wait(&error) && !self.is_broken => Got::Wait,
            Err(_) => Got::Moved(0),
        }
    }

    fn write(&mut self, buf: &[u8]) -> Got {
        self.meet();
        let Some(peer) = &mut self.peer else {
            return Got::Wait;
        };
        if self.is_broken {
            return Got::Wait;
        }
        match peer.write(buf) {
            Ok(count) if count > 0 || buf.is_empty() => Got::Moved(count),
            Err(error) if may_wait(&error) => Got::Wait,
            _ => {
                self.is_broken = true;
                Got::Wait
            }
        }
    }

    fn failures(&self) -> u64 {
        0
    }
}

impl Line for Visits {
    fn renew(&mut self, parting: Parting) {
        self.peer = None;
        self.door.report(PeerChange::Left {
            entered: parting.entered,
            left: parting.left,
            dropped: parting.dropped,
        });
    }
}
