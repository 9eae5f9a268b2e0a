//! The control socket.

ghost use Rattle.std.specs.List.{All};
ghost use Rattle.std.specs.Prelude.{◌≡◌, ◌≢◌, ◌⊎◌, ◌↔◌, true, IsTrue, Some, None, IfOk, unwrap_or};
ghost use Rattle.pb_control_socket.specs.Requests.{is_there, changes};
ghost use Rattle.pb_control_socket.specs.Sizes.{IsFew};
ghost use Rattle.pb_control_socket.specs.Sockets.{path_of, silent_since, IsLong, KeepsPeer};
ghost use Rattle.pb_control_socket.specs.declared.request.Request.{Request};

use crate::board::Board;
use crate::path::{listen, node_at};
use crate::peer::{Peer, Progress};
use mio::net::{UnixListener, UnixStream};
use pb_lan::Plan;
use std::alloc::Global;
use std::fs::{File, Files};
use std::net::Net;
use std::time::Clock;
use std::{fs, io};

/// The greatest number of steps of a turn. A peer that never stops sending can't keep the caller.
const STEPS: u32 = 256;

/// The number of seconds after which a silent peer makes way for one that waits.
const SILENCE: u64 = 60;

/// A Unix socket on which one peer at a time sends lines and gets replies.
///
/// No call waits. The socket holds at most one reply, which is less than 400,000 octets for the largest plan, and reads
/// nothing more from a peer that doesn't take it. A second peer waits until the first disconnects or [makes
/// way](Control::make_way).
#[derive(Drop)]
pub struct Control {
    alloc: Global,
    listener: UnixListener,
    peer: Option<Peer<UnixStream>>,
    /// The second at which the clock was first read after the peer connected or sent octets. `None` before that.
    silent_since: Option<u64>,
    path: String,
    node: Option<(u64, u64)>,
}

/// Checks whether a silence has lasted for 60 seconds. Both times are cut to whole seconds, and the clock has to show
/// one more.
fn is_long(since: Option<u64>, now: u64) -> bool
    ensures { IsTrue result ↔ IsLong since now }
{
    match since {
        Some(since) => now.saturating_sub(since) > SILENCE,
        None => false,
    }
}

impl Control {
    /// Opens the socket at a path, with mode 600, as [`listen`] does.
    ///
    /// # Errors
    ///
    /// Those of [`listen`].
    pub fn open<R: Files<File = File> + Net + Clock>(
        rt: &R,
        alloc: Global,
        path: &str,
    ) -> io::Result<Control>
        ensures { IfOk result (λ control. path_of control ≡ path.now) }
    {
        let kept = String::from_str(alloc, path)?;
        let listener = listen(rt, alloc, path)?;
        Ok(Control {
            alloc,
            listener,
            peer: None,
            silent_since: None,
            path: kept,
            node: node_at(rt, path),
        })
    }

    /// Accepts the next peer, if one waits.
    fn accept(&mut self) -> Progress
        ensures kept { result ≢ Progress.Heard → KeepsPeer self.old self.new }
        ensures path { path_of self.new ≡ path_of self.old }
        ensures since { silent_since self.new ≡ silent_since self.old }
    {
        match self.listener.accept() {
            Ok((stream, _)) => {
                self.peer = Some(Peer::new(self.alloc, stream));
                Progress::Heard
            }
            Err(_) => Progress::Idle,
        }
    }

    /// Takes one step: with the peer if there is one, else accepts the next.
    fn step<B: Board>(&mut self, plan: &Plan, board: &B) -> Progress
        requires few { IsFew plan.now }
        requires allowed { (request : Request) → is_there plan.now request ≡ true
            → All (B.allows board.now) (changes plan.now request) }
        ensures path { path_of self.new ≡ path_of self.old }
        ensures since { silent_since self.new ≡ silent_since self.old }
    {
        match &mut self.peer {
            Some(peer) => peer.step(self.alloc, plan, board),
            None => self.accept(),
        }
    }

    /// Disconnects the peer and accepts the next, if one waits and the peer has sent nothing for 60 seconds. `now` is
    /// the time of a clock that never goes back, in whole seconds. Call it before [`turn`](Control::turn), once a
    /// second or more often. If it is never called, no peer makes way.
    pub fn make_way(&mut self, now: u64)
        ensures kept { (IsLong (silent_since self.old) now → ⊥) → KeepsPeer self.old self.new }
        ensures since { (IsLong (silent_since self.old) now → ⊥)
            → silent_since self.new ≡ Some (unwrap_or (silent_since self.old) now) }
        ensures anew { KeepsPeer self.old self.new ⊎ (silent_since self.new ≡ None) }
        ensures path { path_of self.new ≡ path_of self.old }
    {
        if !is_long(self.silent_since, now) {
            self.silent_since = Some(self.silent_since.unwrap_or(now));
            return;
        }
        if self.accept() == Progress::Heard {
            self.silent_since = None;
        }
    }

    /// Takes a turn, and returns whether anything was done. It accepts a peer if there is none, reads what the peer has
    /// sent, performs its whole lines, and writes the replies, until nothing is to do or 256 steps were taken. A peer
    /// that disconnects, or for which an allocation failed, is dropped, and the next may connect. The silence of a peer
    /// ends if octets come from it, and never grows.
    pub fn turn<B: Board>(&mut self, plan: &Plan, board: &B) -> bool
        requires few { IsFew plan.now }
        requires allowed { (request : Request) → is_there plan.now request ≡ true
            → All (B.allows board.now) (changes plan.now request) }
        ensures path { path_of self.new ≡ path_of self.old }
        ensures since { (silent_since self.new ≡ None) ⊎ (silent_since self.new ≡ silent_since self.old) }
    {
        let mut has_moved = false;
        for _ in 0..STEPS {
            match self.step(plan, board) {
                Progress::Idle => return has_moved,
                Progress::Heard => self.silent_since = None,
                Progress::Moved => {}
                Progress::Gone => self.peer = None,
            }
            has_moved = true;
        }
        has_moved
    }

    /// Closes the socket, and removes its file if it is still at the path.
    pub fn close<R: Files>(self, rt: &R) {
        let path = self.path.as_str();
        if self.node.is_some() && node_at(rt, path) == self.node {
            let _ = fs::remove_file(rt, path);
        }
    }
}
