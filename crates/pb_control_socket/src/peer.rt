//! A peer that is connected to the socket.

ghost use Rattle.std.specs.List.{All};
ghost use Rattle.std.specs.Prelude.{◌≡◌, ◌≤◌, ◌<◌, ℕ, true, string_len};
ghost use Rattle.pb_control_socket.specs.Sizes.{IsFew};
ghost use Rattle.pb_control_socket.specs.Requests.{is_there, changes};
ghost use Rattle.pb_control_socket.specs.declared.request.Request.{Request};

use crate::board::Board;
use crate::lines::LineBuffer;
use crate::reading::read_request;
use crate::replies::answer;
use crate::request::Request;
use pb_frame::Memory;
use pb_lan::Plan;
use std::alloc::Global;
use std::io::{Error, ErrorKind, Read, Write};

/// The greatest number of octets of a line, except for one that shows that it is too long.
const LONGEST: usize = 256;

/// The number of octets that are read at a time.
const CHUNK: usize = 512;

/// The progress that one call made with a peer.
#[derive(Clone, Copy, Debug, PartialEq, Eq)]
pub(crate) enum Progress {
    /// The peer has connected, or octets came from it.
    Heard,
    /// Something else was done.
    Moved,
    /// Nothing was to do.
    Idle,
    /// The peer has disconnected, or has to be disconnected.
    Gone,
}

/// Returns the progress of a stream's call that failed.
fn progress_of(error: &Error) -> Progress {
    match error.kind() {
        ErrorKind::Interrupted | ErrorKind::WouldBlock => Progress::Idle,
        _ => Progress::Gone,
    }
}

/// Returns the bridge of the plan whose stations a line asks for, if it does.
fn asked_bridge(plan: &Plan, line: &[u8]) -> Option<u8>
    requires { IsFew plan.now }
{
    match read_request(plan, line) {
        Ok(Request::Stations { bridge }) => Some(bridge),
        _ => None,
    }
}

/// A peer, the lines that it has sent, and the reply that it is to get.
///
/// One reply at a time is held. While it waits no line is taken, and while a line waits nothing is read.
#[derive(Drop)]
pub(crate) struct Peer<S> {
    stream: S,
    lines: LineBuffer,
    /// The line whose reply waits for the board.
    held: Option<Vec<u8>>,
    answer: String,
    sent: usize,
    ghost within: { sent ≤ string_len answer },
}

impl<S: Read + Write> Peer<S> {
    /// Returns a peer that has sent nothing yet.
    pub(crate) fn new(alloc: Global, stream: S) -> Peer<S> {
        Peer {
            stream,
            lines: LineBuffer::new(alloc, LONGEST),
            held: None,
            answer: String::new(alloc),
            sent: 0,
        }
    }

    /// Writes as much of the reply as the peer takes.
    fn write_on(&mut self) -> Progress {
        match self.stream.write(&self.answer.as_bytes()[self.sent..]) {
            Ok(0) => Progress::Gone,
            Ok(count) => {
                self.sent += count;
                Progress::Moved
            }
            Err(e) => progress_of(&e),
        }
    }

    /// Reads what the peer has sent.
    fn read_on(&mut self) -> Progress {
        let mut octets = [0u8; CHUNK];
        match self.stream.read(&mut octets) {
            Ok(0) => Progress::Gone,
            Ok(count) => match self.lines.put(&octets[..count]) {
                Ok(()) => Progress::Heard,
                Err(Memory) => Progress::Gone,
            },
            Err(e) => progress_of(&e),
        }
    }

    /// Performs a line, and makes its reply.
    fn answer<B: Board>(&mut self, alloc: Global, plan: &Plan, board: &B, line: &[u8]) -> Progress
        requires few { IsFew plan.now }
        requires allowed { (request : Request) → is_there plan.now request ≡ true
            → All (B.allows board.now) (changes plan.now request) }
    {
        self.sent = 0;
        self.answer.clear();
        match answer(alloc, plan, board, line, &mut self.answer) {
            Ok(()) => Progress::Moved,
            Err(Memory) => Progress::Gone,
        }
    }

    /// Performs a line, or holds it if its reply waits for the board.
    fn begin<B: Board>(&mut self, alloc: Global, plan: &Plan, board: &B, line: Vec<u8>) -> Progress
        requires few { IsFew plan.now }
        requires allowed { (request : Request) → is_there plan.now request ≡ true
            → All (B.allows board.now) (changes plan.now request) }
    {
        match asked_bridge(plan, line.as_slice()) {
            Some(bridge) => {
                board.ask_stations(bridge);
                self.held = Some(line);
                Progress::Moved
            }
            None => self.answer(alloc, plan, board, line.as_slice()),
        }
    }

    /// Performs the line that waits for the board, if the wait is over.
    fn go_on<B: Board>(&mut self, alloc: Global, plan: &Plan, board: &B, line: Vec<u8>) -> Progress
        requires few { IsFew plan.now }
        requires allowed { (request : Request) → is_there plan.now request ≡ true
            → All (B.allows board.now) (changes plan.now request) }
    {
        if let Some(bridge) = asked_bridge(plan, line.as_slice()) {
            if !board.has_stations(bridge) {
                self.held = Some(line);
                return Progress::Idle;
            }
        }
        self.answer(alloc, plan, board, line.as_slice())
    }

    /// Takes one step: writes the reply if some of it remains, else performs the line that waits for the board, if
    /// there is one, else the next line, else reads.
    pub(crate) fn step<B: Board>(&mut self, alloc: Global, plan: &Plan, board: &B) -> Progress
        requires few { IsFew plan.now }
        requires allowed { (request : Request) → is_there plan.now request ≡ true
            → All (B.allows board.now) (changes plan.now request) }
    {
        if self.sent < self.answer.len() {
            return self.write_on();
        }
        if let Some(line) = self.held.take() {
            return self.go_on(alloc, plan, board, line);
        }
        match self.lines.next_line() {
            Ok(Some(line)) => self.begin(alloc, plan, board, line),
            Ok(None) => self.read_on(),
            Err(Memory) => Progress::Gone,
        }
    }
}
